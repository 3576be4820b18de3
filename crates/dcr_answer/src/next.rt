ghost use Rattle.std.specs.Prelude.{◌≡◌, ◌⊎◌, ◌++◌, slice_index};
ghost use Rattle.dcr_answer.specs.Reading.{IsReadIn, ReadsMore, ReadsNext};

use crate::AnswerEnd;
use dcr_base::Source;
use dcr_porter::{Unfilled, fill};
use dcr_wire::{Message, Question, read_message, read_question};

/// What a site is asked: a message that asks it or tells it of an execution, or a question.
#[derive(Clone, Copy)]
pub(crate) enum Next {
    Message(Message),
    Question(Question),
}

/// The next message or question of the source that a site is asked by: a kind 1 or 3 of 14 bytes, or 4 of 12. Else why there is
/// none: what came is of another kind, or is none of this kind, or the source ended or failed. No byte behind it is read.
pub(crate) fn read_next<S: Source>(source: &mut S) -> Result<Next, AnswerEnd>
    ensures read { ReadsNext (S.has_ended source.new) (S.gives source.old) (S.gives source.new) result }
    ensures apart { S.sink_side source.new ≡ S.sink_side source.old }
{
    let mut first = [0; 12];
    match fill(source, &mut first) {
        Ok(()) => {}
        Err(Unfilled::Ended { read: 0 }) => return Err(AnswerEnd::Ended),
        Err(Unfilled::Ended { .. }) => return Err(AnswerEnd::Torn),
        Err(Unfilled::Failed { .. }) => return Err(AnswerEnd::LinkFault),
    }
    match first[0] {
        1 => read_more(source, &first),
        3 => read_more(source, &first),
        4 => question_in(&first),
        _ => Err(AnswerEnd::NotOurs),
    }
}

// The question of these bytes.
fn question_in(first: &[u8; 12]) -> Result<Next, AnswerEnd>
    requires { slice_index first.now 0 ≡ 4 }
    ensures { IsReadIn first.now result }
{
    match read_question(first) {
        Some(question) => Ok(Next::Question(question)),
        None => Err(AnswerEnd::NotOurs),
    }
}

// The message that begins with these bytes, which are of a kind that a site is asked by.
fn read_more<S: Source>(source: &mut S, first: &[u8; 12]) -> Result<Next, AnswerEnd>
    requires kind { (slice_index first.now 0 ≡ 1) ⊎ (slice_index first.now 0 ≡ 3) }
    ensures read { ReadsMore first.now (S.has_ended source.new) (S.gives source.old) (S.gives source.new) result }
    ensures apart { S.sink_side source.new ≡ S.sink_side source.old }
{
    let mut last = [0; 2];
    match fill(source, &mut last) {
        Ok(()) => message_in(first, &last),
        Err(Unfilled::Ended { .. }) => Err(AnswerEnd::Torn),
        Err(Unfilled::Failed { .. }) => Err(AnswerEnd::LinkFault),
    }
}

// The message of these bytes.
fn message_in(first: &[u8; 12], last: &[u8; 2]) -> Result<Next, AnswerEnd>
    requires kind { (slice_index first.now 0 ≡ 1) ⊎ (slice_index first.now 0 ≡ 3) }
    ensures { IsReadIn (first.now ++ last.now) result }
{
    let bytes = joined(first, last);
    match read_message(&bytes) {
        Some(message) => Ok(Next::Message(message)),
        None => Err(AnswerEnd::NotOurs),
    }
}

// These bytes, one behind the other.
fn joined(first: &[u8; 12], last: &[u8; 2]) -> [u8; 14]
    ensures { result ≡ first.now ++ last.now }
{
    let mut bytes = [0; 14];
    bytes[..12].copy_from_slice(first);
    bytes[12..].copy_from_slice(last);
    bytes
}
