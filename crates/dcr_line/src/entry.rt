ghost use Rattle.std.specs.Prelude.{◌≡◌, length, option_map, IfSome};
ghost use Rattle.dcr_journal.specs.Run.{IsInRange};
ghost use Rattle.dcr_line.specs.Fits.{FitsEntry};
ghost use Rattle.dcr_line.specs.Known.{AreNames};
ghost use Rattle.dcr_line.specs.EntryLine.{number_in, number_from, exec_outcome_from, exec_outcome_after, look_outcome_from, enabled_outcome_from, verdict_from, verdict_after, outcome_from, head_from, head_in, entry_from, entry_in};

use crate::call::{take_call, take_event};
use crate::directory::Directory;
use crate::mark::{take_list, take_mark};
use crate::pieces::Pieces;
use dcr_journal::{Call, Entry, Outcome};
use dcr_text::read_decimal;

/// What the line of an entry begins with.
#[derive(Clone, Copy, Debug, PartialEq, Eq)]
pub struct Head {
    /// Its place.
    pub place: u32,
    /// The session that made the call.
    pub session: u32,
    /// How many calls that session had made before.
    pub seq: u32,
    pub call: Call,
}

/// The head that a line begins with: the place, the session, how many calls the session had made before, and
/// the call. What is behind it is not read. None exactly where the line begins with no head.
pub fn read_head(line: &[u8], directory: &Directory<'_>) -> Option<Head>
    ensures head { result ≡ head_in directory.now.sites directory.now.atoms line.now }
    ensures in_range { IfSome result
        (λ head. IsInRange (length directory.now.sites) (length directory.now.atoms) head.call) }
    ensures sites { AreNames directory.now.sites }
    ensures atoms { AreNames directory.now.atoms }
{
    directory.names_are_known();
    head_of(line, directory)
}

// As `read_head`, by the words of the line.
fn head_of(line: &[u8], directory: &Directory<'_>) -> Option<Head>
    ensures { result ≡ head_in directory.now.sites directory.now.atoms line.now }
{
    let mut words = Pieces::of(line, b' ');
    take_head(&mut words, directory)
}

/// The entry that a line tells, with its place: the place, the session, how many calls the session had made
/// before, the call, and an outcome of its kind, with one space between each two words. The numbers are
/// decimal, without leading zeros, and have 32 bits. None exactly where the line tells no entry.
pub fn read_entry(line: &[u8], directory: &Directory<'_>) -> Option<(u32, Entry)>
    ensures entry { result ≡ entry_in directory.now.sites directory.now.atoms line.now }
    ensures fits { IfSome result
        (λ told. FitsEntry (length directory.now.sites) (length directory.now.atoms) told.1) }
{
    entry_of(line, directory)
}

// As `read_entry`, by the words of the line.
#[tactic(auto, unfolding(crate::specs::EntryLine::entry_in))]
fn entry_of(line: &[u8], directory: &Directory<'_>) -> Option<(u32, Entry)>
    ensures { result ≡ entry_in directory.now.sites directory.now.atoms line.now }
{
    let mut words = Pieces::of(line, b' ');
    let told = take_entry(&mut words, directory)?;
    if words.next().is_some() {
        return None;
    }
    Some(told)
}

// Takes the place and the entry that the words begin with.
#[tactic(auto, unfolding(crate::specs::EntryLine::entry_from))]
fn take_entry(words: &mut Pieces<'_>, directory: &Directory<'_>) -> Option<(u32, Entry)>
    ensures { option_map (λ told. (told, words.new)) result
        ≡ entry_from directory.now.sites directory.now.atoms words.old }
{
    let head = take_head(words, directory)?;
    let outcome = take_outcome(&head.call, words, directory)?;
    Some((
        head.place,
        Entry {
            session: head.session,
            seq: head.seq,
            call: head.call,
            outcome,
        },
    ))
}

// Takes the head that the words begin with.
#[tactic(auto, unfolding(crate::specs::EntryLine::head_from))]
fn take_head(words: &mut Pieces<'_>, directory: &Directory<'_>) -> Option<Head>
    ensures { option_map (λ head. (head, words.new)) result
        ≡ head_from directory.now.sites directory.now.atoms words.old }
{
    let place = take_number(words)?;
    let session = take_number(words)?;
    let seq = take_number(words)?;
    let call = take_call(words, directory)?;
    Some(Head {
        place,
        session,
        seq,
        call,
    })
}

// Takes the number that the first word is.
#[tactic(auto, unfolding(crate::specs::Words::first_by))]
fn take_number(words: &mut Pieces<'_>) -> Option<u32>
    ensures { option_map (λ n. (n, words.new)) result ≡ number_from words.old }
{
    read_number(words.next()?)
}

// The number of 32 bits whose decimal form the text is.
fn read_number(text: &[u8]) -> Option<u32>
    ensures { result ≡ number_in text.now }
{
    let n = read_decimal(text)?;
    if n > u64::from(u32::MAX) {
        return None;
    }
    Some(n as u32)
}

// Takes an outcome of the call's kind.
fn take_outcome(call: &Call, words: &mut Pieces<'_>, directory: &Directory<'_>) -> Option<Outcome>
    ensures { option_map (λ outcome. (outcome, words.new)) result
        ≡ outcome_from directory.now.atoms call.now words.old }
{
    match call {
        Call::Exec(_, _) => take_exec_outcome(words, directory),
        Call::Look(_) => take_look_outcome(words, directory),
        Call::Enabled(_) => take_enabled_outcome(words, directory),
        Call::Accepting => take_verdict(words, directory),
    }
}

// Takes the outcome of an execution.
fn take_exec_outcome(words: &mut Pieces<'_>, directory: &Directory<'_>) -> Option<Outcome>
    ensures { option_map (λ outcome. (outcome, words.new)) result
        ≡ exec_outcome_from directory.now.atoms words.old }
{
    let word = words.next()?;
    take_exec_outcome_after(word, words, directory)
}

// Takes the rest of the outcome of an execution that begins with the word.
#[tactic(auto, unfolding(crate::specs::EntryLine::exec_outcome_after))]
fn take_exec_outcome_after(
    word: &[u8],
    words: &mut Pieces<'_>,
    directory: &Directory<'_>,
) -> Option<Outcome>
    ensures { option_map (λ outcome. (outcome, words.new)) result
        ≡ exec_outcome_after directory.now.atoms word.now words.old }
{
    if word == b"done".as_slice() {
        return Some(Outcome::Done);
    }
    if word == b"not-here".as_slice() {
        return Some(Outcome::NotHere);
    }
    if word == b"excluded".as_slice() {
        return Some(Outcome::Excluded);
    }
    if word == b"condition".as_slice() {
        return Some(Outcome::Condition(take_event(words, directory)?));
    }
    if word == b"milestone".as_slice() {
        return Some(Outcome::Milestone(take_event(words, directory)?));
    }
    if word == b"faulted".as_slice() {
        return Some(Outcome::Faulted);
    }
    None
}

// Takes the marks that a look is answered by.
fn take_look_outcome(words: &mut Pieces<'_>, directory: &Directory<'_>) -> Option<Outcome>
    ensures { option_map (λ outcome. (outcome, words.new)) result
        ≡ look_outcome_from directory.now.atoms words.old }
{
    let mark = take_mark(words, directory)?;
    Some(Outcome::Marks(mark))
}

// Takes the set that the question what is enabled is answered by.
fn take_enabled_outcome(words: &mut Pieces<'_>, directory: &Directory<'_>) -> Option<Outcome>
    ensures { option_map (λ outcome. (outcome, words.new)) result
        ≡ enabled_outcome_from directory.now.atoms words.old }
{
    let set = take_list(b"can", words, directory)?;
    Some(Outcome::Can(set))
}

// Takes the verdict.
fn take_verdict(words: &mut Pieces<'_>, directory: &Directory<'_>) -> Option<Outcome>
    ensures { option_map (λ outcome. (outcome, words.new)) result
        ≡ verdict_from directory.now.atoms words.old }
{
    let word = words.next()?;
    take_verdict_after(word, words, directory)
}

// Takes the rest of the verdict that begins with the word.
#[tactic(auto, unfolding(crate::specs::EntryLine::verdict_after))]
fn take_verdict_after(
    word: &[u8],
    words: &mut Pieces<'_>,
    directory: &Directory<'_>,
) -> Option<Outcome>
    ensures { option_map (λ outcome. (outcome, words.new)) result
        ≡ verdict_after directory.now.atoms word.now words.old }
{
    if word == b"yes".as_slice() {
        return Some(Outcome::AllDone);
    }
    if word == b"waits".as_slice() {
        return Some(Outcome::Waits(take_event(words, directory)?));
    }
    None
}
