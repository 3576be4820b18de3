ghost use Rattle.std.specs.Prelude.{◌≡◌, List, Bool};
ghost use Rattle.dcr_graph.specs.Rules.{Rules};
ghost use Rattle.dcr_graph.specs.declared.marking.Marking.{Marking as Marks};
ghost use Rattle.dcr_site.specs.Seen.{StandsAt};
ghost use Rattle.dcr_wire.specs.Laws.{sent_message, sent_question};
ghost use Rattle.dcr_answer.specs.Telling.{Sends, Tells};

use crate::AnswerEnd;
use dcr_base::{Sink, write_all};
use dcr_node::SiteNode;
use dcr_wire::{Message, Question, write_answer, write_message};

/// Hands the site a message that it is asked by, and sends its vote, where it votes. None where it was handed it and nothing is
/// left to be sent; else why the talk ends.
pub(crate) fn tell_message<O: Sink>(
    node: &mut SiteNode,
    message: &Message,
    sink: &mut O,
) -> Option<AnswerEnd>
    ensures id { node.new.id ≡ node.old.id }
    ensures projection { node.new.site.projection ≡ node.old.site.projection }
    ensures told { (G : Rules) (S : List Bool) (M : Marks) → StandsAt G S M node.old.site
        → Tells G S node.old node.new (sent_message message.now) (O.takes sink.old) (O.takes sink.new) result }
    ensures apart { O.source_side sink.new ≡ O.source_side sink.old }
{
    if !node.may_take(message) {
        return Some(AnswerEnd::NotOurs);
    }
    match node.step(message) {
        None => None,
        Some(vote) => send(sink, &write_message(&vote)),
    }
}

/// Sends what the site answers to a question, where it answers.
pub(crate) fn tell_question<O: Sink>(
    node: &SiteNode,
    question: &Question,
    sink: &mut O,
) -> Option<AnswerEnd>
    ensures told { (G : Rules) (S : List Bool) (M : Marks) → StandsAt G S M node.now.site
        → Tells G S node.now node.now (sent_question question.now) (O.takes sink.old) (O.takes sink.new) result }
    ensures apart { O.source_side sink.new ≡ O.source_side sink.old }
{
    match node.answer(question) {
        None => None,
        Some(answer) => send(sink, &write_answer(&answer)),
    }
}

/// Sends these bytes. None where all of them were taken.
pub(crate) fn send<O: Sink>(sink: &mut O, bytes: &[u8]) -> Option<AnswerEnd>
    ensures sent { Sends bytes.now (O.takes sink.old) (O.takes sink.new) result }
    ensures apart { O.source_side sink.new ≡ O.source_side sink.old }
{
    match write_all(sink, bytes) {
        Ok(()) => None,
        Err(_) => Some(AnswerEnd::LinkFault),
    }
}
