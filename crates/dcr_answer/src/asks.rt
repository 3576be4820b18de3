ghost use Rattle.std.specs.Prelude.{◌≡◌, List, Bool};
ghost use Rattle.dcr_graph.specs.Rules.{Rules};
ghost use Rattle.dcr_graph.specs.declared.marking.Marking.{Marking as Marks};
ghost use Rattle.dcr_site.specs.Seen.{StandsAt};
ghost use Rattle.dcr_answer.specs.Answering.{Talks, AnswersNext};

use crate::AnswerEnd;
use crate::next::{Next, read_next};
use crate::telling::{tell_message, tell_question};
use dcr_base::Link;
use dcr_node::SiteNode;

/// Reads what a site is asked over the link and answers it, one after the other, until the link ends or fails, or something
/// comes that the site may not be asked, which ends the talk with nothing answered to it. Nothing is written but what is asked
/// for, in the order in which it was asked. Takes no memory. The node is let go at the end: another link begins with another one.
pub fn answer_asks<L: Link>(node: SiteNode, link: &mut L) -> AnswerEnd
    ensures { (G : Rules) (S : List Bool) (M : Marks) → StandsAt G S M node.site
        → Talks G S node (L.has_ended link.new) (L.gives link.old) (L.gives link.new) (L.takes link.old) (L.takes link.new) result }
{
    let mut node = node;
    for _count in 0..u64::MAX {
        match answer_next(&mut node, link) {
            None => {}
            Some(end) => return end,
        }
    }
    AnswerEnd::Full
}

// Reads and answers the next message or question. None where that is done.
fn answer_next<L: Link>(node: &mut SiteNode, link: &mut L) -> Option<AnswerEnd>
    ensures id { node.new.id ≡ node.old.id }
    ensures projection { node.new.site.projection ≡ node.old.site.projection }
    ensures answered { (G : Rules) (S : List Bool) (M : Marks) → StandsAt G S M node.old.site
        → AnswersNext G S node.old node.new (L.has_ended link.new) (L.gives link.old) (L.gives link.new) (L.takes link.old) (L.takes link.new) result }
{
    match read_next(link) {
        Err(end) => Some(end),
        Ok(Next::Message(message)) => tell_message(node, &message, link),
        Ok(Next::Question(question)) => tell_question(node, &question, link),
    }
}
