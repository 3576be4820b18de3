ghost use Rattle.std.specs.Prelude.{◌≡◌, ◌+◌, ◌-◌, ◌*◌, ◌<◌, ◌≤◌, ◌↔◌, [], length, IsTrue};
ghost use Rattle.dcr_wire.specs.Laws.{Sent, SpellSent};
ghost use Rattle.dcr_node.specs.JournalState.{stream_of};
ghost use Rattle.dcr_node.specs.Laws.{what_is_told};
ghost use Rattle.dcr_talk.specs.Frames.{SpellAll};
ghost use Rattle.dcr_seat.specs.InStep.{told_of};
ghost use Rattle.dcr_seat.specs.Asking.{Asks, IsAnswerTo, IsVote};

use crate::parcel::Parcel;
use dcr_base::Link;
use dcr_node::JournalNode;
use dcr_set::SiteId;
use dcr_talk::{hear_answer, hear_vote};
use dcr_wire::{Answer, Asked, Message, Question, Told, write_message, write_question};

// How many executions are told by one write at most, beside a question.
const MOST: u32 = 290;

/// The link over which a site is asked, which greeted as that site. A link that has failed, or has answered something else than
/// it was asked, is to be ended: nothing may be read of it any more.
#[derive(Drop)]
pub struct Seat<L> {
    /// The link, behind its greeting.
    pub link: L,
    /// The number of the link, as its porter counts them.
    pub number: u64,
    /// Of how many executions of its stream the site was told over this link.
    pub told: u32,
}

impl<L: Link> Seat<L> {
    ghost use Rattle.std.specs.Prelude.{◌≡◌, ◌+◌, ◌-◌, ◌<◌, ◌≤◌, false, length, min, IfSome, IfNone};
    ghost use Rattle.dcr_base.specs.Count.{Fails};
    ghost use Rattle.dcr_wire.specs.Laws.{sent_message, sent_question, sent_answer};
    ghost use Rattle.dcr_node.specs.JournalState.{stream_of};
    ghost use Rattle.dcr_talk.specs.Hearing.{Hears};
    ghost use Rattle.dcr_seat.specs.Asking.{Answered, Asks, Broken, IsAnswerTo, IsReadingTo, IsUnheard, IsVote, IsVoteReading, Tells};

    /// Tells the site all of its stream that it wasn't told, and asks it by a message. Whether all of that was written; else the
    /// link has failed. Takes no memory, and reads nothing.
    pub fn ask(&mut self, node: &JournalNode, site: SiteId, message: &Message) -> bool
        requires site { site < length node.now.alphabets }
        requires told { self.old.told ≤ length (stream_of node.now site) }
        ensures number { self.new.number ≡ self.old.number }
        ensures asked { Asks node.now site self.old.told self.new.told (sent_message message.now) (L.takes self.old.link) (L.takes self.new.link) result }
        ensures failed { result ≡ false → Fails (L.takes self.old.link).faults (L.takes self.new.link).faults }
        ensures apart { L.gives self.new.link ≡ L.gives self.old.link }
    {
        self.bring(node, site, &write_message(message))
    }

    /// The same by a question.
    pub fn question(&mut self, node: &JournalNode, site: SiteId, question: &Question) -> bool
        requires site { site < length node.now.alphabets }
        requires told { self.old.told ≤ length (stream_of node.now site) }
        ensures number { self.new.number ≡ self.old.number }
        ensures asked { Asks node.now site self.old.told self.new.told (sent_question question.now) (L.takes self.old.link) (L.takes self.new.link) result }
        ensures failed { result ≡ false → Fails (L.takes self.old.link).faults (L.takes self.new.link).faults }
        ensures apart { L.gives self.new.link ≡ L.gives self.old.link }
    {
        self.bring(node, site, &write_question(question))
    }

    /// Tells the site of some executions that it wasn't told of, by one write: of as many as a parcel has room for. Whether that
    /// was written; else the link has failed. Takes no memory, and reads nothing.
    pub fn send_some(&mut self, node: &JournalNode, site: SiteId) -> bool
        requires site { site < length node.now.alphabets }
        requires told { self.old.told ≤ length (stream_of node.now site) }
        ensures number { self.new.number ≡ self.old.number }
        ensures told { self.new.told ≡ self.old.told + min (length (stream_of node.now site) - self.old.told) 290 }
        ensures tells { Tells node.now site self.old.told self.new.told (L.takes self.old.link) (L.takes self.new.link) result }
        ensures failed { result ≡ false → Fails (L.takes self.old.link).faults (L.takes self.new.link).faults }
        ensures apart { L.gives self.new.link ≡ L.gives self.old.link }
    {
        let mut parcel = Parcel::new();
        let left = node.stream_len(site) - self.told;
        let to = self.told + left.min(MOST);
        lay(&mut parcel, node, site, self.told, to);
        self.told = to;
        parcel.send(&mut self.link)
    }

    /// The site's vote on the execution that is out, which is read. None exactly where no whole message came, or another one, or
    /// one that may not be handed to the journal. Takes no memory.
    pub fn vote(&mut self, node: &JournalNode, site: SiteId) -> Option<Message>
        ensures number { self.new.number ≡ self.old.number }
        ensures told { self.new.told ≡ self.old.told }
        ensures heard { Hears 14 (L.has_ended self.new.link) (L.gives self.old.link) (L.gives self.new.link) (IsVoteReading node.now site) result }
        ensures apart { L.takes self.new.link ≡ L.takes self.old.link }
    {
        let message = hear_vote(&mut self.link)?;
        if is_vote(node, site, &message) {
            Some(message)
        } else {
            None
        }
    }

    /// The site's answer to a question, which is read. None exactly where no whole answer came, or one to another question, or one
    /// that may not be handed to the journal. Takes no memory.
    pub fn answer(&mut self, node: &JournalNode, question: &Question) -> Option<Answer>
        ensures number { self.new.number ≡ self.old.number }
        ensures told { self.new.told ≡ self.old.told }
        ensures heard { Hears 400 (L.has_ended self.new.link) (L.gives self.old.link) (L.gives self.new.link) (IsReadingTo node.now question.now) result }
        ensures apart { L.takes self.new.link ≡ L.takes self.old.link }
    {
        let answer = hear_answer(&mut self.link)?;
        if is_answer(node, question, &answer) {
            Some(answer)
        } else {
            None
        }
    }

    /// Asks the site for its vote on the execution that is out, by this message, and reads the vote. None exactly where not all of
    /// that was written, or no such vote came. Takes no memory.
    pub fn voted(&mut self, node: &JournalNode, site: SiteId, message: &Message) -> Option<Message>
        requires site { site < length node.now.alphabets }
        requires told { self.old.told ≤ length (stream_of node.now site) }
        ensures vote { IfSome result (IsVote node.now site) }
        ensures answered { IfSome result (λ vote. Answered L.gives L.takes node.now site (sent_message message.now) (sent_message vote) self.old self.new) }
        ensures broken { IfNone result (Broken L.gives L.takes self.old self.new) }
        ensures unheard { IfNone result (IsUnheard node.now site self.old.told (sent_message message.now) (L.takes self.old.link) (L.takes self.new.link) (L.gives self.old.link) (L.gives self.new.link)
            14 (L.has_ended self.new.link) (IsVoteReading node.now site)) }
    {
        if self.ask(node, site, message) {
            self.vote(node, site)
        } else {
            None
        }
    }

    /// Asks the site by a question, and reads what it answers. None exactly where not all of that was written, or no such answer
    /// came. Takes no memory.
    pub fn answered(
        &mut self,
        node: &JournalNode,
        site: SiteId,
        question: &Question,
    ) -> Option<Answer>
        requires site { site < length node.now.alphabets }
        requires told { self.old.told ≤ length (stream_of node.now site) }
        ensures answer { IfSome result (IsAnswerTo node.now question.now) }
        ensures answered { IfSome result (λ answer. Answered L.gives L.takes node.now site (sent_question question.now) (sent_answer answer) self.old self.new) }
        ensures broken { IfNone result (Broken L.gives L.takes self.old self.new) }
        ensures unheard { IfNone result (IsUnheard node.now site self.old.told (sent_question question.now) (L.takes self.old.link) (L.takes self.new.link) (L.gives self.old.link) (L.gives self.new.link)
            400 (L.has_ended self.new.link) (IsReadingTo node.now question.now)) }
    {
        if self.question(node, site, question) {
            self.answer(node, question)
        } else {
            None
        }
    }

    // Tells the site all of its stream that it wasn't told, and then writes these bytes.
    fn bring(&mut self, node: &JournalNode, site: SiteId, last: &[u8]) -> bool
        requires site { site < length node.now.alphabets }
        requires told { self.old.told ≤ length (stream_of node.now site) }
        requires short { length last.now ≤ 14 }
        ensures number { self.new.number ≡ self.old.number }
        ensures asked { (one : Sent) → SpellSent last.now one
            → Asks node.now site self.old.told self.new.told one (L.takes self.old.link) (L.takes self.new.link) result }
        ensures failed { result ≡ false → Fails (L.takes self.old.link).faults (L.takes self.new.link).faults }
        ensures apart { L.gives self.new.link ≡ L.gives self.old.link }
    {
        while node.stream_len(site) - self.told > MOST {
            if !self.send_some(node, site) {
                return false;
            }
        }
        let mut parcel = Parcel::new();
        let to = node.stream_len(site);
        lay(&mut parcel, node, site, self.told, to);
        parcel.put(last);
        self.told = to;
        parcel.send(&mut self.link)
    }
}

// Whether the message is the site's vote on the execution that is out, and may be handed to the journal.
fn is_vote(node: &JournalNode, site: SiteId, message: &Message) -> bool
    ensures { IsTrue result ↔ IsVote node.now site message.now }
{
    match message {
        Message::Ask { .. } => false,
        Message::Vote {
            number,
            site: by,
            ..
        } => *number == node.journal().len() && *by == site && node.may_take(message),
        Message::Apply { .. } => false,
    }
}

// Whether the answer is one to the question, and may be handed to the journal.
fn is_answer(node: &JournalNode, question: &Question, answer: &Answer) -> bool
    ensures { IsTrue result ↔ IsAnswerTo node.now question.now answer.now }
{
    answer.number == question.number
        && answer.site == question.site
        && is_of_kind(question.asked, &answer.told)
        && node.may_hear(answer)
}

// Whether this is what was asked.
fn is_of_kind(asked: Asked, told: &Told) -> bool
    ensures { IsTrue result ↔ (what_is_told told.now ≡ asked) }
{
    match told {
        Told::Marks(_) => asked == Asked::Marks,
        Told::Can(_) => asked == Asked::Can,
        Told::Waits(_) => asked == Asked::Waits,
    }
}

// Lays the executions of a site's stream with these indices, from one on and below the other, into a parcel that is empty.
fn lay(parcel: &mut Parcel, node: &JournalNode, site: SiteId, from: u32, to: u32)
    requires site { site < length node.now.alphabets }
    requires order { from ≤ to }
    requires within { to ≤ length (stream_of node.now site) }
    requires few { to ≤ from + 290 }
    requires empty { parcel.old ≡ [] }
    ensures many { length parcel.new ≡ 14 * (to - from) }
    ensures laid { SpellAll parcel.new (told_of node.now site from (to - from)) }
{
    for index in from..to {
        let Some(message) = node.stream(site, index) else {
            unreachable!()
        };
        parcel.put(&write_message(&message));
    }
}
