ghost use Rattle.std.specs.Prelude.{◌≡◌, MatchOption};
ghost use Rattle.dcr_site.specs.declared.site.Decision.{Decision};
ghost use Rattle.dcr_wire.specs.declared.message.Message.{Message};
ghost use Rattle.dcr_wire.specs.Form.{fields_of, decision_number, decision_event, Spell, IsReading};
ghost use Rattle.dcr_wire.specs.Laws.{length_told};

use crate::Message;
use crate::fields::{Fields, read_fields, write_fields};
use dcr_graph::Cause;
use dcr_set::{EventId, SiteId};
use dcr_site::Decision;

/// The bytes of a message: its kind (1 ask, 2 vote, 3 apply), the site in two bytes, the number or the index in four, the
/// event in two (a vote's is its cause's), the count in four, and the decision (0 enabled, 1 not here, 2 excluded,
/// 3 condition, 4 milestone), each with its higher bytes first. What a message doesn't use is 0.
pub fn write_message(message: &Message) -> [u8; 14]
    ensures { Spell result message.now }
{
    match message {
        Message::Ask {
            number,
            site,
            event,
            count,
        } => write_fields(1, site.0, *number, event.0, *count, 0),
        Message::Vote {
            number,
            site,
            decision,
        } => write_vote(*number, site.0, decision),
        Message::Apply { site, index, event } => write_fields(3, site.0, *index, event.0, 0, 0),
    }
}

/// The message whose bytes these are. None exactly where they are no message's. Takes no memory.
pub fn read_message(bytes: &[u8]) -> Option<Message>
    ensures { IsReading bytes.now result }
{
    let fields = read_fields(bytes)?;
    read_kind(&fields)
}

/// How many bytes there are in all where the first, the kind, is this: 14 of a message, 12 of a question, 400 of an answer.
/// None exactly where nothing begins with it.
pub fn length_of_kind(kind: u8) -> Option<usize>
    ensures { result ≡ length_told kind }
{
    match kind {
        1 => Some(14),
        2 => Some(14),
        3 => Some(14),
        4 => Some(12),
        5 => Some(400),
        _ => None,
    }
}

// The bytes of a vote.
fn write_vote(number: u32, site: u16, decision: &Decision) -> [u8; 14]
    ensures { Spell result (Message.Vote number site decision.now) }
{
    match decision {
        Decision::Enabled => write_fields(2, site, number, 0, 0, 0),
        Decision::NotHere => write_fields(2, site, number, 0, 0, 1),
        Decision::Blocked(Cause::Excluded) => write_fields(2, site, number, 0, 0, 2),
        Decision::Blocked(Cause::Condition(c)) => write_fields(2, site, number, c.0, 0, 3),
        Decision::Blocked(Cause::Milestone(m)) => write_fields(2, site, number, m.0, 0, 4),
    }
}

// The message that has these fields. None exactly where no message has.
fn read_kind(fields: &Fields) -> Option<Message>
    ensures { MatchOption result ((m : Message) → fields_of m ≡ fields.now → ⊥) (λ m. fields_of m ≡ fields.now) }
{
    match fields.kind {
        1 if fields.decision == 0 => Some(Message::Ask {
            number: fields.number,
            site: SiteId(fields.site),
            event: EventId(fields.event),
            count: fields.count,
        }),
        2 if fields.count == 0 => read_vote(fields),
        3 if fields.count == 0 && fields.decision == 0 => Some(Message::Apply {
            site: SiteId(fields.site),
            index: fields.number,
            event: EventId(fields.event),
        }),
        _ => None,
    }
}

// The vote of these fields, whose decision has this number and this event.
fn read_vote(fields: &Fields) -> Option<Message>
    requires kind { fields.now.kind ≡ 2 }
    requires count { fields.now.count ≡ 0 }
    ensures { MatchOption result ((m : Message) → fields_of m ≡ fields.now → ⊥) (λ m. fields_of m ≡ fields.now) }
{
    let decision = read_decision(fields.decision, fields.event)?;
    Some(Message::Vote {
        number: fields.number,
        site: SiteId(fields.site),
        decision,
    })
}

// The decision with this number and this event. None exactly where there is none.
fn read_decision(number: u8, event: u16) -> Option<Decision>
    ensures { MatchOption result
        ((d : Decision) → decision_number d ≡ number → decision_event d ≡ event → ⊥)
        (λ d. (decision_number d ≡ number) × (decision_event d ≡ event)) }
{
    match number {
        0 if event == 0 => Some(Decision::Enabled),
        1 if event == 0 => Some(Decision::NotHere),
        2 if event == 0 => Some(Decision::Blocked(Cause::Excluded)),
        3 => Some(Decision::Blocked(Cause::Condition(EventId(event)))),
        4 => Some(Decision::Blocked(Cause::Milestone(EventId(event)))),
        _ => None,
    }
}
