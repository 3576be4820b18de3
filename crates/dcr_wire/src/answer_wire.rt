ghost use Rattle.std.specs.Prelude.{◌≡◌, ◌↔◌, List, [], length, take, IsTrue, MatchOption};
ghost use Rattle.dcr_wire.specs.declared.answer.Told.{Told};
ghost use Rattle.dcr_wire.specs.AnswerForm.{head_with, SpellParts, SpellAnswer, IsTold, IsAnswerReading};

use crate::head::{read_head, write_head};
use crate::set_bytes::{put_set, read_set};
use crate::{Answer, Told};
use dcr_graph::SiteMark;
use dcr_set::{EventId, EventSet, SiteId};

/// The bytes of an answer: its kind, 5, the site in two bytes, the number in four, what is told (0 the marks, 1 what may be
/// executed, 2 that nothing is waited for, 3 the event that is waited for), the event in two, and the room of each of
/// three sets in two, each with its higher bytes first; then the sets, in 128 bytes each: the executed, the pending and the
/// included events, or those that may be executed. What an answer doesn't use is 0.
pub fn write_answer(answer: &Answer) -> [u8; 400]
    ensures { SpellAnswer result answer.now }
{
    match &answer.told {
        Told::Marks(mark) => write_parts(
            answer.site.0,
            answer.number,
            0,
            0,
            &mark.executed,
            &mark.pending,
            &mark.included,
        ),
        Told::Can(events) => write_alone(answer.site.0, answer.number, 1, 0, events),
        Told::Waits(None) => write_alone(answer.site.0, answer.number, 2, 0, &no_set()),
        Told::Waits(Some(e)) => write_alone(answer.site.0, answer.number, 3, e.0, &no_set()),
    }
}

/// The answer whose bytes these are. None exactly where they are no answer's. Takes no memory.
pub fn read_answer(bytes: &[u8]) -> Option<Answer>
    ensures { IsAnswerReading bytes.now result }
{
    if bytes.len() != 400 {
        return None;
    }
    let head = read_head(&bytes[..16])?;
    if head.kind != 5 {
        return None;
    }
    let first = read_set(bytes, 16, head.first)?;
    let second = read_set(bytes, 144, head.second)?;
    let third = read_set(bytes, 272, head.third)?;
    let told = told_of(head.told, head.event, first, second, third)?;
    Some(Answer {
        number: head.number,
        site: SiteId(head.site),
        told,
    })
}

// The bytes of these numbers and these sets.
fn write_parts(
    site: u16,
    number: u32,
    told: u8,
    event: u16,
    first: &EventSet,
    second: &EventSet,
    third: &EventSet,
) -> [u8; 400]
    ensures { SpellParts result (head_with site number told event first.now second.now third.now) first.now second.now third.now }
{
    let head = write_head(
        site,
        number,
        told,
        event,
        first.room(),
        second.room(),
        third.room(),
    );
    let mut bytes = [0; 400];
    put_head(&mut bytes, &head);
    put_set(&mut bytes, 16, first);
    put_set(&mut bytes, 144, second);
    put_set(&mut bytes, 272, third);
    bytes
}

// The same where there is one set alone.
fn write_alone(site: u16, number: u32, told: u8, event: u16, first: &EventSet) -> [u8; 400]
    ensures { SpellParts result (head_with site number told event first.now [] []) first.now [] [] }
{
    let none = no_set();
    write_parts(site, number, told, event, first, &none, &none)
}

// A set that has no room.
fn no_set() -> EventSet
    ensures { result ≡ [] }
{
    EventSet::new(0)
}

// Whether a set has no room.
fn is_no_set(events: &EventSet) -> bool
    ensures { IsTrue result ↔ (events.now ≡ []) }
{
    events.room() == 0
}

// Writes the numbers of an answer to the first sixteen bytes.
fn put_head(bytes: &mut [u8; 400], head: &[u8; 16])
    ensures len { length bytes.new ≡ 400 }
    ensures head { take 16 bytes.new ≡ head.now }
{
    for place in 0..16 {
        bytes[place] = head[place];
    }
}

// What is told that has these parts. None exactly where nothing has.
fn told_of(
    number: u8,
    event: u16,
    first: EventSet,
    second: EventSet,
    third: EventSet,
) -> Option<Told>
    ensures { MatchOption result ((t : Told) → IsTold number event first second third t → ⊥) (IsTold number event first second third) }
{
    match number {
        0 if event == 0 => Some(Told::Marks(SiteMark {
            executed: first,
            pending: second,
            included: third,
        })),
        1 if event == 0 && is_no_set(&second) && is_no_set(&third) => Some(Told::Can(first)),
        2 if event == 0 && are_no_sets(&first, &second, &third) => Some(Told::Waits(None)),
        3 if are_no_sets(&first, &second, &third) => Some(Told::Waits(Some(EventId(event)))),
        _ => None,
    }
}

// Whether no set has room.
fn are_no_sets(first: &EventSet, second: &EventSet, third: &EventSet) -> bool
    ensures { IsTrue result ↔ ((first.now ≡ []) × (second.now ≡ []) × (third.now ≡ [])) }
{
    is_no_set(first) && is_no_set(second) && is_no_set(third)
}
