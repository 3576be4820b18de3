// Worked rows: the fourteen bytes of messages, and bytes that are no message's.
use crate::same::{same, same_bytes};
use dcr_graph::Cause;
use dcr_set::{EventId, SiteId};
use dcr_site::Decision;
use dcr_wire::{Message, Packet, read_message, write_message};
use std::process::Abort;

fn ask(number: u32, site: u16, event: u16, count: u32) -> Message {
    Message::Ask {
        number,
        site: SiteId(site),
        event: EventId(event),
        count,
    }
}

fn vote(number: u32, site: u16, decision: Decision) -> Message {
    Message::Vote {
        number,
        site: SiteId(site),
        decision,
    }
}

fn apply(site: u16, index: u32, event: u16) -> Message {
    Message::Apply {
        site: SiteId(site),
        index,
        event: EventId(event),
    }
}

fn condition(event: u16) -> Decision {
    Decision::Blocked(Cause::Condition(EventId(event)))
}

fn milestone(event: u16) -> Decision {
    Decision::Blocked(Cause::Milestone(EventId(event)))
}

// Each kind and each decision, bytes that are all different, and each field at its largest.
#[test]
fn a_message_is_fourteen_bytes(rt: HostRuntime) {
    let excluded = Decision::Blocked(Cause::Excluded);
    let table = [
        (ask(3, 1, 2, 1), [1, 0, 1, 0, 0, 0, 3, 0, 2, 0, 0, 0, 1, 0]),
        (
            ask(0x01020304, 0x0506, 0x0708, 0x090A0B0C),
            [1, 5, 6, 1, 2, 3, 4, 7, 8, 9, 10, 11, 12, 0],
        ),
        (
            ask(4294967295, 0, 0, 0),
            [1, 0, 0, 255, 255, 255, 255, 0, 0, 0, 0, 0, 0, 0],
        ),
        (
            ask(0, 65535, 0, 0),
            [1, 255, 255, 0, 0, 0, 0, 0, 0, 0, 0, 0, 0, 0],
        ),
        (
            ask(0, 0, 65535, 0),
            [1, 0, 0, 0, 0, 0, 0, 255, 255, 0, 0, 0, 0, 0],
        ),
        (
            ask(0, 0, 0, 4294967295),
            [1, 0, 0, 0, 0, 0, 0, 0, 0, 255, 255, 255, 255, 0],
        ),
        (
            vote(3, 1, Decision::Enabled),
            [2, 0, 1, 0, 0, 0, 3, 0, 0, 0, 0, 0, 0, 0],
        ),
        (
            vote(3, 1, Decision::NotHere),
            [2, 0, 1, 0, 0, 0, 3, 0, 0, 0, 0, 0, 0, 1],
        ),
        (
            vote(3, 1, excluded),
            [2, 0, 1, 0, 0, 0, 3, 0, 0, 0, 0, 0, 0, 2],
        ),
        (
            vote(3, 1, condition(2)),
            [2, 0, 1, 0, 0, 0, 3, 0, 2, 0, 0, 0, 0, 3],
        ),
        (
            vote(3, 1, milestone(0)),
            [2, 0, 1, 0, 0, 0, 3, 0, 0, 0, 0, 0, 0, 4],
        ),
        (
            vote(0x01020304, 0x0506, milestone(0x0708)),
            [2, 5, 6, 1, 2, 3, 4, 7, 8, 0, 0, 0, 0, 4],
        ),
        (
            vote(4294967295, 65535, condition(65535)),
            [2, 255, 255, 255, 255, 255, 255, 255, 255, 0, 0, 0, 0, 3],
        ),
        (apply(1, 7, 2), [3, 0, 1, 0, 0, 0, 7, 0, 2, 0, 0, 0, 0, 0]),
        (
            apply(0x0506, 0x01020304, 0x0708),
            [3, 5, 6, 1, 2, 3, 4, 7, 8, 0, 0, 0, 0, 0],
        ),
        (
            apply(65535, 4294967295, 65535),
            [3, 255, 255, 255, 255, 255, 255, 255, 255, 0, 0, 0, 0, 0],
        ),
    ];
    for (message, bytes) in &table {
        spells(&rt, message, bytes);
    }
}

// The message is written as these bytes and read from them, and a packet keeps it.
fn spells(rt: &impl Abort, message: &Message, bytes: &[u8; 14]) {
    same_bytes(rt, &write_message(message), bytes, "written");
    same(rt, &read_message(bytes).as_ref(), &Some(message), "read");
    same(rt, &Packet::of(message).message(), message, "kept");
}

// Too few bytes and too many; no kind, and kinds that there are not; a question with a decision; a vote with a count, with
// a decision that there is not, and with an event where its decision has none; an execution with a count and with a
// decision.
const NO_MESSAGES: [&[u8]; 15] = [
    &[],
    &[1, 0, 1, 0, 0, 0, 3, 0, 2, 0, 0, 0, 1],
    &[1, 0, 1, 0, 0, 0, 3, 0, 2, 0, 0, 0, 1, 0, 0],
    &[0, 0, 1, 0, 0, 0, 3, 0, 2, 0, 0, 0, 1, 0],
    &[4, 0, 1, 0, 0, 0, 3, 0, 2, 0, 0, 0, 1, 0],
    &[255, 0, 1, 0, 0, 0, 3, 0, 2, 0, 0, 0, 1, 0],
    &[1, 0, 1, 0, 0, 0, 3, 0, 2, 0, 0, 0, 1, 1],
    &[2, 0, 1, 0, 0, 0, 3, 0, 0, 0, 0, 0, 1, 0],
    &[2, 0, 1, 0, 0, 0, 3, 0, 0, 0, 0, 0, 0, 5],
    &[2, 0, 1, 0, 0, 0, 3, 0, 2, 0, 0, 0, 0, 0],
    &[2, 0, 1, 0, 0, 0, 3, 0, 2, 0, 0, 0, 0, 1],
    &[2, 0, 1, 0, 0, 0, 3, 0, 2, 0, 0, 0, 0, 2],
    &[2, 0, 1, 0, 0, 0, 3, 0, 2, 0, 0, 0, 0, 255],
    &[3, 0, 1, 0, 0, 0, 7, 0, 2, 1, 0, 0, 0, 0],
    &[3, 0, 1, 0, 0, 0, 7, 0, 2, 0, 0, 0, 0, 1],
];

#[test]
fn other_bytes_are_no_message(rt: HostRuntime) {
    for bytes in NO_MESSAGES {
        same(&rt, &read_message(bytes), &None, "no message");
    }
}
