// Worked rows: the twelve bytes of questions, the four hundred of answers, and bytes that are no question's and no answer's.
use crate::build::{event_set, members, sets_of};
use crate::same::{same, same_bytes};
use dcr_graph::SiteMark;
use dcr_set::{EventId, EventSet, SiteId};
use dcr_wire::{
    Answer, Asked, Question, Told, length_of_kind, read_answer, read_message, read_question,
    write_answer, write_question,
};
use std::process::Abort;

fn question(number: u32, site: u16, asked: Asked, count: u32) -> Question {
    Question {
        number,
        site: SiteId(site),
        asked,
        count,
    }
}

// What can be asked, bytes that are all different, and each number at its largest.
#[test]
fn a_question_is_twelve_bytes(rt: HostRuntime) {
    let table = [
        (
            question(3, 1, Asked::Marks, 2),
            [4, 0, 1, 0, 0, 0, 3, 0, 0, 0, 0, 2],
        ),
        (
            question(3, 1, Asked::Can, 2),
            [4, 0, 1, 0, 0, 0, 3, 1, 0, 0, 0, 2],
        ),
        (
            question(0x05060708, 0x0304, Asked::Waits, 0x090A0B0C),
            [4, 3, 4, 5, 6, 7, 8, 2, 9, 10, 11, 12],
        ),
        (
            question(4294967295, 0, Asked::Marks, 0),
            [4, 0, 0, 255, 255, 255, 255, 0, 0, 0, 0, 0],
        ),
        (
            question(0, 65535, Asked::Marks, 0),
            [4, 255, 255, 0, 0, 0, 0, 0, 0, 0, 0, 0],
        ),
        (
            question(0, 0, Asked::Marks, 4294967295),
            [4, 0, 0, 0, 0, 0, 0, 0, 255, 255, 255, 255],
        ),
    ];
    for (question, bytes) in &table {
        same_bytes(&rt, &write_question(question), bytes, "written");
        same(&rt, &read_question(bytes).as_ref(), &Some(question), "read");
    }
}

// Too few bytes and too many; kinds that there are not, and those of messages and of answers; and what can't be asked.
const NO_QUESTIONS: [&[u8]; 11] = [
    &[],
    &[4, 0, 1, 0, 0, 0, 3, 0, 0, 0, 0],
    &[4, 0, 1, 0, 0, 0, 3, 0, 0, 0, 0, 2, 0],
    &[4, 0, 1, 0, 0, 0, 3, 0, 0, 0, 0, 2, 0, 0],
    &[0, 0, 1, 0, 0, 0, 3, 0, 0, 0, 0, 2],
    &[1, 0, 1, 0, 0, 0, 3, 0, 0, 0, 0, 2],
    &[3, 0, 1, 0, 0, 0, 3, 0, 0, 0, 0, 2],
    &[5, 0, 1, 0, 0, 0, 3, 0, 0, 0, 0, 2],
    &[255, 0, 1, 0, 0, 0, 3, 0, 0, 0, 0, 2],
    &[4, 0, 1, 0, 0, 0, 3, 3, 0, 0, 0, 2],
    &[4, 0, 1, 0, 0, 0, 3, 255, 0, 0, 0, 2],
];

#[test]
fn other_bytes_are_no_question(rt: HostRuntime) {
    for bytes in NO_QUESTIONS {
        same(&rt, &read_question(bytes), &None, "no question");
    }
}

// So many bytes there are by the first of them.
#[test]
fn the_first_byte_tells_how_many_there_are(rt: HostRuntime) {
    let table = [
        (0, None),
        (1, Some(14)),
        (2, Some(14)),
        (3, Some(14)),
        (4, Some(12)),
        (5, Some(400)),
        (6, None),
        (255, None),
    ];
    for (kind, length) in &table {
        same(&rt, &length_of_kind(*kind), length, "a kind");
    }
}

fn answer(number: u32, site: u16, told: Told) -> Answer {
    Answer {
        number,
        site: SiteId(site),
        told,
    }
}

// Four hundred bytes: these sixteen, and of the others those that aren't 0, by their places.
fn bytes_of(head: &[u8; 16], set: &[(usize, u8)]) -> [u8; 400] {
    let mut bytes = [0; 400];
    for place in 0..16 {
        bytes[place] = head[place];
    }
    for (place, value) in set {
        if *place < 400 {
            bytes[*place] = *value;
        }
    }
    bytes
}

// The marks at which pm and gm are executed, s is pending, and all four are included.
fn marks() -> Told {
    Told::Marks(SiteMark {
        executed: event_set(&[0, 2]),
        pending: event_set(&[1]),
        included: event_set(&[0, 1, 2, 3]),
    })
}

// The largest set, with its first and its last event and one between.
fn largest() -> EventSet {
    let mut set = EventSet::new(1024);
    set.insert(EventId(0));
    set.insert(EventId(9));
    set.insert(EventId(1023));
    set
}

const MARKS: [u8; 16] = [5, 0, 1, 0, 0, 0, 3, 0, 0, 0, 0, 4, 0, 4, 0, 4];

const MARKED: [(usize, u8); 3] = [(16, 0b0101), (144, 0b0010), (272, 0b1111)];

const CAN: [u8; 16] = [5, 0, 1, 0, 0, 0, 3, 1, 0, 0, 0, 4, 0, 0, 0, 0];

const NONE_WAITS: [u8; 16] = [5, 0, 1, 0, 0, 0, 3, 2, 0, 0, 0, 0, 0, 0, 0, 0];

const WAITS: [u8; 16] = [5, 3, 4, 5, 6, 7, 8, 3, 9, 10, 0, 0, 0, 0, 0, 0];

// Each kind, bytes that are all different, each number at its largest, and sets without room and with the most.
#[test]
fn an_answer_is_four_hundred_bytes(rt: HostRuntime) {
    let waits = Told::Waits(Some(EventId(0x090A)));
    let last = Told::Waits(Some(EventId(65535)));
    let most = SiteMark {
        executed: EventSet::new(0),
        pending: largest(),
        included: EventSet::new(1),
    };
    let table = [
        (answer(3, 1, marks()), MARKS, MARKED.as_slice()),
        (
            answer(3, 1, Told::Can(event_set(&[2, 3]))),
            CAN,
            &[(16, 0b1100)],
        ),
        (answer(3, 1, Told::Waits(None)), NONE_WAITS, &[]),
        (answer(0x05060708, 0x0304, waits), WAITS, &[]),
        (
            answer(4294967295, 65535, last),
            [
                5, 255, 255, 255, 255, 255, 255, 3, 255, 255, 0, 0, 0, 0, 0, 0,
            ],
            &[],
        ),
        (
            answer(0, 0, Told::Can(largest())),
            [5, 0, 0, 0, 0, 0, 0, 1, 0, 0, 4, 0, 0, 0, 0, 0],
            &[(16, 1), (17, 2), (143, 128)],
        ),
        (
            answer(0, 0, Told::Marks(most)),
            [5, 0, 0, 0, 0, 0, 0, 0, 0, 0, 0, 0, 4, 0, 0, 1],
            &[(144, 1), (145, 2), (271, 128)],
        ),
        (
            answer(0, 0, Told::Can(EventSet::new(0))),
            [5, 0, 0, 0, 0, 0, 0, 1, 0, 0, 0, 0, 0, 0, 0, 0],
            &[],
        ),
    ];
    for (answer, head, set) in &table {
        let bytes = bytes_of(head, set);
        same_bytes(&rt, &write_answer(answer), &bytes, "written");
        same(
            &rt,
            &rewritten(&bytes).as_ref(),
            &Some(&bytes),
            "read, and written again",
        );
    }
}

// The bytes as which what was read is written.
fn rewritten(bytes: &[u8]) -> Option<[u8; 400]> {
    Some(write_answer(&read_answer(bytes)?))
}

// What is told, by its number: of marks the three sets of four events, of a set itself, and an event with its number.
fn told(told: &Told) -> (u8, [u8; 3], Option<EventId>) {
    match told {
        Told::Marks(mark) => (0, sets_of(mark), None),
        Told::Can(events) => (1, [members(events), 0, 0], None),
        Told::Waits(event) => (2, [0; 3], *event),
    }
}

#[test]
fn an_answer_is_read(rt: HostRuntime) {
    let table = [
        (
            MARKS,
            MARKED.as_slice(),
            (0, [0b0101, 0b0010, 0b1111], None),
        ),
        (CAN, &[(16, 0b1100)], (1, [0b1100, 0, 0], None)),
        (NONE_WAITS, &[], (2, [0; 3], None)),
        (WAITS, &[], (2, [0; 3], Some(EventId(0x090A)))),
    ];
    for (head, set, what) in &table {
        let read = read_answer(&bytes_of(head, set));
        same(
            &rt,
            &read.map(|answer| told(&answer.told)).as_ref(),
            &Some(what),
            "read",
        );
    }
    if let Some(read) = read_answer(&bytes_of(&WAITS, &[])) {
        same(
            &rt,
            &(read.number, read.site),
            &(0x05060708, SiteId(0x0304)),
            "numbers",
        );
    }
}

// A row's name, the sixteen bytes, and those of the others that aren't 0.
type Row = (&'static str, [u8; 16], &'static [(usize, u8)]);

const NO_ANSWERS: [Row; 25] = [
    (
        "no kind",
        [0, 0, 1, 0, 0, 0, 3, 2, 0, 0, 0, 0, 0, 0, 0, 0],
        &[],
    ),
    (
        "a question's kind",
        [4, 0, 1, 0, 0, 0, 3, 2, 0, 0, 0, 0, 0, 0, 0, 0],
        &[],
    ),
    (
        "a kind there is not",
        [6, 0, 1, 0, 0, 0, 3, 2, 0, 0, 0, 0, 0, 0, 0, 0],
        &[],
    ),
    (
        "the last kind there is not",
        [255, 0, 1, 0, 0, 0, 3, 2, 0, 0, 0, 0, 0, 0, 0, 0],
        &[],
    ),
    (
        "nothing that is told",
        [5, 0, 1, 0, 0, 0, 3, 4, 0, 0, 0, 0, 0, 0, 0, 0],
        &[],
    ),
    (
        "the last that is not told",
        [5, 0, 1, 0, 0, 0, 3, 255, 0, 0, 0, 0, 0, 0, 0, 0],
        &[],
    ),
    (
        "marks with an event",
        [5, 0, 1, 0, 0, 0, 3, 0, 0, 1, 0, 4, 0, 4, 0, 4],
        &MARKED,
    ),
    (
        "a set with an event",
        [5, 0, 1, 0, 0, 0, 3, 1, 1, 0, 0, 4, 0, 0, 0, 0],
        &[],
    ),
    (
        "a set with a second",
        [5, 0, 1, 0, 0, 0, 3, 1, 0, 0, 0, 4, 0, 4, 0, 0],
        &[],
    ),
    (
        "a set with a third",
        [5, 0, 1, 0, 0, 0, 3, 1, 0, 0, 0, 4, 0, 0, 0, 4],
        &[],
    ),
    (
        "none waits, with an event",
        [5, 0, 1, 0, 0, 0, 3, 2, 0, 1, 0, 0, 0, 0, 0, 0],
        &[],
    ),
    (
        "none waits, with a set",
        [5, 0, 1, 0, 0, 0, 3, 2, 0, 0, 0, 1, 0, 0, 0, 0],
        &[],
    ),
    (
        "an event with a set",
        [5, 0, 1, 0, 0, 0, 3, 3, 0, 1, 0, 1, 0, 0, 0, 0],
        &[],
    ),
    (
        "an event with a second set",
        [5, 0, 1, 0, 0, 0, 3, 3, 0, 1, 0, 0, 0, 1, 0, 0],
        &[],
    ),
    (
        "an event with a third set",
        [5, 0, 1, 0, 0, 0, 3, 3, 0, 1, 0, 0, 0, 0, 0, 1],
        &[],
    ),
    (
        "a set that is too large",
        [5, 0, 1, 0, 0, 0, 3, 1, 0, 0, 4, 1, 0, 0, 0, 0],
        &[],
    ),
    (
        "the largest number of atoms",
        [5, 0, 1, 0, 0, 0, 3, 1, 0, 0, 255, 255, 0, 0, 0, 0],
        &[],
    ),
    (
        "a second that is too large",
        [5, 0, 1, 0, 0, 0, 3, 0, 0, 0, 0, 4, 4, 1, 0, 4],
        &[],
    ),
    (
        "a third that is too large",
        [5, 0, 1, 0, 0, 0, 3, 0, 0, 0, 0, 4, 0, 4, 4, 1],
        &[],
    ),
    ("an event from the room on", CAN, &[(16, 0b11100)]),
    (
        "the last event from the room on",
        CAN,
        &[(16, 0b1100), (143, 128)],
    ),
    (
        "one in the second set",
        MARKS,
        &[(16, 0b0101), (144, 0b10010), (272, 0b1111)],
    ),
    (
        "one in the third set",
        MARKS,
        &[(16, 0b0101), (144, 0b0010), (272, 0b1111), (273, 1)],
    ),
    ("one where no set is", NONE_WAITS, &[(16, 1)]),
    (
        "one where no third set is",
        CAN,
        &[(16, 0b1100), (399, 128)],
    ),
];

#[test]
fn other_bytes_are_no_answer(rt: HostRuntime) {
    for (row, head, set) in &NO_ANSWERS {
        same(&rt, &rewritten(&bytes_of(head, set)), &None, row);
    }
    let whole = bytes_of(&NONE_WAITS, &[]);
    let mut longer = [0; 401];
    for place in 0..400 {
        longer[place] = whole[place];
    }
    for bytes in [longer.as_slice(), &whole[..399], &whole[..16], &[]] {
        same(&rt, &rewritten(bytes), &None, "another length");
    }
    // A message is none of both, and they are no message.
    same(&rt, &read_message(&whole), &None, "an answer");
    same(
        &rt,
        &read_message(&whole[..14]),
        &None,
        "its first fourteen bytes",
    );
}
