// Worked rows: the doctor and the nurse at sites apart, told by hand: all kinds of calls, a site that begins anew while it is
// asked, questions and answers that come too late, what is told at the end, and a call that is taken back.
use crate::build::{HOSPITAL, event_set, graph_of, hospital_cover};
use crate::same::same;
use crate::steps::Step::{
    self, Accepting, Anew, Answered, Ask, AskAgain, Deliver, Enabled, Exec, Item, Look, Question,
};
use crate::steps::{NOTHING, ToldRow, opened, take_all, told};
use dcr_journal::Call;
use dcr_node::{JournalNode, MOST_SESSIONS, World};
use dcr_proj::Network;
use dcr_set::{EventId, EventSet, SiteId};
use dcr_wire::{Answer, Asked, Told};
use std::process::Abort;
use std::test::Fail;

// A session, how many calls it had made before, its call, with the site and the event by number, and what it was told: a
// word, sets of atoms, and an atom.
type Line = (u32, u32, CallRow, ToldRow);

type CallRow = (&'static str, u16, u16);

// How many questions and answers were sent.
type Sent = (u64, u64);

const ROWS: [(&str, &[Step], &[Line], Sent); 9] = [
    (
        "all kinds of calls",
        &[
            Look(0, 0),
            Ask(0, Asked::Marks),
            Question(0),
            Answered(0),
            Enabled(1, 1),
            Ask(1, Asked::Can),
            Question(1),
            Answered(1),
            Exec(0, 0, 0),
            AskAgain,
            Deliver(0),
            Deliver(1),
            Item(0, 0),
            Deliver(2),
            Item(1, 0),
            Deliver(3),
            Enabled(1, 0),
            Ask(0, Asked::Can),
            Question(2),
            Answered(2),
            Look(1, 1),
            Ask(1, Asked::Marks),
            Question(3),
            Answered(3),
            Accepting(0),
            Ask(0, Asked::Waits),
            Ask(1, Asked::Waits),
            Question(4),
            Question(5),
            Answered(5),
            Answered(4),
        ],
        &[
            (0, 0, ("look", 0, 0), ("marks", [0, 0, 0b0011], None)),
            (1, 0, ("enabled", 1, 0), ("can", NOTHING, None)),
            (0, 1, ("exec", 0, 0), ("done", NOTHING, None)),
            (1, 1, ("enabled", 0, 0), ("can", [0b0011, 0, 0], None)),
            (1, 2, ("look", 1, 0), ("marks", [0, 0b0100, 0b1110], None)),
            (0, 2, ("accepting", 0, 0), ("waits", NOTHING, Some(1))),
        ],
        (6, 6),
    ),
    (
        "accepting where nobody waits, told by the nurse twice and then by the doctor",
        &[
            Accepting(0),
            Ask(1, Asked::Waits),
            Question(0),
            Answered(0),
            Answered(0),
            Ask(0, Asked::Waits),
            Question(1),
            Answered(1),
            Answered(1),
        ],
        &[(0, 0, ("accepting", 0, 0), ("all done", NOTHING, None))],
        (2, 2),
    ),
    (
        "accepting that the doctor alone has told, who then tells his marks",
        &[
            Accepting(0),
            Ask(0, Asked::Waits),
            Question(0),
            Answered(0),
            Ask(0, Asked::Marks),
            Question(1),
            Answered(1),
        ],
        &[],
        (2, 2),
    ),
    (
        "a look that the other site tells, and that is told something else",
        &[
            Look(0, 0),
            Ask(1, Asked::Marks),
            Question(0),
            Answered(0),
            Ask(0, Asked::Can),
            Question(1),
            Answered(1),
            Ask(0, Asked::Waits),
            Question(2),
            Answered(2),
        ],
        &[],
        (3, 3),
    ),
    (
        "a site that begins anew while it is asked, and hears its stream again",
        &[
            Exec(0, 0, 0),
            AskAgain,
            Deliver(0),
            Deliver(1),
            Item(1, 0),
            Deliver(2),
            Look(1, 1),
            Ask(1, Asked::Marks),
            Anew(1),
            Question(0),
            Deliver(2),
            Question(0),
            Answered(0),
        ],
        &[
            (0, 0, ("exec", 0, 0), ("done", NOTHING, None)),
            (1, 0, ("look", 1, 0), ("marks", [0, 0b0100, 0b1110], None)),
        ],
        (1, 1),
    ),
    (
        "a site that begins anew between its answer and the entry",
        &[
            Look(0, 0),
            Ask(0, Asked::Marks),
            Question(0),
            Anew(0),
            Answered(0),
        ],
        &[(0, 0, ("look", 0, 0), ("marks", [0, 0, 0b0011], None))],
        (1, 1),
    ),
    (
        "a question at a count that its site has not",
        &[
            Ask(0, Asked::Marks),
            Exec(0, 0, 0),
            AskAgain,
            Deliver(0),
            Deliver(1),
            Ask(0, Asked::Marks),
            Question(1),
            Item(0, 0),
            Deliver(2),
            Question(0),
        ],
        &[(0, 0, ("exec", 0, 0), ("done", NOTHING, None))],
        (2, 0),
    ),
    (
        "an answer from before an entry",
        &[
            Look(0, 0),
            Ask(0, Asked::Marks),
            Question(0),
            Question(0),
            Answered(0),
            Look(1, 0),
            Answered(0),
            Answered(1),
        ],
        &[(0, 0, ("look", 0, 0), ("marks", [0, 0, 0b0011], None))],
        (1, 2),
    ),
    (
        "an execution that is asked what it doesn't ask, a second call, and what isn't there",
        &[
            Exec(0, 0, 1),
            Ask(0, Asked::Marks),
            Question(0),
            Answered(0),
            Look(1, 0),
            Answered(0),
            Question(7),
            Answered(7),
            Deliver(7),
            AskAgain,
            Deliver(0),
            Deliver(1),
        ],
        &[(0, 0, ("exec", 0, 1), ("condition", NOTHING, Some(0)))],
        (1, 1),
    ),
];

// The call, with its site and its event by number.
fn asked(call: &Call) -> CallRow {
    match call {
        Call::Exec(site, event) => ("exec", site.0, event.0),
        Call::Look(site) => ("look", site.0, 0),
        Call::Enabled(site) => ("enabled", site.0, 0),
        Call::Accepting => ("accepting", 0, 0),
    }
}

// The world's entries are these lines, and so many questions and answers were sent.
fn tells(rt: &impl Abort, world: &World, lines: &[Line], sent: Sent, row: &str) {
    let journal = world.journal_node().journal();
    same(rt, &(journal.len() as usize), &lines.len(), row);
    for place in 0..journal.len() {
        if let Some(entry) = journal.get(place) {
            let found = (
                entry.session,
                entry.seq,
                asked(&entry.call),
                told(&entry.outcome),
            );
            same(rt, &Some(&found), &lines.get(place as usize), row);
        }
    }
    same(rt, &(world.questions(), world.answers()), &sent, row);
}

#[test]
fn calls_of_all_kinds_at_sites_apart(rt: HostRuntime) -> Result<(), Fail> {
    let graph = graph_of(rt.alloc(), &HOSPITAL)?;
    let cover = hospital_cover(rt.alloc(), &graph)?;
    for (row, steps, lines, sent) in &ROWS {
        let mut world = opened(rt.alloc(), &graph, &cover)?;
        take_all(rt.alloc(), &mut world, &graph, &cover, steps)?;
        tells(&rt, &world, lines, *sent, row);
    }
    Ok(())
}

// What the sites are asked for at the end, and what all of them wait for then, where all have told.
const ENDS: [(&str, &[Step], Option<Option<u16>>); 5] = [
    ("nobody was asked", &[], None),
    (
        "the doctor has told",
        &[Ask(0, Asked::Waits), Question(0), Answered(0)],
        None,
    ),
    (
        "nobody waits",
        &[
            Ask(0, Asked::Waits),
            Question(0),
            Answered(0),
            Ask(1, Asked::Waits),
            Question(1),
            Answered(1),
        ],
        Some(None),
    ),
    (
        "the nurse waits, and the doctor, who hasn't heard, is put off",
        &[
            Exec(0, 0, 0),
            AskAgain,
            Deliver(0),
            Deliver(1),
            Item(1, 0),
            Deliver(2),
            Ask(0, Asked::Waits),
            Ask(1, Asked::Waits),
            Question(0),
            Question(1),
            Answered(0),
            Item(0, 0),
            Deliver(3),
            Question(0),
            Answered(1),
        ],
        Some(Some(1)),
    ),
    (
        "a call was proposed since",
        &[
            Ask(0, Asked::Waits),
            Ask(1, Asked::Waits),
            Question(0),
            Question(1),
            Answered(0),
            Answered(1),
            Look(0, 0),
        ],
        None,
    ),
];

#[test]
fn what_all_wait_for_is_told_at_the_end(rt: HostRuntime) -> Result<(), Fail> {
    let graph = graph_of(rt.alloc(), &HOSPITAL)?;
    let cover = hospital_cover(rt.alloc(), &graph)?;
    for (row, steps, waits) in &ENDS {
        let mut world = opened(rt.alloc(), &graph, &cover)?;
        take_all(rt.alloc(), &mut world, &graph, &cover, steps)?;
        let found = world.journal_node().waits_told();
        same(&rt, &found.map(|event| event.map(|e| e.0)), waits, row);
    }
    Ok(())
}

// What a site tells of all that the journal may hear: of a site that there is not, sets that are over other atoms, and an
// event that is no atom.
fn heard(node: &JournalNode, site: u16, told: Told) -> bool {
    node.may_hear(&Answer {
        number: 0,
        site: SiteId(site),
        told,
    })
}

#[test]
fn a_call_is_taken_back(rt: HostRuntime) -> Result<(), Fail> {
    let alphabets = [event_set(&[0, 1, 3]), event_set(&[0, 1, 2, 3])];
    let network = Network::new(rt.alloc(), Vec::from_array(rt.alloc(), alphabets)?)?;
    let mut node = JournalNode::open(rt.alloc(), &network, network.sites(), MOST_SESSIONS, 1)?;
    assert!(rt; heard(&node, 1, Told::Can(event_set(&[]))) && !heard(&node, 2, Told::Waits(None)));
    assert!(rt; !heard(&node, 0, Told::Can(EventSet::new(3))));
    assert!(rt; !heard(&node, 0, Told::Waits(Some(EventId(4)))));
    // The last session's call, a second one while it is out, and one once it is taken back.
    let last = MOST_SESSIONS - 1;
    let first = node.propose_call(last, &Call::Accepting);
    let second = node.propose_call(last, &Call::Accepting);
    node.withdraw();
    let third = node.propose_call(last, &Call::Accepting);
    same(&rt, &[first, second, third], &[true, false, true], "taken");
    Ok(())
}
