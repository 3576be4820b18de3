// Drawn steps of all kinds at the doctor's and the nurse's sites, beside the engine of the whole graph.
ghost use Rattle.std.specs.Prelude.{◌≡◌, ◌<◌, length};
ghost use Rattle.dcr_graph.specs.GraphValue.{rules_of};
ghost use Rattle.dcr_node.specs.Right.{IsRight};

use crate::build::{HOSPITAL, graph_of, hospital_cover, members, opening};
use crate::same::same;
use crate::steps::Step::{
    self, Accepting, Anew, Answered, Ask, AskAgain, Deliver, Enabled, Exec, Item, Look, Question,
};
use crate::steps::{NOTHING, ToldRow, opened, take, told};
use dcr_graph::{Cause, Graph, Marking};
use dcr_journal::Call;
use dcr_mark::Plain;
use dcr_node::World;
use dcr_proj::Cover;
use dcr_set::{EventId, SiteId};
use dcr_wire::Asked;
use std::alloc::Global;
use std::process::Abort;
use std::test::Fail;

// The next of numbers that look random, below so many choices; 0 where there is none.
fn draw(state: &mut u64, choices: u64) -> u64
    ensures { 0 < choices → result < choices }
{
    *state = state
        .wrapping_mul(6364136223846793005)
        .wrapping_add(1442695040888963407);
    if choices == 0 {
        return 0;
    }
    (*state >> 33) % choices
}

// One of the last two of so many, and now and then any.
fn late(state: &mut u64, many: u64) -> u64 {
    if draw(state, 8) == 0 {
        return draw(state, many);
    }
    many.saturating_sub(1 + draw(state, 2))
}

// A step that is drawn, of all kinds.
fn drawn(world: &World, state: &mut u64) -> Step {
    let site = draw(state, 2) as u16;
    let session = draw(state, 2) as u32;
    match draw(state, 16) {
        0 => Exec(session, site, draw(state, 4) as u16),
        1 => Look(session, site),
        2 => Enabled(session, site),
        3 => Accepting(session),
        4 => AskAgain,
        5 | 6 => next_item(world, state, site),
        7 | 8 => Deliver(late(state, world.sent())),
        9 => Ask(site, Asked::Marks),
        10 => Ask(site, Asked::Can),
        11 => Ask(site, Asked::Waits),
        12 | 13 => Question(late(state, world.questions())),
        _ => Answered(late(state, world.answers())),
    }
}

// The item of a site's stream that the site is to hear of next, now and then any; or rarely a site that begins anew.
fn next_item(world: &World, state: &mut u64, site: u16) -> Step {
    if draw(state, 64) == 0 {
        return Anew(site);
    }
    if draw(state, 8) == 0 || site >= world.sites() {
        return Item(site, draw(state, 8) as u32);
    }
    Item(site, world.site_node(SiteId(site)).count())
}

// So many drawn steps are taken.
fn take_drawn(
    alloc: Global,
    world: &mut World,
    graph: &Graph,
    cover: &Cover,
    state: &mut u64,
) -> Result<(), Fail>
    requires right { IsRight (rules_of graph.now) cover.now.owned world.old.opening world.old }
    requires sessions { world.old.journal.sessions ≡ 2 }
{
    for _ in 0..5000u32 {
        let step = drawn(world, state);
        take(alloc, world, graph, cover, step)?;
    }
    Ok(())
}

// What the engine of the whole graph answers to a call: the same words, with what each site tracks by hand.
fn answered(plain: &mut Plain, call: &Call) -> ToldRow
    requires { length plain.old.graph.names ≡ 4 }
    ensures { plain.new.graph ≡ plain.old.graph }
{
    match call {
        Call::Exec(site, event) => executed(plain, site.0, event.0),
        Call::Look(site) => ("marks", tracked(plain.marking(), site.0), None),
        Call::Enabled(site) => ("can", [enabled(plain, site.0), 0, 0], None),
        Call::Accepting => match plain.waits() {
            None => ("all done", NOTHING, None),
            Some(e) => ("waits", NOTHING, Some(e.0)),
        },
    }
}

// The doctor owns the first two atoms, and the nurse the others.
fn owns(site: u16, event: u16) -> bool {
    event / 2 == site
}

// An execution, as the engine answers it.
fn executed(plain: &mut Plain, site: u16, event: u16) -> ToldRow
    requires { length plain.old.graph.names ≡ 4 }
    ensures { plain.new.graph ≡ plain.old.graph }
{
    if event >= 4 || !owns(site, event) {
        return ("not here", NOTHING, None);
    }
    let cause = plain.why(EventId(event));
    if let Some(cause) = &cause {
        return blocked(cause);
    }
    plain.execute(EventId(event));
    ("done", NOTHING, None)
}

// What blocks an execution.
fn blocked(cause: &Cause) -> ToldRow {
    match cause {
        Cause::Excluded => ("excluded", NOTHING, None),
        Cause::Condition(e) => ("condition", NOTHING, Some(e.0)),
        Cause::Milestone(e) => ("milestone", NOTHING, Some(e.0)),
    }
}

// Which of its events a site may execute.
fn enabled(plain: &Plain, site: u16) -> u8
    requires { length plain.now.graph.names ≡ 4 }
{
    let mut bits = 0;
    for event in 0..4u16 {
        if owns(site, event) && plain.why(EventId(event)).is_none() {
            bits |= 1 << event;
        }
    }
    bits
}

// The marks that the doctor and that the nurse track.
fn tracked(marking: &Marking, site: u16) -> [u8; 3] {
    let masks = if site == 0 {
        [0b0011, 0b0011, 0b0011]
    } else {
        [0b1110, 0b1100, 0b1110]
    };
    [
        members(&marking.executed) & masks[0],
        members(&marking.pending) & masks[1],
        members(&marking.included) & masks[2],
    ]
}

// Each entry has the answer of the engine of the whole graph, in the order of the journal.
fn answers_as_the_graph(rt: &impl Abort, world: &World, plain: &mut Plain, row: &str)
    requires { length plain.old.graph.names ≡ 4 }
{
    let journal = world.journal_node().journal();
    let many = journal.len();
    assert!(rt; many > 20, "{row}: {many} entries");
    for place in 0..journal.len() {
        if let Some(entry) = journal.get(place) {
            same(
                rt,
                &told(&entry.outcome),
                &answered(plain, &entry.call),
                row,
            );
        }
    }
}

// Drawn steps of all kinds, five thousand in each of four worlds: whatever happens, each entry has the graph's answer.
#[test]
fn drawn_steps_of_all_kinds_at_sites_apart(rt: HostRuntime) -> Result<(), Fail> {
    let graph = graph_of(rt.alloc(), &HOSPITAL)?;
    let cover = hospital_cover(rt.alloc(), &graph)?;
    for (seed, row) in [(1, "first"), (2, "second"), (3, "third"), (4, "fourth")] {
        let mut state = seed;
        let mut world = opened(rt.alloc(), &graph, &cover)?;
        let mut plain = Plain::new(rt.alloc(), &graph, &opening())?;
        take_drawn(rt.alloc(), &mut world, &graph, &cover, &mut state)?;
        answers_as_the_graph(&rt, &world, &mut plain, row);
    }
    Ok(())
}
