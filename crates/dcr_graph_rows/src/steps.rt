// What happens to the doctor's and the nurse's nodes in the rows, step by step.
ghost use Rattle.std.specs.Prelude.{◌≡◌, length, IfOk, IsTrue};
ghost use Rattle.std.specs.List.{All};
ghost use Rattle.dcr_graph.specs.GraphValue.{rules_of};
ghost use Rattle.dcr_journal.specs.Run.{IsInRange};
ghost use Rattle.dcr_node.specs.Right.{IsRight};
ghost use Rattle.dcr_node.specs.WorldState.{IsCallEvent, IsEvent, IsKept};
ghost use Rattle.dcr_proj.specs.CoverValue.{atoms_of};

use crate::build::{members, opening, sets_of};
use dcr_graph::Graph;
use dcr_journal::{Call, Outcome};
use dcr_node::{CallEvent, World, WorldEvent};
use dcr_proj::Cover;
use dcr_set::{EventId, SiteId};
use dcr_wire::Asked;
use std::alloc::Global;
use std::test::Fail;

// What happens next: a call is proposed, with its session, its site and its event by number; another event of the nodes; or a
// site begins anew.
#[derive(Clone, Copy)]
pub(crate) enum Step {
    Exec(u32, u16, u16),
    Look(u32, u16),
    Enabled(u32, u16),
    Accepting(u32),
    AskAgain,
    Item(u16, u32),
    Deliver(u64),
    Ask(u16, Asked),
    Question(u64),
    Answered(u64),
    Anew(u16),
}

use Step::{
    Accepting, Anew, Answered, Ask, AskAgain, Deliver, Enabled, Exec, Item, Look, Question,
};

// What a call was told: a word, sets of atoms, and an atom.
pub(crate) type ToldRow = (&'static str, [u8; 3], Option<u16>);

pub(crate) const NOTHING: [u8; 3] = [0; 3];

// Whether the site and the event of a call are below these.
fn is_in_range(call: &Call, sites: u16, atoms: u16) -> bool
    ensures { IsTrue result → IsInRange sites atoms call.now }
{
    match call {
        Call::Exec(site, event) => site.0 < sites && event.0 < atoms,
        Call::Look(site) => site.0 < sites,
        Call::Enabled(site) => site.0 < sites,
        Call::Accepting => true,
    }
}

// The nodes of the two sites, with two sessions and room for a hundred entries.
pub(crate) fn opened(alloc: Global, graph: &Graph, cover: &Cover) -> Result<World, Fail>
    requires atoms { length graph.now.names ≡ 4 }
    requires rooms { All (λ set. length set ≡ length graph.now.names) cover.now.owned }
    ensures right { IfOk result (λ world. IsRight (rules_of graph.now) cover.now.owned world.opening world) }
    ensures sessions { IfOk result (λ world. world.journal.sessions ≡ 2) }
{
    let start = opening();
    let world = World::open(alloc, graph, cover, &start, 2, 100)?;
    Ok(world)
}

// An event happens, where its site is one. No execution is proposed so.
fn happen(world: &mut World, graph: &Graph, cover: &Cover, event: WorldEvent) -> Result<(), Fail>
    requires right { IsRight (rules_of graph.now) cover.now.owned world.old.opening world.old }
    requires sessions { world.old.journal.sessions ≡ 2 }
    ensures right { IsRight (rules_of graph.now) cover.now.owned world.old.opening world.new }
    ensures kept { IsKept world.old world.new }
{
    if !is_event(world, &event) {
        return Ok(());
    }
    world.event(event)?;
    Ok(())
}

// Whether the event is one without a proposal, and its site is one.
fn is_event(world: &World, event: &WorldEvent) -> bool
    ensures { IsTrue result → IsEvent world.now event.now }
{
    match event {
        WorldEvent::Propose { .. } => false,
        WorldEvent::AskAgain => true,
        WorldEvent::Item { site, .. } => site.0 < world.sites(),
        WorldEvent::Deliver { .. } => true,
    }
}

// An event of any call happens, where its numbers are in range.
fn call(world: &mut World, graph: &Graph, cover: &Cover, event: CallEvent) -> Result<(), Fail>
    requires right { IsRight (rules_of graph.now) cover.now.owned world.old.opening world.old }
    requires sessions { world.old.journal.sessions ≡ 2 }
    ensures right { IsRight (rules_of graph.now) cover.now.owned world.old.opening world.new }
    ensures kept { IsKept world.old world.new }
{
    if !is_call(world, graph.atoms(), &event) {
        return Ok(());
    }
    world.call(event)?;
    Ok(())
}

// A session proposes a call.
fn propose(
    world: &mut World,
    graph: &Graph,
    cover: &Cover,
    session: u32,
    asked: Call,
) -> Result<(), Fail>
    requires right { IsRight (rules_of graph.now) cover.now.owned world.old.opening world.old }
    requires sessions { world.old.journal.sessions ≡ 2 }
    ensures right { IsRight (rules_of graph.now) cover.now.owned world.old.opening world.new }
    ensures kept { IsKept world.old world.new }
{
    let event = CallEvent::ProposeCall {
        session,
        call: asked,
    };
    call(world, graph, cover, event)
}

// Whether the numbers of the event are those of one of two sessions, of a site and of an atom.
fn is_call(world: &World, atoms: u16, event: &CallEvent) -> bool
    requires atoms { atoms ≡ atoms_of world.now.journal.alphabets }
    requires sessions { world.now.journal.sessions ≡ 2 }
    ensures { IsTrue result → IsCallEvent world.now event.now }
{
    match event {
        CallEvent::ProposeCall { session, call } => {
            *session < 2 && is_in_range(call, world.sites(), atoms)
        }
        CallEvent::AskSite { site, .. } => site.0 < world.sites(),
        CallEvent::DeliverQuestion { .. } => true,
        CallEvent::DeliverAnswer { .. } => true,
    }
}

// The site of this number begins anew, where there is one.
fn begin_anew(
    alloc: Global,
    world: &mut World,
    graph: &Graph,
    cover: &Cover,
    site: u16,
) -> Result<(), Fail>
    requires right { IsRight (rules_of graph.now) cover.now.owned world.old.opening world.old }
    requires sessions { world.old.journal.sessions ≡ 2 }
    ensures right { IsRight (rules_of graph.now) cover.now.owned world.old.opening world.new }
    ensures kept { IsKept world.old world.new }
{
    if site >= world.sites() {
        return Ok(());
    }
    world.begin_anew(alloc, graph, cover, SiteId(site))?;
    Ok(())
}

// The step is taken.
pub(crate) fn take(
    alloc: Global,
    world: &mut World,
    graph: &Graph,
    cover: &Cover,
    step: Step,
) -> Result<(), Fail>
    requires right { IsRight (rules_of graph.now) cover.now.owned world.old.opening world.old }
    requires sessions { world.old.journal.sessions ≡ 2 }
    ensures right { IsRight (rules_of graph.now) cover.now.owned world.old.opening world.new }
    ensures kept { IsKept world.old world.new }
{
    match step {
        Exec(session, site, event) => {
            propose(
                world,
                graph,
                cover,
                session,
                Call::Exec(SiteId(site), EventId(event)),
            )
        }
        Look(session, site) => propose(world, graph, cover, session, Call::Look(SiteId(site))),
        Enabled(session, site) => {
            propose(world, graph, cover, session, Call::Enabled(SiteId(site)))
        }
        Accepting(session) => propose(world, graph, cover, session, Call::Accepting),
        AskAgain => happen(world, graph, cover, WorldEvent::AskAgain),
        Item(site, index) => {
            let site = SiteId(site);
            happen(world, graph, cover, WorldEvent::Item { site, index })
        }
        Deliver(message) => happen(world, graph, cover, WorldEvent::Deliver { message }),
        Ask(site, asked) => {
            let site = SiteId(site);
            call(world, graph, cover, CallEvent::AskSite { site, asked })
        }
        Question(question) => call(world, graph, cover, CallEvent::DeliverQuestion { question }),
        Answered(answer) => call(world, graph, cover, CallEvent::DeliverAnswer { answer }),
        Anew(site) => begin_anew(alloc, world, graph, cover, site),
    }
}

// The steps are taken, one after the other.
pub(crate) fn take_all(
    alloc: Global,
    world: &mut World,
    graph: &Graph,
    cover: &Cover,
    steps: &[Step],
) -> Result<(), Fail>
    requires right { IsRight (rules_of graph.now) cover.now.owned world.old.opening world.old }
    requires sessions { world.old.journal.sessions ≡ 2 }
{
    for step in steps {
        take(alloc, world, graph, cover, *step)?;
    }
    Ok(())
}

// What a call was told.
pub(crate) fn told(outcome: &Outcome) -> ToldRow {
    match outcome {
        Outcome::Done => ("done", NOTHING, None),
        Outcome::Condition(e) => ("condition", NOTHING, Some(e.0)),
        Outcome::Marks(mark) => ("marks", sets_of(mark), None),
        Outcome::Can(events) => ("can", [members(events), 0, 0], None),
        Outcome::AllDone => ("all done", NOTHING, None),
        Outcome::Waits(e) => ("waits", NOTHING, Some(e.0)),
        Outcome::NotHere => ("not here", NOTHING, None),
        Outcome::Excluded => ("excluded", NOTHING, None),
        Outcome::Milestone(e) => ("milestone", NOTHING, Some(e.0)),
        Outcome::Faulted => ("faulted", NOTHING, None),
    }
}
