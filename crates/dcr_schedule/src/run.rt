// The executions of sessions, proposed one after the other.
ghost use Rattle.std.specs.Prelude.{◌≡◌, ℕ, ◌<◌, ◌≤◌, [], List, length, Some, None, true, OnOk};
ghost use Rattle.std.specs.List.{All};
ghost use Rattle.dcr_set.specs.EventSet.{Set};
ghost use Rattle.dcr_graph.specs.Rules.{Rules};
ghost use Rattle.dcr_graph.specs.declared.marking.Marking.{Marking as Marks};
ghost use Rattle.dcr_proj.specs.CoverValue.{atoms_of};
ghost use Rattle.dcr_journal.specs.Run.{IsInRange, numbered, told};
ghost use Rattle.dcr_node.specs.JournalState.{execution, is_free};
ghost use Rattle.dcr_node.specs.Laws.{StayedOrTold, with_told};
ghost use Rattle.dcr_node.specs.Right.{IsRight};
ghost use Rattle.dcr_node.specs.WorldState.{HaveHeardAll, IsKept, IsEvent};
ghost use Rattle.dcr_node.specs.declared.event.WorldEvent.TheVariants.{Propose};
ghost use Rattle.dcr_schedule.specs.Executions.{exec_calls, executions_of};
ghost use Rattle.dcr_schedule.specs.Playing.{AreTold, HasTold};

use crate::draws::Draws;
use crate::hear::{hear, hear_all};
use dcr_journal::{Call, CallList};
use dcr_node::{World, WorldEvent, proposals_are_told};
use dcr_set::{EventId, NoMemory, SiteId};

/// Makes the executions that sessions ask for, in the order of the sessions, each session's in its own order: each is
/// proposed, and then the network loses, repeats and reorders messages as the number picks, until the execution has its
/// entry, or else the asked site is given what it misses, and is asked, and its vote is delivered. At the end every site is
/// given what it misses. Calls that are no executions are passed over. The journal is the told run of the executions,
/// whatever the number. `NoMemory` comes where a message more can't be kept; the world is then as its events so far left it.
pub fn run_nodes(world: &mut World, sessions: &[CallList], number: u32) -> Result<(), NoMemory>
    requires entries { world.old.journal.history.entries ≡ [] }
    requires nothing_out { world.old.journal.out ≡ None }
    requires room { length (numbered 0 (exec_calls sessions.now)) ≤ world.old.journal.history.capacity }
    requires sessions { length sessions.now ≤ world.old.journal.sessions }
    requires most_sessions { length sessions.now ≤ 1024 }
    requires in_range { All (λ calls. All (IsInRange (length world.old.sites) (atoms_of world.old.journal.alphabets)) calls) sessions.now }
    ensures kept { IsKept world.old world.new }
    ensures right { (G : Rules) (C : List Set) (M : Marks) → IsRight G C M world.old → IsRight G C M world.new }
    ensures told { OnOk result ((G : Rules) (C : List Set) (M : Marks) → IsRight G C M world.old
        → world.new.journal.history.entries ≡ told G C M (exec_calls sessions.now)) }
    ensures heard { OnOk result ((G : Rules) (C : List Set) (M : Marks) → IsRight G C M world.old → HaveHeardAll world.new) }
{
    let mut draws = Draws::of(number);
    for session in 0..sessions.len() {
        run_session(world, session as u32, &sessions[session], &mut draws)?;
    }
    hear_all(world)
}

// Makes the executions of a session.
fn run_session(
    world: &mut World,
    session: u32,
    calls: &CallList,
    draws: &mut Draws,
) -> Result<(), NoMemory>
    requires session { session < world.old.journal.sessions }
    requires in_range { All (IsInRange (length world.old.sites) (atoms_of world.old.journal.alphabets)) calls.now }
    ensures kept { IsKept world.old world.new }
    ensures right { (G : Rules) (C : List Set) (M : Marks) → IsRight G C M world.old → IsRight G C M world.new }
    ensures told { OnOk result ((G : Rules) (C : List Set) (M : Marks) → IsRight G C M world.old
        → AreTold G C M (executions_of session calls.now) world.old.journal world.new.journal) }
{
    for place in 0..calls.len() {
        match *calls.get(place).unwrap() {
            Call::Exec(site, event) => execute(world, session, site, event, draws)?,
            Call::Look(_) | Call::Enabled(_) | Call::Accepting => {}
        }
    }
    Ok(())
}

// Makes one execution: it is proposed, and has its entry at the end.
fn execute(
    world: &mut World,
    session: u32,
    site: SiteId,
    event: EventId,
    draws: &mut Draws,
) -> Result<(), NoMemory>
    requires { IsEvent world.old (Propose session site event) }
    ensures kept { IsKept world.old world.new }
    ensures right { (G : Rules) (C : List Set) (M : Marks) → IsRight G C M world.old → IsRight G C M world.new }
    ensures told { OnOk result ((G : Rules) (C : List Set) (M : Marks) → IsRight G C M world.old → is_free world.old.journal ≡ true
        → HasTold G C M (execution session site event) world.old.journal world.new.journal) }
{
    world.event(WorldEvent::Propose {
        session,
        site,
        event,
    })?;
    play(world, draws)?;
    if world.journal_node().ask().is_some() {
        settle(world, site)?;
    }
    Ok(())
}

// Lets the network do what is drawn, until what is out has its entry or the turns are over.
fn play(world: &mut World, draws: &mut Draws) -> Result<(), NoMemory>
    ensures kept { IsKept world.old world.new }
    ensures right { (G : Rules) (C : List Set) (M : Marks) → IsRight G C M world.old → IsRight G C M world.new }
    ensures told { (G : Rules) (C : List Set) (M : Marks) → IsRight G C M world.old → StayedOrTold G C M world.old.journal world.new.journal }
{
    for _ in 0..draws.pick(9) {
        if world.journal_node().ask().is_none() {
            return Ok(());
        }
        turn(world, draws)?;
    }
    Ok(())
}

// One turn of the network: a message is delivered, the question is asked again, an item is sent, or nothing happens.
fn turn(world: &mut World, draws: &mut Draws) -> Result<(), NoMemory>
    ensures kept { IsKept world.old world.new }
    ensures right { (G : Rules) (C : List Set) (M : Marks) → IsRight G C M world.old → IsRight G C M world.new }
    ensures told { (G : Rules) (C : List Set) (M : Marks) → IsRight G C M world.old → StayedOrTold G C M world.old.journal world.new.journal }
{
    // What no proposal does.
    proposals_are_told();
    match draws.pick(4) {
        0 => {
            let message = draws.pick(world.sent());
            world.event(WorldEvent::Deliver { message })
        }
        1 => world.event(WorldEvent::AskAgain),
        2 => {
            let site = SiteId(draws.pick(u64::from(world.sites())) as u16);
            let length = world.journal_node().stream_len(site);
            if length == 0 {
                return Ok(());
            }
            let index = draws.pick(u64::from(length)) as u32;
            world.event(WorldEvent::Item { site, index })
        }
        _ => Ok(()),
    }
}

// Gives the asked site what it misses, asks it, and delivers its vote.
fn settle(world: &mut World, site: SiteId) -> Result<(), NoMemory>
    requires { site < length world.old.sites }
    ensures kept { IsKept world.old world.new }
    ensures right { (G : Rules) (C : List Set) (M : Marks) → IsRight G C M world.old → IsRight G C M world.new }
    ensures told { OnOk result ((G : Rules) (C : List Set) (M : Marks) (session event : ℕ) → IsRight G C M world.old
        → world.old.journal.out ≡ Some (execution session site event) → world.new.journal ≡ with_told G C M world.old.journal (execution session site event)) }
{
    // Where the asked site has heard of all, this tells what is out.
    proposals_are_told();
    hear(world, site)?;
    let question = world.sent();
    world.event(WorldEvent::AskAgain)?;
    let vote = world.sent();
    world.event(WorldEvent::Deliver { message: question })?;
    world.event(WorldEvent::Deliver { message: vote })
}
