// A case that is executed, over the disk where there is a store.
ghost use Rattle.std.specs.Prelude.{◌≡◌, ◌≤◌, List, ℕ, length, [], true, false, Some, Ok, IfOk, IfErr, IsTrue, ⊤};
ghost use Rattle.dcr_base.specs.Side.{Side};
ghost use Rattle.dcr_turn.specs.Pushing.{EndsWithoutFault};
ghost use Rattle.dcr_tape.specs.Found.{CountsFaultOf};
ghost use Rattle.dcr_tape.specs.Opening.{Refused};
ghost use Rattle.dcr_cell.specs.Stored.{MayBegin};
ghost use Rattle.dcr_json.specs.Built.{case_of, IsCase};
ghost use Rattle.dcr_roles.specs.Accepted.{accepted_in, both_of, IsAccepted};
ghost use Rattle.dcr_report.specs.Report.{report_text};
ghost use Rattle.dcr_app.specs.Answers.{TellsRun};
ghost use Rattle.dcr_app.specs.Command.{AreSessions, AreWorkers, IsWay};
ghost use Rattle.dcr_app.specs.Headline.{digest_of};
ghost use Rattle.dcr_app.specs.Outside.{Wrote};
ghost use Rattle.dcr_app.specs.Stored.{Begins, IsRunOn, IsUnrun, LeavesDisk, RanOver, RefusedOver, disk_in, tape_cause};
ghost use Rattle.dcr_app.specs.Telling.{IsDueBy, LeavesDoor, LeavesServed, by_workers, over_links, told_by};
ghost use Rattle.dcr_app.specs.declared.command.Command.TheVariants.{Read};
ghost use Rattle.dcr_app.specs.declared.command.Reading.TheVariants.{Execute};

use crate::command::Way;
use dcr_base::{Disk, Door, Gate, Link, Status};
use dcr_cluster::{Finished, OpenCause, OpenRefused};
use dcr_engine::{CaseServed, CaseUnserved, MAX_ENTRIES, run_case, serve_case};
use dcr_journal::{Closed, Outcome};
use dcr_json::Case;
use dcr_report::case_digest;
use dcr_roles::{Accepted, when_each_refusal_comes};
use dcr_serving::LinkEnd;
use dcr_tape::{Store, TapeCause, TapeEntry, TapeRefused, one_list, open_tape};
use std::alloc::Global;
use std::sync::Wait;
use std::thread::Threads;

/// A case that was executed.
#[derive(Drop)]
pub(crate) struct Ran<B: Door, D> {
    pub(crate) closed: Closed,
    /// The status with which its report is due.
    pub(crate) due: Status,
    /// Whether memory was wanted and could not be had, for the serving itself or by a session.
    pub(crate) no_memory: bool,
    pub(crate) door: B,
    pub(crate) disk: D,
    /// How the session over each link has ended that the door gave, in order.
    pub(crate) ends: Vec<LinkEnd<B::Link>>,
}

/// A case of which no call was made, for this cause. The door was not asked.
#[derive(Drop)]
pub(crate) struct Unrun<B, D> {
    pub(crate) cause: TapeCause,
    pub(crate) door: B,
    pub(crate) disk: D,
}

/// Executes a case. With a store it goes on from the executions that the disk stands for, and keeps its own there.
pub(crate) fn run_over<
    B: Door<Link: Link<Rest: Send> + Send> + Send,
    D: Disk + Send,
    G: Gate + Drop + Sync,
    R: Threads + Wait + Sync,
>(
    rt: &R,
    alloc: Global,
    way: Way,
    store: bool,
    accepted: &Accepted,
    door: B,
    disk: D,
    gate: G,
) -> Result<Ran<B, D>, Unrun<B, D>>
    requires way { IsWay way }
    requires accepted { IsAccepted accepted.now }
    ensures ran { IfOk result (λ ran. (bytes : List ℕ) (had took : Side) (status : Status) → accepted_in bytes ≡ Ok (both_of accepted.now)
        → Wrote ran.due (report_text accepted.now.case.nested accepted.now.case.cover ran.closed.opening ran.closed.history.entries) status had took
        → TellsRun D.view D.faults (told_by B.tells door ran.door ran.ends.items way) store disk ran.disk (Some bytes) ⊤ had took status ran.closed
        × LeavesDisk store D.view D.faults (Some bytes) disk ran.disk status (Some ran.closed)) }
    ensures run { IfOk result (λ ran. IsRunOn accepted.now.case.graph accepted.now.case.cover.owned ran.closed) }
    ensures door { IfOk result (λ ran. (text : List ℕ) (had took : Side) (status : Status) → (IsTrue ran.no_memory → status ≡ Status.NoMemory)
        → Wrote ran.due text status had took
        → LeavesDoor B.tells (Some (Read (Execute way store))) (Some ran.closed) door ran.door ran.ends.items status) }
    ensures unrun { IfErr result (λ unrun. IsUnrun D.view D.faults store (case_of accepted.now.case) disk unrun.disk unrun.cause) }
    ensures unasked { IfErr result (λ unrun. unrun.door ≡ door) }
{
    // What the bytes of a case say, for the headline, and that a disk stands for one list.
    when_each_refusal_comes();
    one_list();
    match begin(alloc, store, &accepted.case, disk) {
        Ok((first, old)) => match way {
            Way::Run { workers } => by_workers(
                rt, alloc, workers, accepted, first, &old, door, gate,
            ),
            Way::Serve { sessions, workers } => over_links(
                rt, alloc, sessions, workers, accepted, first, &old, door, gate,
            ),
        },
        Err(TapeRefused { cause, disk }) => Err(Unrun { cause, door, disk }),
    }
}

// The store that a run of a case begins with, and the executions from before.
fn begin<D: Disk>(
    alloc: Global,
    store: bool,
    case: &Case,
    disk: D,
) -> Result<(Store<D>, Vec<TapeEntry>), TapeRefused<D>>
    requires { IsCase case.now }
    ensures begun { IfOk result (λ begun. Begins D.view D.faults (digest_of (case_of case.now)) store disk begun.0 begun.1.items) }
    ensures stored { IfErr result (λ refused. store ≡ true) }
    ensures refused { IfErr result (λ refused. Refused (D.view disk) (D.view refused.disk) (digest_of (case_of case.now)) refused.cause) }
    ensures counts { IfErr result (λ refused. CountsFaultOf refused.cause (D.faults disk) (D.faults refused.disk)) }
{
    if !store {
        return Ok((Store::Off(disk), Vec::new(alloc)));
    }
    let digest = case_digest(alloc, &case.nested, &case.graph, &case.cover, &case.opening);
    let Ok(digest) = digest else {
        let cause = TapeCause::NoMemory;
        return Err(TapeRefused { cause, disk });
    };
    match open_tape(alloc, disk, &digest) {
        Ok((tape, old)) => Ok((Store::On(tape), old)),
        Err(refused) => Err(refused),
    }
}

// Runs the sessions of a case, over a store.
fn by_workers<B: Door, D: Disk + Send, G: Gate + Drop + Sync, R: Threads + Wait + Sync>(
    rt: &R,
    alloc: Global,
    workers: u32,
    accepted: &Accepted,
    store: Store<D>,
    old: &[TapeEntry],
    door: B,
    gate: G,
) -> Result<Ran<B, D>, Unrun<B, D>>
    requires workers { AreWorkers workers }
    requires accepted { IsAccepted accepted.now }
    requires few_old { length old.now ≤ 1000000 }
    requires begins { MayBegin D.view old.now store }
    ensures ran { IfOk result (λ ran. RanOver D.view D.faults (by_workers workers) (case_of accepted.now.case) accepted.now.policy old.now store ran.disk ran.due ran.closed) }
    ensures run { IfOk result (λ ran. IsRunOn accepted.now.case.graph accepted.now.case.cover.owned ran.closed) }
    ensures unserved { IfOk result (λ ran. (ran.door ≡ door) × (ran.ends.items ≡ [])) }
    ensures refused { IfErr result (λ unrun. RefusedOver D.view D.faults (case_of accepted.now.case) old.now store unrun.disk unrun.cause) }
    ensures unasked { IfErr result (λ unrun. unrun.door ≡ door) }
{
    let case = &accepted.case;
    let ran = run_case(
        rt,
        alloc,
        &case.graph,
        &case.cover,
        &case.opening,
        case.sessions.all(),
        workers,
        store,
        old,
        gate,
    );
    match ran {
        Ok(Finished { closed, store }) => Ok(Ran {
            due: due_for(&closed),
            closed,
            no_memory: false,
            door,
            disk: disk_of(store),
            ends: Vec::new(alloc),
        }),
        Err(OpenRefused { cause, store }) => Err(Unrun {
            cause: cause_of(cause),
            door,
            disk: disk_of(store),
        }),
    }
}

// Serves so many sessions over the links of the door, over a store.
fn over_links<
    B: Door<Link: Link<Rest: Send> + Send> + Send,
    D: Disk + Send,
    G: Gate + Drop + Sync,
    R: Threads + Wait + Sync,
>(
    rt: &R,
    alloc: Global,
    sessions: u32,
    workers: u32,
    accepted: &Accepted,
    store: Store<D>,
    old: &[TapeEntry],
    door: B,
    gate: G,
) -> Result<Ran<B, D>, Unrun<B, D>>
    requires sessions { AreSessions sessions }
    requires workers { AreWorkers workers }
    requires accepted { IsAccepted accepted.now }
    requires few_old { length old.now ≤ 1000000 }
    requires begins { MayBegin D.view old.now store }
    ensures ran { IfOk result (λ ran. RanOver D.view D.faults (over_links B.tells door ran.door sessions ran.ends.items)
        (case_of accepted.now.case) accepted.now.policy old.now store ran.disk ran.due ran.closed) }
    ensures run { IfOk result (λ ran. IsRunOn accepted.now.case.graph accepted.now.case.cover.owned ran.closed) }
    ensures served { IfOk result (λ ran. (text : List ℕ) (had took : Side) (status : Status) → (IsTrue ran.no_memory → status ≡ Status.NoMemory)
        → Wrote ran.due text status had took → LeavesServed B.tells door ran.door sessions ran.ends.items status) }
    ensures refused { IfErr result (λ unrun. RefusedOver D.view D.faults (case_of accepted.now.case) old.now store unrun.disk unrun.cause) }
    ensures unasked { IfErr result (λ unrun. unrun.door ≡ door) }
{
    let case = &accepted.case;
    let served = serve_case(
        rt,
        alloc,
        &case.graph,
        &case.cover,
        &accepted.policy,
        &case.opening,
        sessions,
        workers,
        store,
        old,
        gate,
        door,
    );
    match served {
        Ok(
            CaseServed {
                finished,
                door,
                door_failed,
                no_memory,
                ends,
            },
        ) => {
            let Finished { closed, store } = finished;
            Ok(Ran {
                due: due_served(&closed, door_failed),
                closed,
                no_memory,
                door,
                disk: disk_of(store),
                ends,
            })
        }
        Err(CaseUnserved { refused, door }) => {
            let OpenRefused { cause, store } = refused;
            Err(Unrun {
                cause: cause_of(cause),
                door,
                disk: disk_of(store),
            })
        }
    }
}

// The disk of a store.
pub(crate) fn disk_of<D: Disk>(store: Store<D>) -> D
    ensures { result ≡ disk_in store }
{
    match store {
        Store::Off(disk) => disk,
        Store::On(tape) => tape.into_disk(),
    }
}

// Why a disk is refused whose cluster isn't opened.
fn cause_of(cause: OpenCause) -> TapeCause
    ensures { result ≡ tape_cause cause }
{
    match cause {
        OpenCause::NoMemory => TapeCause::NoMemory,
        OpenCause::BadTape { at } => TapeCause::BadTape { at },
        OpenCause::DiskFault => TapeCause::DiskFault,
    }
}

// The status with which the report of a run is due. A failed execution is the last entry.
fn due_for(closed: &Closed) -> Status
    ensures due { IsDueBy (EndsWithoutFault closed.now.history.entries) ⊥ ⊥ result }
    ensures done { EndsWithoutFault closed.now.history.entries → result ≡ Status.Done }
{
    match closed.history.last() {
        Some(entry) => match entry.outcome {
            Outcome::Faulted => Status::DiskFault,
            _ => Status::Done,
        },
        None => Status::Done,
    }
}

// The same of sessions over links.
fn due_served(closed: &Closed, door_failed: bool) -> Status
    ensures due { IsDueBy (EndsWithoutFault closed.now.history.entries) (length closed.now.history.entries ≡ 200000) (IsTrue door_failed) result }
    ensures unfailed { result ≡ Status.Done → door_failed ≡ false }
{
    match due_for(closed) {
        Status::Done if closed.history.len() == MAX_ENTRIES => Status::Full,
        Status::Done if door_failed => Status::DoorFault,
        due => due,
    }
}
