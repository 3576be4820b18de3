// The commands that execute a case.
ghost use Rattle.std.specs.Prelude.{◌≡◌, List, ℕ, Some, Ok};
ghost use Rattle.dcr_roles.specs.Accepted.{accepted_in, both_of, IsAccepted};
ghost use Rattle.dcr_app.specs.Answers.{AnswersBytes, Executed};
ghost use Rattle.dcr_app.specs.Command.{IsWay};
ghost use Rattle.dcr_app.specs.Stored.{LeavesDisk};
ghost use Rattle.dcr_app.specs.Telling.{LeavesDoor};
ghost use Rattle.dcr_app.specs.declared.command.Command.TheVariants.{Read};
ghost use Rattle.dcr_app.specs.declared.command.Reading.TheVariants.{Execute};

use crate::End;
use crate::command::Way;
use crate::report::report_unless;
use crate::say::refuse_tape;
use crate::stored::{Ran, Unrun, run_over};
use dcr_base::{Disk, Door, Gate, Link, Sink};
use dcr_roles::Accepted;
use std::alloc::Global;
use std::sync::Wait;
use std::thread::Threads;

/// Runs the sessions of a case, or serves others over the links of the door, and writes the report. With a store it goes on
/// from the executions that the disk stands for, and keeps its own there.
pub(crate) fn execute<
    O: Sink,
    B: Door<Link: Link<Rest: Send> + Send> + Send,
    D: Disk + Send,
    G: Gate + Drop + Sync,
    R: Threads + Wait + Sync,
>(
    rt: &R,
    alloc: Global,
    way: Way,
    store: bool,
    accepted: &Accepted,
    output: &mut O,
    door: B,
    disk: D,
    gate: G,
) -> End<B, D>
    requires way { IsWay way }
    requires accepted { IsAccepted accepted.now }
    ensures told { (bytes : List ℕ) → accepted_in bytes ≡ Ok (both_of accepted.now)
        → AnswersBytes (Executed D.view D.faults B.tells door disk (O.takes output.old) (O.takes output.new) result)
        (Execute way store) bytes (O.takes output.old) (O.takes output.new) result.status result.closed result.world
        × LeavesDisk store D.view D.faults (Some bytes) disk result.disk result.status result.closed }
    ensures door { LeavesDoor B.tells
        (Some (Read (Execute way store))) result.closed door result.door result.ends.items result.status }
{
    match run_over(rt, alloc, way, store, accepted, door, disk, gate) {
        Ok(
            Ran {
                closed,
                due,
                no_memory,
                door,
                disk,
                ends,
            },
        ) => {
            let status = report_unless(rt, alloc, no_memory, &accepted.case, &closed, due, output);
            End {
                status,
                closed: Some(closed),
                door,
                disk,
                ends,
                world: None,
            }
        }
        Err(Unrun { cause, door, disk }) => End {
            status: refuse_tape(alloc, output, cause),
            closed: None,
            door,
            disk,
            ends: Vec::new(alloc),
            world: None,
        },
    }
}
