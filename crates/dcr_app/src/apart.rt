// The command `nodes`.
ghost use Rattle.std.specs.Prelude.{◌≡◌, List, ℕ, Ok};
ghost use Rattle.dcr_json.specs.Built.{case_of, IsCase};
ghost use Rattle.dcr_roles.specs.Accepted.{case_accepted};
ghost use Rattle.dcr_app.specs.Answers.{AnswersPlain};
ghost use Rattle.dcr_app.specs.declared.command.Reading.TheVariants.{Nodes};

use crate::answer::Answer;
use crate::report::report;
use crate::say::refuse;
use dcr_base::{Sink, Status};
use dcr_json::Case;
use dcr_laws::told_has_each_call;
use dcr_roles::{read_accepted, when_each_refusal_comes};
use dcr_schedule::run_apart;
use std::alloc::Global;
use std::thread::Threads;

/// Runs the executions of a case at sites that talk by messages, over the network of a number, and writes the report.
pub(crate) fn apart<O: Sink, R: Threads + Sync>(
    rt: &R,
    alloc: Global,
    number: u32,
    bytes: &[u8],
    output: &mut O,
) -> Answer
    ensures { AnswersPlain (Nodes number) bytes.now (O.takes output.old) (O.takes output.new) result }
{
    match read_accepted(alloc, bytes) {
        Ok(accepted) => apart_case(rt, alloc, number, &accepted.case, output),
        Err(stop) => refuse(alloc, output, &stop),
    }
}

// Runs the executions of a case, and writes the report.
fn apart_case<O: Sink, R: Threads + Sync>(
    rt: &R,
    alloc: Global,
    number: u32,
    case: &Case,
    output: &mut O,
) -> Answer
    requires { IsCase case.now }
    ensures { (bytes : List ℕ) → case_accepted bytes ≡ Ok (case_of case.now)
        → AnswersPlain (Nodes number) bytes (O.takes output.old) (O.takes output.new) result }
{
    // What the bytes of a case say, and that the told run is a run of the graph with the sessions' calls alone.
    when_each_refusal_comes();
    told_has_each_call();
    let ran = run_apart(
        alloc,
        &case.graph,
        &case.cover,
        &case.opening,
        case.sessions.all(),
        number,
    );
    let Ok((world, closed)) = ran else {
        return Answer(Status::NoMemory, None, None);
    };
    let status = report(rt, alloc, case, &closed, Status::Done, output);
    Answer(status, Some(closed), Some(world))
}
