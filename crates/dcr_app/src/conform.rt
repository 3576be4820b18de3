// The command `conform`.
ghost use Rattle.std.specs.Prelude.{◌≡◌, ◌≤◌, ◌<◌, ◌⊎◌, ◌^◌, List, ℕ, length, Ok};
ghost use Rattle.std.specs.List.{All};
ghost use Rattle.dcr_graph.specs.Projection.{HasRoom};
ghost use Rattle.dcr_json.specs.Built.{case_of, IsCase};
ghost use Rattle.dcr_roles.specs.Accepted.{case_accepted};
ghost use Rattle.dcr_log.specs.declared.trace.Trace.{Trace};
ghost use Rattle.dcr_conform.specs.Judge.{AreJudged};
ghost use Rattle.dcr_conform.specs.Lines.{judged_text};
ghost use Rattle.dcr_conform.specs.declared.judged.Judged.{Judged};
ghost use Rattle.dcr_app.specs.Answers.{AnswersPlain};
ghost use Rattle.dcr_app.specs.Logged.{case_bytes, log_bytes};
ghost use Rattle.dcr_app.specs.Outside.{IsStarved, Wrote};
ghost use Rattle.dcr_app.specs.declared.command.Reading.TheVariants.{Conform};

use crate::answer::Answer;
use crate::lines::numbered;
use crate::say::{refuse, tell};
use dcr_base::{Sink, Status};
use dcr_conform::{LogStop, Trace, judge_all, read_log, write_judged};
use dcr_graph::{Graph, Marking};
use dcr_json::Case;
use dcr_report::ReportStop;
use dcr_roles::{read_accepted, when_each_refusal_comes};
use std::alloc::Global;
use std::thread::Threads;

/// Judges a log, which stands behind the first line of the bytes, by the case which that line is, and writes how each trace is
/// judged.
pub(crate) fn conform<O: Sink, R: Threads + Sync>(
    rt: &R,
    alloc: Global,
    bytes: &[u8],
    output: &mut O,
) -> Answer
    requires { length bytes.now ≤ 16777216 }
    ensures { AnswersPlain Conform bytes.now (O.takes output.old) (O.takes output.new) result }
{
    let (line, log) = parts(bytes);
    match read_accepted(alloc, line) {
        Ok(accepted) => conform_log(rt, alloc, &accepted.case, log, output),
        Err(stop) => refuse(alloc, output, &stop),
    }
}

// The case file and the log behind it.
fn parts(bytes: &[u8]) -> (&[u8], &[u8])
    ensures case { result.0.now ≡ case_bytes bytes.now }
    ensures log { result.1.now ≡ log_bytes bytes.now }
    ensures fewer { length result.1.now ≤ length bytes.now }
{
    match bytes.iter().position(|byte| *byte == b'\n') {
        Some(at) => (&bytes[..at], &bytes[at + 1..]),
        None => (bytes, &[]),
    }
}

// Answers a log behind a case.
fn conform_log<O: Sink, R: Threads + Sync>(
    rt: &R,
    alloc: Global,
    case: &Case,
    log: &[u8],
    output: &mut O,
) -> Answer
    requires case { IsCase case.now }
    requires few { length log.now < 2 ^ 32 }
    ensures { (bytes : List ℕ) → length bytes ≤ 16777216 → case_accepted (case_bytes bytes) ≡ Ok (case_of case.now) → log.now ≡ log_bytes bytes
        → AnswersPlain Conform bytes (O.takes output.old) (O.takes output.new) result }
{
    // What the bytes of a case say.
    when_each_refusal_comes();
    match read_log(alloc, log) {
        Ok(traces) => {
            let status = conform_traces(rt, alloc, &case.graph, &case.opening, &traces, output);
            Answer(status, None, None)
        }
        Err(LogStop::Bad { row }) => {
            let line = numbered(alloc, b"refused 15 log ", row);
            Answer(tell(output, line, Status::Refused), None, None)
        }
        Err(LogStop::NoMemory) => Answer(Status::NoMemory, None, None),
    }
}

// Judges the traces of a log, and writes their lines.
fn conform_traces<O: Sink, R: Threads + Sync>(
    rt: &R,
    alloc: Global,
    graph: &Graph,
    opening: &Marking,
    traces: &[Trace],
    output: &mut O,
) -> Status
    requires room { HasRoom (length graph.now.names) opening.now }
    requires few { All (λ (trace : Trace). length trace.events < 2 ^ 32) traces.now }
    ensures { IsStarved result (O.takes output.old) (O.takes output.new)
        ⊎ ((answers : List Judged) × AreJudged graph.now opening.now traces.now answers
        × Wrote Status.Done (judged_text graph.now.names traces.now answers) result (O.takes output.old) (O.takes output.new)) }
{
    let Ok(judged) = judge_all(rt, alloc, graph, opening, traces) else {
        return Status::NoMemory;
    };
    match write_judged(alloc, graph, traces, &judged, output) {
        Ok(()) => Status::Done,
        Err(ReportStop::WriteFault) => Status::WriteFault,
        Err(ReportStop::NoMemory) => Status::NoMemory,
    }
}
