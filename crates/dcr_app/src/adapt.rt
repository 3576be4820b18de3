// The command `adapt`.
ghost use Rattle.std.specs.Prelude.{◌≡◌, ◌≢◌, ◌≤◌, ◌++◌, codes, decimal, List, ℕ, length, map, IfOk, OnOk};
ghost use Rattle.std.specs.List.{All};
ghost use Rattle.dcr_graph.specs.Projection.{HasRoom};
ghost use Rattle.dcr_json.specs.Built.{case_of, IsCase};
ghost use Rattle.dcr_app.specs.Adapted.{RunsStages, stage_line, stages_from};
ghost use Rattle.dcr_app.specs.Answers.{AnswersPlain};
ghost use Rattle.dcr_app.specs.declared.command.Reading.TheVariants.{Adapt};

use crate::alone::run_alone;
use crate::answer::Answer;
use crate::lines::{Line, and, and_name, and_number, line, numbered};
use crate::refusal::{case_line, policy_line};
use crate::report::report;
use crate::say::tell;
use dcr_adapt::{StageStop, carry, read_stages, when_each_stage_is_refused};
use dcr_base::{Disk, Gate, Sink, Status};
use dcr_graph::{Marking, Name};
use dcr_journal::Closed;
use dcr_json::Case;
use dcr_set::NoMemory;
use std::alloc::Global;
use std::sync::Wait;
use std::thread::Threads;

/// Runs stages, a case in each line, one after the other, each from where the one before it ended, and writes the report of
/// each when it has been run.
pub(crate) fn adapt<O: Sink, D: Disk + Send, G: Gate + Drop + Sync, R: Threads + Wait + Sync>(
    rt: &R,
    alloc: Global,
    bytes: &[u8],
    output: &mut O,
    disk: D,
    gate: &G,
) -> (Answer, D)
    requires { length bytes.now ≤ 16777216 }
    ensures answers { AnswersPlain Adapt bytes.now (O.takes output.old) (O.takes output.new) result.0 }
    ensures disk { result.1 ≡ disk }
{
    // That there is a first stage.
    when_each_stage_is_refused();
    match read_stages(alloc, bytes) {
        Ok(cases) => {
            let (first, rest) = cases.split_first().unwrap();
            let (status, closed, disk) = run_stages(
                rt,
                alloc,
                first,
                &first.opening,
                rest,
                None,
                output,
                disk,
                gate,
            );
            (Answer(status, closed, None), disk)
        }
        Err(stop) => {
            let status = tell(output, line_of_stage(alloc, &stop), Status::Refused);
            (Answer(status, None, None), disk)
        }
    }
}

// Runs a stage, from this marking, and then those behind it, and writes their reports. What is told is the run of the last
// that has ended, or else the run before.
fn run_stages<O: Sink, D: Disk + Send, G: Gate + Drop + Sync, R: Threads + Wait + Sync>(
    rt: &R,
    alloc: Global,
    case: &Case,
    opening: &Marking,
    rest: &[Case],
    before: Option<Closed>,
    output: &mut O,
    disk: D,
    gate: &G,
) -> (Status, Option<Closed>, D)
    requires case { IsCase case.now }
    requires rest { All IsCase rest.now }
    requires room { HasRoom (length case.now.graph.names) opening.now }
    ensures runs { RunsStages (stages_from (case_of case.now) opening.now (map case_of rest.now)) before (O.takes output.old) (O.takes output.new)
        result.0 result.1 }
    ensures disk { result.2 ≡ disk }
{
    let (ran, disk) = run_alone(rt, alloc, case, opening, disk, gate);
    let Some(closed) = ran else {
        return (Status::NoMemory, before, disk);
    };
    drop(before);
    let status = report(rt, alloc, case, &closed, Status::Done, output);
    if !matches!(status, Status::Done) {
        return (status, Some(closed), disk);
    }
    let Some((next, behind)) = rest.split_first() else {
        return (Status::Done, Some(closed), disk);
    };
    let Ok(carried) = carry(alloc, &case.graph, &case.cover, &closed.marks, next) else {
        return (Status::NoMemory, Some(closed), disk);
    };
    run_stages(
        rt,
        alloc,
        next,
        &carried,
        behind,
        Some(closed),
        output,
        disk,
        gate,
    )
}

// The line that tells why the lines of a text are no stages. `NoMemory` where that is want of memory, and where memory could
// not be had for the line.
fn line_of_stage(alloc: Global, stop: &StageStop) -> Line
    ensures line { IfOk result (λ line. line.items ≡ stage_line stop.now) }
    ensures had { OnOk result (stop.now ≢ StageStop.NoMemory) }
{
    match stop {
        StageStop::Cases { count } => numbered(alloc, b"refused 14 cases ", *count),
        StageStop::Stage { i, stop } => behind_stage(alloc, *i, case_line(alloc, stop)),
        StageStop::Policy { i, stop } => behind_stage(alloc, *i, policy_line(alloc, stop)),
        StageStop::Dropped { i, a } => dropped(alloc, *i, a),
        StageStop::NoMemory => Err(NoMemory),
    }
}

// The line of an atom that is dropped.
fn dropped(alloc: Global, i: u32, a: &Name) -> Line
    ensures { IfOk result (λ line. line.items ≡ codes "case " ++ decimal i ++ codes " refused 13 dropped " ++ a.now ++ codes "\n") }
{
    let line = and(
        and_number(line(alloc, b"case "), i),
        b" refused 13 dropped ",
    );
    and(and_name(line, a), b"\n")
}

// The number of a stage, and what is said of it.
fn behind_stage(alloc: Global, i: u32, more: Line) -> Line
    ensures { (text : List ℕ) → IfOk more (λ line. line.items ≡ text) → IfOk result (λ line. line.items ≡ codes "case " ++ decimal i ++ codes " " ++ text) }
{
    let more = more?;
    and(and(and_number(line(alloc, b"case "), i), b" "), &more)
}
