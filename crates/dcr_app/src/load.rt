// The command `load`.
ghost use Rattle.std.specs.Prelude.{◌≡◌, ◌+◌, ◌<◌, length, None, IfOk};
ghost use Rattle.std.specs.Option.{ForSome};
ghost use Rattle.dcr_app.specs.Loaded.{AnswersLoad, count_done, count_other, load_line};

use crate::alone::run_alone;
use crate::answer::Answer;
use crate::lines::{Line, and, and_number, line};
use crate::say::tell;
use dcr_base::{Disk, Gate, Sink, Status};
use dcr_graph::Graph;
use dcr_journal::{Closed, Journal};
use dcr_json::read_case;
use dcr_load::{load_text, loads_are_large};
use dcr_replay::is_done;
use dcr_report::write_verdict;
use std::alloc::Global;
use std::sync::Wait;
use std::thread::Threads;

/// Makes the case of a number, reads it, runs it by one worker without a tape, and writes one line about the run.
pub(crate) fn load<O: Sink, D: Disk + Send, G: Gate + Drop + Sync, R: Threads + Wait + Sync>(
    rt: &R,
    alloc: Global,
    number: u32,
    output: &mut O,
    disk: D,
    gate: &G,
) -> (Answer, D)
    ensures answers { AnswersLoad number (O.takes output.old) (O.takes output.new) result.0.0 result.0.1 }
    ensures world { result.0.2 ≡ None }
    ensures disk { result.1 ≡ disk }
{
    // How many calls a case of a number has.
    loads_are_large();
    let Ok(text) = load_text(alloc, number) else {
        return (Answer(Status::NoMemory, None, None), disk);
    };
    // The text is that of a case, which is refused for want of memory alone.
    let Ok(case) = read_case(alloc, &text) else {
        return (Answer(Status::NoMemory, None, None), disk);
    };
    let (ran, disk) = run_alone(rt, alloc, &case, &case.opening, disk, gate);
    let Some(closed) = ran else {
        return (Answer(Status::NoMemory, None, None), disk);
    };
    let line = line_of(alloc, number, &case.graph, &closed);
    let status = tell(output, line, Status::Done);
    (Answer(status, Some(closed), None), disk)
}

// The line about a run.
fn line_of(alloc: Global, number: u32, graph: &Graph, closed: &Closed) -> Line
    requires { ForSome closed.now.waits (λ e. e < length graph.now.names) }
    ensures { IfOk result (λ line. line.items ≡ load_line number graph.now.names closed.now.history.entries closed.now.waits) }
{
    let history = &closed.history;
    let done = count_done(history);
    let other = history.len() - done;
    let line = and_number(line(alloc, b"load "), number);
    let line = and_number(and(line, b" entries "), history.len());
    let line = and_number(and(line, b" done "), done);
    let line = and_number(and(line, b" other "), other);
    let mut line = and(line, b" ")?;
    write_verdict(closed.waits, graph, &mut line)?;
    and(Ok(line), b"\n")
}

// How many entries are executions that were done.
fn count_done(history: &Journal) -> u32
    ensures done { result ≡ count_done history.now.entries }
    ensures others { result + count_other history.now.entries ≡ length history.now.entries }
{
    let mut done = 0;
    for place in 0..history.len() {
        let entry = history.get(place).unwrap();
        if is_done(&entry.outcome) {
            done += 1;
        }
    }
    done
}
