//! What the judging of an event log costs by itself. An input of `conform` is read from standard input: a case on the first
//! line, and a log behind it. Without words its traces are judged once, and how many there are and how many of them are
//! accepting is printed; with the word `time` they are judged seven times, and the middle number of microseconds is printed.
//! Reading is not timed. How many threads judge is decided by how many processors the process may use.
#![tactic(auto)]

ghost use Rattle.std.specs.Prelude.{◌<◌, ◌^◌, length};
ghost use Rattle.std.specs.List.{All};
ghost use Rattle.dcr_graph.specs.Projection.{HasRoom};
ghost use Rattle.dcr_log.specs.declared.trace.Trace.{Trace};

use dcr_base::{StdSource, read_all};
use dcr_conform::{Judged, Trace, judge_all, read_log};
use dcr_graph::{Graph, Marking};
use dcr_json::read_case;
use std::alloc::Global;
use std::io::ErrorKind;
use std::process::ExitCode;
use std::rt::Clock;
use std::thread::Threads;
use std::time::Instant;
use std::{env, io};

// More bytes than any input has.
const MAX_BYTES: usize = 33_554_432;

const ROUNDS: usize = 7;

fn main(rt: HostRuntime) -> ExitCode {
    let Ok(mut words) = env::args(&rt) else {
        return ExitCode::from(1);
    };
    let is_timed = words.any(|word| word.as_str() == "time");
    let mut input = StdSource::new(rt.reader());
    let Ok(bytes) = read_all(rt.alloc(), &mut input, MAX_BYTES) else {
        return ExitCode::from(1);
    };
    match judge_input(&rt, rt.alloc(), &bytes, is_timed) {
        Ok(()) => ExitCode::from(0),
        Err(_) => ExitCode::from(1),
    }
}

// Judges the traces of an input.
fn judge_input<R: Threads + Clock + Print + Sync>(
    rt: &R,
    alloc: Global,
    bytes: &[u8],
    is_timed: bool,
) -> io::Result<()>
    requires { length bytes.now < 2 ^ 32 }
{
    let Some(end) = bytes.iter().position(|byte| *byte == b'\n') else {
        return Err(invalid());
    };
    let (file, log) = bytes.split_at(end);
    let Ok(case) = read_case(alloc, file) else {
        return Err(invalid());
    };
    let Ok(traces) = read_log(alloc, &log[1..]) else {
        return Err(invalid());
    };
    if is_timed {
        time(rt, alloc, &case.graph, &case.opening, &traces)
    } else {
        count(rt, alloc, &case.graph, &case.opening, &traces)
    }
}

fn invalid() -> io::Error {
    io::Error::from(ErrorKind::InvalidData)
}

fn no_memory() -> io::Error {
    io::Error::from(ErrorKind::OutOfMemory)
}

// Judges the traces once, and prints how many there are and how many are accepting.
fn count<R: Threads + Print + Sync>(
    rt: &R,
    alloc: Global,
    graph: &Graph,
    start: &Marking,
    traces: &[Trace],
) -> io::Result<()>
    requires room { HasRoom (length graph.now.names) start.now }
    requires few { All (λ (trace : Trace). length trace.events < 2 ^ 32) traces.now }
{
    let Ok(judged) = judge_all(rt, alloc, graph, start, traces) else {
        return Err(no_memory());
    };
    let mut accepting: u64 = 0;
    for answer in judged.iter() {
        if let Judged::Accepting(_) = answer {
            accepting = accepting.saturating_add(1);
        }
    }
    println!(rt; "traces {} accepting {accepting}", traces.len())?;
    Ok(())
}

// Judges the traces again and again, and prints the middle number of microseconds.
fn time<R: Threads + Clock + Print + Sync>(
    rt: &R,
    alloc: Global,
    graph: &Graph,
    start: &Marking,
    traces: &[Trace],
) -> io::Result<()>
    requires room { HasRoom (length graph.now.names) start.now }
    requires few { All (λ (trace : Trace). length trace.events < 2 ^ 32) traces.now }
{
    let mut rounds = [0; ROUNDS];
    for round in 0..ROUNDS {
        let begun = Instant::now(rt)?;
        if judge_all(rt, alloc, graph, start, traces).is_err() {
            return Err(no_memory());
        }
        rounds[round] = begun.elapsed(rt)?.as_micros();
    }
    rounds.sort_unstable();
    println!(rt; "judged {}", rounds[ROUNDS / 2])?;
    Ok(())
}
