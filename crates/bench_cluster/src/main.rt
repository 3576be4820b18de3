//! What the calls of a case cost through a cluster, by one, two and four threads, beside the list of sites, which has no
//! lock. A case is read from standard input. Each session's calls are made in order, by one thread, and the sessions are
//! dealt out to the threads in equal parts. Without words each is run once, and the number of entries printed; with the
//! word `time` each is run seven times, in turn, so that what else the machine does falls on all, and the middle number
//! of microseconds is printed. Opening and closing are not timed.
#![tactic(auto)]

ghost use Rattle.std.specs.Prelude.{IfOk};
ghost use Rattle.dcr_json.specs.Built.{IsCase};

mod making;

use crate::making::{clustered, listed};
use dcr_base::{StdSource, read_all};
use dcr_json::{Case, read_case};
use std::alloc::Global;
use std::io::ErrorKind;
use std::process::ExitCode;
use std::rt::Clock;
use std::sync::Wait;
use std::thread::Threads;
use std::time::Duration;
use std::{env, io};

// More bytes than any case has.
const MAX_BYTES: usize = 33_554_432;

// How many threads make the calls of a cluster.
const THREADS: [usize; 3] = [1, 2, 4];

fn main(rt: HostRuntime) -> ExitCode {
    let Ok(case) = read(&rt) else {
        return ExitCode::from(1);
    };
    let Ok(mut words) = env::args(&rt) else {
        return ExitCode::from(1);
    };
    let ended = if words.any(|word| word.as_str() == "time") {
        time(&rt, rt.alloc(), &case)
    } else {
        count(&rt, rt.alloc(), &case)
    };
    match ended {
        Ok(()) => ExitCode::from(0),
        Err(_) => ExitCode::from(1),
    }
}

// The case on standard input.
fn read(rt: &HostRuntime) -> io::Result<Case>
    ensures { IfOk result IsCase }
{
    let mut input = StdSource::new(rt.reader());
    let Ok(bytes) = read_all(rt.alloc(), &mut input, MAX_BYTES) else {
        return Err(io::Error::from(ErrorKind::InvalidInput));
    };
    let Ok(case) = read_case(rt.alloc(), &bytes) else {
        return Err(io::Error::from(ErrorKind::InvalidData));
    };
    Ok(case)
}

// Runs each once and prints how many entries there are.
fn count<R: Threads + Wait + Clock + Print + Sync>(
    rt: &R,
    alloc: Global,
    case: &Case,
) -> io::Result<()>
    requires { IsCase case.now }
{
    let (entries, _) = listed(rt, alloc, case)?;
    println!(rt; "list {entries}")?;
    for threads in THREADS {
        let (entries, _) = clustered(rt, alloc, case, threads)?;
        println!(rt; "cluster {threads} {entries}")?;
    }
    Ok(())
}

// Runs each in turn and prints the middle number of microseconds.
fn time<R: Threads + Wait + Clock + Print + Sync>(
    rt: &R,
    alloc: Global,
    case: &Case,
) -> io::Result<()>
    requires { IsCase case.now }
{
    let mut times = [Times::new(), Times::new(), Times::new(), Times::new()];
    for round in 0..ROUNDS {
        let (_, took) = listed(rt, alloc, case)?;
        times[0].note(round, took);
        for (place, threads) in THREADS.into_iter().enumerate() {
            let (_, took) = clustered(rt, alloc, case, threads)?;
            times[place + 1].note(round, took);
        }
    }
    println!(rt; "list {}", times[0].middle())?;
    for (place, threads) in THREADS.into_iter().enumerate() {
        println!(rt; "cluster {threads} {}", times[place + 1].middle())?;
    }
    Ok(())
}

const ROUNDS: usize = 7;

// How many microseconds each round took.
#[derive(Clone, Copy)]
struct Times {
    rounds: [u128; ROUNDS],
}

impl Times {
    fn new() -> Times {
        Times {
            rounds: [0; ROUNDS],
        }
    }

    fn note(&mut self, round: usize, took: Duration) {
        if round < ROUNDS {
            self.rounds[round] = took.as_micros();
        }
    }

    fn middle(&self) -> u128 {
        let mut sorted = self.rounds;
        sorted.sort_unstable();
        sorted[ROUNDS / 2]
    }
}
