//! What an append costs beside the two syncs that it makes, on the file system of the current folder: 5,000 appends to
//! the tape of a real file, and 5,000 times two syncs, each behind a write of as many bytes as an append makes there, in
//! turn by ten, so that what else the machine does falls on both. With the word `time` both are timed and the
//! microseconds printed; without it each is made three times and nothing is printed. The files `dcr.tape` and
//! `plain.sync` are made anew, and removed.
#![tactic(auto)]

ghost use Rattle.std.specs.Prelude.{◌≤◌};

use dcr_base::FileDisk;
use dcr_tape::{Tape, TapeEntry, open_tape};
use std::fs::{File, OpenOptions};
use std::os::unix::fs::FileExt;
use std::process::ExitCode;
use std::time::{Duration, Instant};
use std::{env, fs, io};

fn main(rt: HostRuntime) -> ExitCode {
    match run(&rt) {
        Ok(()) => ExitCode::from(0),
        Err(_) => ExitCode::from(1),
    }
}

fn run(rt: &HostRuntime) -> io::Result<()> {
    let timed = env::args(rt)?.any(|word| word.as_str() == "time");
    let (turns, count) = if timed { (500, 10) } else { (1, 3) };
    let (appended, synced) = both(rt, turns, count)?;
    if timed {
        println!(rt; "{} {}", appended.as_micros(), synced.as_micros())?;
    }
    fs::remove_file(rt, "dcr.tape")?;
    fs::remove_file(rt, "plain.sync")
}

// How long the appends took, and the syncs, so many of each in a turn.
fn both(rt: &HostRuntime, turns: u32, count: u32) -> io::Result<(Duration, Duration)> {
    let _ = fs::remove_file(rt, "dcr.tape");
    let disk = FileDisk::new(rt.alloc(), rt.clone()?);
    let Ok((mut tape, _)) = open_tape(rt.alloc(), disk, &[7; 32]) else {
        return Err(io::Error::from(io::ErrorKind::Other));
    };
    let file = plain_file(rt)?;
    let mut appended = Duration::ZERO;
    let mut synced = Duration::ZERO;
    for turn in 0..turns {
        let begun = Instant::now(rt)?;
        appends(&mut tape, count)?;
        appended = appended.saturating_add(begun.elapsed(rt)?);
        let begun = Instant::now(rt)?;
        syncs(&file, turn.saturating_mul(count), count)?;
        synced = synced.saturating_add(begun.elapsed(rt)?);
    }
    Ok((appended, synced))
}

// So many appends to a tape.
fn appends(tape: &mut Tape<FileDisk<HostRuntime>>, count: u32) -> io::Result<()> {
    for _ in 0..count {
        if tape.stopped() || !tape.renewed() || tape.entries() >= 1_200_000 {
            return Err(io::Error::from(io::ErrorKind::Other));
        }
        if tape.append(TapeEntry { event: 1, site: 1 }).is_err() {
            return Err(io::Error::from(io::ErrorKind::Other));
        }
    }
    Ok(())
}

// A file of as many bytes as a new tape has.
fn plain_file(rt: &HostRuntime) -> io::Result<File> {
    let file = OpenOptions::new()
        .read(true)
        .write(true)
        .create(true)
        .truncate(true)
        .open(rt, "plain.sync")?;
    file.write_all_at(&[0; 65], 0)?;
    file.sync_all()?;
    Ok(file)
}

// So many times two syncs, behind so many that were made before: one behind a write of twelve bytes at the end, one
// behind a write of one byte before it.
fn syncs(file: &File, first: u32, count: u32) -> io::Result<()> {
    for number in 0..count {
        two_syncs(file, 65 + 12 * (u64::from(first) + u64::from(number)))?;
    }
    Ok(())
}

fn two_syncs(file: &File, end: u64) -> io::Result<()>
    requires { 1 ≤ end }
{
    file.write_all_at(&[0, 1, 0, 1, 0, 0, 0, 0, 0, 0, 0, 0], end)?;
    file.sync_data()?;
    file.write_all_at(&[1], end - 1)?;
    file.sync_data()
}
