//! Worked rows as data. The table on standard input has words, an input, a status and an output in each row; each is tried
//! through the top call over a source, a sink and a disk in memory. What is printed is how many rows hold, or the first one
//! that doesn't, with the status 1.
#![tactic(auto)]

mod row;
mod spell;
mod table;

use crate::table::Table;
use dcr_base::{Source, StdSource, read_all};
use std::alloc::Global;
use std::io;
use std::io::ErrorKind;
use std::process::ExitCode;
use std::sync::Wait;
use std::thread::Threads;

// More bytes than the table has.
const MAX_BYTES: usize = 33_554_432;

fn main(rt: HostRuntime) -> ExitCode {
    let mut input = StdSource::new(rt.reader());
    match try_all(&rt, rt.alloc(), &mut input) {
        Ok(()) => ExitCode::from(0),
        Err(_) => ExitCode::from(1),
    }
}

// Tries each row of the table on standard input, and prints how many hold. The first one that doesn't ends it.
fn try_all<I: Source, R: Threads + Wait + Print + Sync>(
    rt: &R,
    alloc: Global,
    input: &mut I,
) -> io::Result<()> {
    let Ok(bytes) = read_all(alloc, input, MAX_BYTES) else {
        return Err(io::Error::from(ErrorKind::InvalidInput));
    };
    let Ok(text) = str::from_utf8(&bytes) else {
        return Err(io::Error::from(ErrorKind::InvalidData));
    };
    let mut table = Table::new(alloc)?;
    for line in text.lines().chain(["="]) {
        if !take_or_tell(rt, alloc, &mut table, line)? {
            return Err(io::Error::from(ErrorKind::InvalidData));
        }
    }
    println!(rt; "{} rows hold", table.held())?;
    Ok(())
}

// Takes a line of the table. Where the row that it ends doesn't hold, or it has no meaning, that is printed.
fn take_or_tell<R: Threads + Wait + Print + Sync>(
    rt: &R,
    alloc: Global,
    table: &mut Table,
    line: &str,
) -> io::Result<bool> {
    let found = table.take(rt, alloc, line);
    match found {
        Ok(told) if told.is_empty() => Ok(true),
        Ok(told) => {
            println!(rt; "row {}: {told}", table.name())?;
            Ok(false)
        }
        Err(error) => {
            println!(rt;
                "row {}: this can't be read, or memory failed: {line}",
                table.name()
            )?;
            Err(error)
        }
    }
}
