// Worked rows: reading five thousand bytes, more than one chunk, in pieces, up to a limit, and with a fault in the middle.
use crate::same::same;
use dcr_base::{ReadStop, read_all};
use dcr_fakes::MemSource;
use std::alloc::Global;
use std::test::Fail;

// What comes of reading the bytes up to the limit, by at most so many a read of which the one of this number fails, and
// then how many are read of the rest.
fn read_twice(
    alloc: Global,
    bytes: &[u8],
    step: usize,
    failing: u32,
    limit: usize,
) -> Result<(Option<ReadStop>, bool, usize), Fail> {
    if step == 0 {
        return Err(Fail::from("no step"));
    }
    let failing = Vec::from_slice(alloc, &[failing])?;
    let mut source = MemSource::new(Vec::from_slice(alloc, bytes)?, step, failing);
    let (stop, is_whole) = match read_all(alloc, &mut source, limit) {
        Ok(read) => (None, read.as_slice() == bytes),
        Err(stop) => (Some(stop), false),
    };
    let rest = read_all(alloc, &mut source, 5000)?;
    Ok((stop, is_whole, rest.len()))
}

const TOO_LONG: Option<ReadStop> = Some(ReadStop::TooLong);

const FAULT: Option<ReadStop> = Some(ReadStop::ReadFault);

#[test]
fn reads_up_to_the_limit_and_stops_at_a_fault(rt: HostRuntime) -> Result<(), Fail> {
    let mut text = Vec::new(rt.alloc());
    for number in 0..5000u16 {
        text.push((number % 251) as u8)?;
    }
    for step in [1, 3, 4096, 4097, 5000] {
        for (limit, stop, rest) in [
            (5000, None, 0),
            (5001, None, 0),
            (usize::MAX, None, 0),
            (0, TOO_LONG, 4999),
            (1, TOO_LONG, 4998),
            (4095, TOO_LONG, 904),
            (4096, TOO_LONG, 903),
            (4999, TOO_LONG, 0),
        ] {
            let told = read_twice(rt.alloc(), &text, step, 0, limit)?;
            same(&rt, &told, &(stop, stop.is_none(), rest), "a limit");
        }
    }
    // Five reads give the bytes, and the sixth the end.
    for (failing, stop, rest) in [
        (1, FAULT, 5000),
        (2, FAULT, 4000),
        (4, FAULT, 2000),
        (6, FAULT, 0),
        (8, None, 0),
    ] {
        let told = read_twice(rt.alloc(), &text, 1000, failing, 6000)?;
        same(&rt, &told, &(stop, stop.is_none(), rest), "a fault");
    }
    let none = read_twice(rt.alloc(), b"", 1, 0, 0)?;
    same(&rt, &none, &(None, true, 0), "no byte, and no room for one");
    Ok(())
}
