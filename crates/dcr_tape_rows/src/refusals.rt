// Rows on bytes that are no tape of the case, and on what isn't the tape's to refuse.
ghost use Rattle.std.specs.Prelude.{◌<◌};

use crate::same::same;
use crate::support::{DIGEST, ENTRIES, opened, refusal, tape_of};
use dcr_tape::{TapeCause, TapeEntry};
use std::alloc::{AllocError, Global};
use std::process::Abort;
use std::test::Fail;

#[test]
fn another_case_is_told_with_the_digest_that_was_found(rt: HostRuntime) -> Result<(), Fail> {
    let found = Some(TapeCause::OtherGraph { found: DIGEST });
    for version in [1, 2] {
        let tape = tape_of(rt.alloc(), version, &ENTRIES)?;
        let cause = refusal(rt.alloc(), &tape, &[8; 32])?;
        same(&rt, &cause, &found, "another case");
    }
    // What the graph refuses is read.
    let odd = TapeEntry {
        event: 1024,
        site: 2304,
    };
    let (_, entries) = opened(rt.alloc(), &tape_of(rt.alloc(), 2, &[odd])?, &[])?;
    same(&rt, &entries.as_slice(), &[odd].as_slice(), "any execution");
    Ok(())
}

// That the bytes are no tape where there are fewer than 65 of them, and that record R is told where its gate or its rest is
// missing; of the records each has so many bytes.
fn expect_fronts(rt: &impl Abort, alloc: Global, tape: &[u8], width: u32) -> Result<(), AllocError>
    requires { 0 < width }
{
    let mut front = Vec::new(alloc);
    for (count, byte) in (0u32..).zip(tape) {
        let cause = if count < 65 {
            TapeCause::NotTape
        } else {
            TapeCause::BadTape {
                at: (count - 64) / width,
            }
        };
        // No bytes at all are a disk on which a tape may be made.
        if count > 0 {
            let found = refusal(alloc, &front, &DIGEST)?;
            same(rt, &(count, found), &(count, Some(cause)), "a front");
        }
        front.push(*byte)?;
    }
    let found = refusal(alloc, &front, &DIGEST)?;
    same(rt, &found, &None, "the whole tape");
    Ok(())
}

#[test]
fn each_proper_front_of_a_tape_is_refused(rt: HostRuntime) -> Result<(), Fail> {
    let alloc = rt.alloc();
    expect_fronts(&rt, alloc, &tape_of(alloc, 2, &ENTRIES)?, 12)?;
    expect_fronts(&rt, alloc, &tape_of(alloc, 1, &ENTRIES)?, 8)?;
    Ok(())
}

#[test]
fn a_million_executions_are_read_and_no_more(rt: HostRuntime) -> Result<(), Fail> {
    let mut entries = Vec::new(rt.alloc());
    for _ in 0..1_000_001u32 {
        entries.push(TapeEntry { event: 0, site: 0 })?;
    }
    let mut tape = tape_of(rt.alloc(), 2, &entries)?;
    let found = refusal(rt.alloc(), &tape, &DIGEST)?;
    same(&rt, &found, &Some(TapeCause::Long), "one more");
    // The gate of the last one is shut.
    if let Some(gate) = tape.get_mut(12_000_064) {
        *gate = 0;
    }
    let found = refusal(rt.alloc(), &tape, &DIGEST)?;
    same(&rt, &found, &None, "a million");
    Ok(())
}
