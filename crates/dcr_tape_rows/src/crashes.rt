// Rows on a crash within each call of the disk, and on a fault of each.
use crate::same::same;
use crate::support::{DIGEST, ENTRIES, count_on, disk_of, going_on, opened, put, tape_of};
use dcr_fakes::MemDisk;
use dcr_tape::{DiskFault, RenewStop, TapeCause, open_tape};
use std::alloc::Global;
use std::process::Abort;
use std::test::Fail;

// What a crash makes of each write: all, nothing, bytes of 1, the first half, and each of these in turn.
const CHOICES: [u64; 6] = [
    0,
    0x5555_5555_5555_5555,
    0xAAAA_AAAA_AAAA_AAAA,
    0xFFFF_FFFF_FFFF_FFFF,
    0x1B1B_1B1B_1B1B_1B1B,
    0xE4E4_E4E4_E4E4_E4E4,
];

// That a crash within this call of the disk leaves so many executions, or so many.
fn expect_left(
    rt: &impl Abort,
    alloc: Global,
    disk: &MemDisk,
    call: u32,
    least: usize,
    most: usize,
) -> Result<(), Fail> {
    for choice in CHOICES {
        let image = disk.image(alloc, call, choice)?;
        let count = count_on(rt, alloc, &image)?;
        let is_left = count == least || count == most;
        same(rt, &(call, is_left), &(call, true), "what a crash leaves");
    }
    Ok(())
}

#[test]
fn a_crash_within_an_append_leaves_it_or_not(rt: HostRuntime) -> Result<(), Fail> {
    let (tape, _) = opened(rt.alloc(), &[], &[])?;
    let disk = going_on(&rt, rt.alloc(), tape, &ENTRIES);
    // Calls 1 to 4 make the tape; then four calls for each execution, of which the third one writes its gate.
    for done in 0..5u32 {
        let (before, kept) = (4 * done + 4, done as usize);
        for call in 1..=2 {
            expect_left(&rt, rt.alloc(), &disk, before + call, kept, kept)?;
        }
        for call in 3..=4 {
            expect_left(&rt, rt.alloc(), &disk, before + call, kept, kept + 1)?;
        }
    }
    expect_left(&rt, rt.alloc(), &disk, 25, 5, 5)
}

#[test]
fn each_call_of_making_and_of_an_append_fails_in_turn(rt: HostRuntime) -> Result<(), Fail> {
    for call in 1..=4u32 {
        let disk = disk_of(rt.alloc(), &[], &[call])?;
        let Err(refused) = open_tape(rt.alloc(), disk, &DIGEST) else {
            return Err(Fail::from("a fault is told"));
        };
        same(&rt, &refused.cause, &TapeCause::DiskFault, "making");
        let calls = refused.disk.calls().len();
        same(&rt, &calls, &(call as usize), "making");
    }
    for call in 1..=4u32 {
        let (mut tape, _) = opened(rt.alloc(), &[], &[8 + call])?;
        put(&rt, &mut tape, &ENTRIES[..1]);
        assert!(rt; !tape.stopped() && tape.renewed() && tape.entries() < 1_200_000);
        same(&rt, &tape.append(ENTRIES[1]), &Err(DiskFault), "an append");
        same(&rt, &tape.stopped(), &true, "an append");
        // The gate is written by the third call, and is there whether it is durable or not.
        let count = count_on(&rt, rt.alloc(), tape.into_disk().bytes())?;
        same(&rt, &count, &(if call == 4 { 2 } else { 1 }), "an append");
    }
    Ok(())
}

#[test]
fn a_crash_or_a_fault_within_the_renewal_keeps_the_executions(rt: HostRuntime) -> Result<(), Fail> {
    let old = tape_of(rt.alloc(), 1, &ENTRIES)?;
    let (tape, _) = opened(rt.alloc(), &old, &[])?;
    let disk = going_on(&rt, rt.alloc(), tape, &[]);
    let calls = u32::try_from(disk.calls().len()).ok().ok_or("few calls")?;
    for before in 0..5 {
        let call = calls.saturating_sub(before);
        expect_left(&rt, rt.alloc(), &disk, call, 5, 5)?;
        let (mut tape, _) = opened(rt.alloc(), &old, &[call])?;
        assert!(rt; !tape.stopped());
        let answer = tape.renew(rt.alloc());
        same(&rt, &answer, &Err(RenewStop::DiskFault), "a renewal");
        same(&rt, &tape.stopped(), &true, "a renewal");
        let count = count_on(&rt, rt.alloc(), tape.into_disk().bytes())?;
        same(&rt, &count, &5, "a renewal");
    }
    Ok(())
}
