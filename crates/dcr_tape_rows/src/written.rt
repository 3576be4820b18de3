// Rows on what is written: each call of the disk, and the bytes that it leaves.
use crate::same::same;
use crate::support::{ENTRIES, going_on, opened, tape_of};
use dcr_fakes::DiskCall;
use dcr_tape::TapeEntry;
use std::test::Fail;

// What a call of the disk that succeeded has written, and from which offset on; no bytes at 0 for a sync. None where there
// is no such call.
fn wrote(calls: &[DiskCall], number: usize) -> Option<(u64, &[u8])> {
    match calls.get(number)? {
        DiskCall::Write {
            at,
            bytes,
            failed: false,
        } => Some((*at, bytes.as_slice())),
        DiskCall::Sync { failed: false } => Some((0, &[])),
        _ => None,
    }
}

// The five executions behind the header of version 2.
const RECORDS: [u8; 61] = [
    1, 0, 0, 0, 0, 0, 0, 0, 0, 0, 0, 0, 1, 0, 1, 0, 0, 0, 0, 0, 1, 0, 0, 0, 1, 0, 3, 0, 1, 0, 0, 0,
    2, 0, 0, 0, 1, 0, 1, 0, 0, 0, 0, 0, 3, 0, 0, 0, 1, 0, 2, 0, 1, 0, 0, 0, 4, 0, 0, 0, 0,
];

#[test]
fn making_and_each_append_make_four_calls(rt: HostRuntime) -> Result<(), Fail> {
    let (tape, none) = opened(rt.alloc(), &[], &[])?;
    same(&rt, &none.len(), &0, "an empty disk is made a tape");
    // A tape of version 2 is not renewed.
    let disk = going_on(&rt, rt.alloc(), tape, &ENTRIES);
    let bytes = disk.bytes();
    let wanted = tape_of(rt.alloc(), 2, &ENTRIES)?;
    same(&rt, &bytes, &wanted.as_slice(), "the bytes");
    let behind = Some(RECORDS.as_slice());
    same(&rt, &bytes.get(64..), &behind, "behind the header");
    // Making: a sync, the length, a write, a sync. Then four calls for each execution, here those of the third.
    let calls = disk.calls();
    same(&rt, &calls.len(), &24, "calls of the disk");
    let sync: Option<(u64, &[u8])> = Some((0, &[]));
    let payload = [0, 3, 0, 1, 0, 0, 0, 2, 0, 0, 0, 0];
    same(&rt, &wrote(calls, 0), &sync, "call 0");
    same(&rt, &wrote(calls, 1), &None, "call 1");
    same(&rt, &wrote(calls, 3), &sync, "call 3");
    same(&rt, &wrote(calls, 12), &Some((89, &payload)), "call 12");
    same(&rt, &wrote(calls, 13), &sync, "call 13");
    same(&rt, &wrote(calls, 14), &Some((88, &[1])), "call 14");
    same(&rt, &wrote(calls, 15), &sync, "call 15");
    let (tape, entries) = opened(rt.alloc(), bytes, &[])?;
    same(&rt, &entries.as_slice(), &ENTRIES.as_slice(), "again");
    same(
        &rt,
        &(tape.renewed(), tape.stopped()),
        &(true, false),
        "again",
    );
    same(&rt, &tape.into_disk().bytes(), &bytes, "the bytes again");
    Ok(())
}

#[test]
fn a_renewal_makes_five_calls(rt: HostRuntime) -> Result<(), Fail> {
    let old = tape_of(rt.alloc(), 1, &ENTRIES)?;
    same(&rt, &old.len(), &105, "a tape of version 1");
    let (tape, entries) = opened(rt.alloc(), &old, &[])?;
    same(&rt, &entries.as_slice(), &ENTRIES.as_slice(), "an old tape");
    same(&rt, &tape.renewed(), &false, "an old tape");
    let before = tape.into_disk().calls().len();
    let (tape, _) = opened(rt.alloc(), &old, &[])?;
    let more = TapeEntry { event: 2, site: 1 };
    let disk = going_on(&rt, rt.alloc(), tape, &[more]);
    let calls = disk.calls().get(before..).ok_or("the renewal")?;
    let sync: Option<(u64, &[u8])> = Some((0, &[]));
    let part = tape_of(rt.alloc(), 2, &ENTRIES)?;
    let place = [0, 0, 0, 0, 0, 0, 0, 0x69];
    same(
        &rt,
        &wrote(calls, 0),
        &Some((105, part.as_slice())),
        "call 0",
    );
    same(&rt, &wrote(calls, 1), &Some((41, &place)), "call 1");
    same(&rt, &wrote(calls, 2), &sync, "call 2");
    same(&rt, &wrote(calls, 3), &Some((40, &[1])), "call 3");
    same(&rt, &wrote(calls, 4), &sync, "call 4");
    // And the append four.
    same(&rt, &calls.len(), &9, "calls of the disk");
    same(&rt, &disk.bytes().len(), &242, "the bytes");
    let (tape, entries) = opened(rt.alloc(), disk.bytes(), &[])?;
    same(&rt, &tape.renewed(), &true, "a renewed tape");
    same(
        &rt,
        &entries.get(..5),
        &Some(ENTRIES.as_slice()),
        "the old ones",
    );
    same(&rt, &entries.get(5..), &Some([more].as_slice()), "one more");
    Ok(())
}
