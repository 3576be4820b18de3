// What the rows have in common: the digest of their case, the bytes of their tapes, and how a tape is opened and goes on.
use crate::same::same;
use dcr_fakes::MemDisk;
use dcr_tape::{Tape, TapeCause, TapeEntry, open_tape};
use std::alloc::{AllocError, Global};
use std::process::Abort;
use std::test::Fail;

/// The digest of the rows' case.
pub(crate) const DIGEST: [u8; 32] = [7; 32];

/// The executions of the rows, in order.
pub(crate) const ENTRIES: [TapeEntry; 5] = [
    TapeEntry { event: 0, site: 0 },
    TapeEntry { event: 1, site: 0 },
    TapeEntry { event: 3, site: 1 },
    TapeEntry { event: 1, site: 0 },
    TapeEntry { event: 2, site: 1 },
];

/// A disk of these bytes, of which the calls of these numbers fail.
pub(crate) fn disk_of(alloc: Global, bytes: &[u8], failing: &[u32]) -> Result<MemDisk, AllocError> {
    Ok(MemDisk::new(alloc, bytes.to_vec(alloc)?, failing.to_vec(alloc)?))
}

/// The tape on such a disk, which is opened, and its executions.
pub(crate) fn opened(
    alloc: Global,
    bytes: &[u8],
    failing: &[u32],
) -> Result<(Tape<MemDisk>, Vec<TapeEntry>), Fail> {
    match open_tape(alloc, disk_of(alloc, bytes, failing)?, &DIGEST) {
        Ok(found) => Ok(found),
        Err(_) => Err(Fail::from("a tape that is opened")),
    }
}

/// Why these bytes are refused, as the tape of the case of this digest; none where they are opened.
pub(crate) fn refusal(
    alloc: Global,
    bytes: &[u8],
    digest: &[u8; 32],
) -> Result<Option<TapeCause>, AllocError> {
    let disk = disk_of(alloc, bytes, &[])?;
    let refused = open_tape(alloc, disk, digest).err();
    Ok(refused.map(|refused| refused.cause))
}

/// Puts executions on a tape, which takes them.
pub(crate) fn put(rt: &impl Abort, tape: &mut Tape<MemDisk>, entries: &[TapeEntry]) {
    for entry in entries {
        assert!(rt; !tape.stopped() && tape.renewed() && tape.entries() < 1_200_000);
        same(rt, &tape.append(*entry), &Ok(()), "an append");
    }
}

/// The disk of a tape that is renewed, and then takes these executions.
pub(crate) fn going_on(
    rt: &impl Abort,
    alloc: Global,
    mut tape: Tape<MemDisk>,
    entries: &[TapeEntry],
) -> MemDisk {
    assert!(rt; !tape.stopped());
    same(rt, &tape.renew(alloc), &Ok(()), "a renewal");
    put(rt, &mut tape, entries);
    tape.into_disk()
}

/// How many of the five executions are on the tape of these bytes; others are a failure. The tape goes on from there: with
/// the rest of the five put on it, it is opened again with all of them.
pub(crate) fn count_on(rt: &impl Abort, alloc: Global, bytes: &[u8]) -> Result<usize, Fail> {
    let (tape, entries) = opened(alloc, bytes, &[])?;
    let count = entries.len();
    let front = ENTRIES.get(..count).ok_or("at most five")?;
    let rest = ENTRIES.get(count..).ok_or("at most five")?;
    same(rt, &entries.as_slice(), &front, "the first executions");
    let disk = going_on(rt, alloc, tape, rest);
    let (_, all) = opened(alloc, disk.bytes(), &[])?;
    same(rt, &all.as_slice(), &ENTRIES.as_slice(), "all executions");
    Ok(count)
}

/// The tape of these executions, of version 1 or 2.
pub(crate) fn tape_of(
    alloc: Global,
    version: u8,
    entries: &[TapeEntry],
) -> Result<Vec<u8>, AllocError> {
    let mut bytes = b"DCRTAPE".to_vec(alloc)?;
    bytes.push(version)?;
    bytes.extend_from_slice(&DIGEST)?;
    bytes.extend_from_slice(&[0; 24])?;
    for (number, entry) in (0u32..).zip(entries) {
        let [a, b] = entry.event.to_be_bytes();
        let [c, d] = entry.site.to_be_bytes();
        let [w, x, y, z] = number.to_be_bytes();
        if version == 2 {
            bytes.extend_from_slice(&[1, a, b, c, d, w, x, y, z, 0, 0, 0])?;
        } else {
            bytes.extend_from_slice(&[1, a, b, c, d, 0, 0, 0])?;
        }
    }
    bytes.push(0)?;
    Ok(bytes)
}
