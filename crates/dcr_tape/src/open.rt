ghost use Rattle.std.specs.Prelude.{◌≡◌, ◌≤◌, ◌^◌, [], length, false, IsTrue, IfOk, IfErr, OnOk};
ghost use Rattle.dcr_base.specs.Disk.{Stays, Torn, Wrote, IsSteady, LeavesOnly};
ghost use Rattle.dcr_tape.specs.Tape.{Holds, part_bytes};
ghost use Rattle.dcr_tape.specs.Opening.{Opened, Refused, IsCause, most_records};
ghost use Rattle.dcr_tape.specs.Found.{part_found, CountsCause, CountsFaultOf};
ghost use Rattle.dcr_tape.specs.Kept.{TapeHolds, KeptForRenewal, part_of, width_by};

use crate::durable::write_durably;
use crate::find::{FoundPart, find_part};
use crate::records::read_records;
use crate::width::Width;
use crate::{Tape, TapeCause, TapeEntry};
use dcr_base::Disk;
use std::alloc::{AllocError, Global};

/// A disk that was not opened as a tape: the cause, and the disk. Where its content wasn't empty, it is as it was.
#[derive(Drop)]
pub struct TapeRefused<D> {
    pub cause: TapeCause,
    pub disk: D,
}

/// Opens a disk as the tape of the case with this digest, and answers the executions that it stands for. It syncs the
/// disk and asks for its length. An empty disk is made a tape of no executions, by one write and one sync; else the
/// tape is read, a record at a time, and nothing is written.
///
/// `NotTape`, `OtherGraph`, `BadTape` and `Long` come in this order, each exactly where it stands in the content
/// (`IsCause`); where none does the content stands for the executions that are answered (`Holds`). `DiskFault` comes
/// where a call of the disk failed, `NoMemory` where there was no room for the entries.
pub fn open_tape<D: Disk>(
    alloc: Global,
    disk: D,
    digest: &[u8; 32],
) -> Result<(Tape<D>, Vec<TapeEntry>), TapeRefused<D>>
    ensures opened { IfOk result (λ opened. Opened (D.view disk) (D.view opened.0.disk)
        digest.now (part_of opened.0) opened.1.items) }
    ensures keeps { IfOk result (λ opened. TapeHolds D.view opened.0 opened.1.items) }
    ensures running { IfOk result (λ opened. opened.0.stopped ≡ false) }
    ensures refused { IfErr result (λ refused. Refused (D.view disk) (D.view refused.disk)
        digest.now refused.cause) }
    ensures ok_counts_none { IfOk result (λ opened. D.faults opened.0.disk ≡ D.faults disk) }
    ensures counts { IfErr result (λ refused. CountsFaultOf refused.cause
        (D.faults disk) (D.faults refused.disk)) }
{
    let mut disk = disk;
    match open_disk(alloc, &mut disk, digest) {
        Ok(found) => Ok((
            Tape {
                disk,
                start: found.part.start,
                digest: found.part.digest,
                count: found.entries.len() as u32,
                unrenewed: found.unrenewed,
                stopped: false,
            },
            found.entries,
        )),
        Err(cause) => Err(TapeRefused { cause, disk }),
    }
}

// What was found on a disk: the part, its entries, and of a part of width 8 the entries once more.
#[derive(Drop)]
struct Found {
    part: FoundPart,
    entries: Vec<TapeEntry>,
    unrenewed: Option<Vec<TapeEntry>>,
}

fn open_disk<D: Disk>(alloc: Global, disk: &mut D, digest: &[u8; 32]) -> Result<Found, TapeCause>
    ensures opened { IfOk result (λ found. Opened (D.view disk.old) (D.view disk.new)
        digest.now (part_found found.part) found.entries.items) }
    ensures near { IfOk result (λ found. found.part.start ≤ 2 ^ 62) }
    ensures width { IfOk result (λ found. width_by found.unrenewed ≡ found.part.width) }
    ensures old { IfOk result (λ found. KeptForRenewal found.unrenewed found.entries.items) }
    ensures refused { IfErr result (Refused (D.view disk.old) (D.view disk.new) digest.now) }
    ensures counts { CountsCause result (D.faults disk.old) (D.faults disk.new) }
{
    disk.sync()?;
    let len = disk.len()?;
    if len == 0 {
        make(disk, digest)?;
        return Ok(Found {
            part: FoundPart {
                start: 0,
                width: Width::Twelve,
                digest: *digest,
            },
            entries: Vec::new(alloc),
            unrenewed: None,
        });
    }
    let found = recover(alloc, disk, len, digest)?;
    Ok(found)
}

// Makes an empty disk a tape of no executions.
fn make<D: Disk>(disk: &mut D, digest: &[u8; 32]) -> Result<(), TapeCause>
    ensures made { OnOk result (Wrote 0 (part_bytes digest.now []) (D.view disk.old) (D.view disk.new)) }
    ensures steady { IsSteady (D.view disk.old) → OnOk result (IsSteady (D.view disk.new)) }
    ensures any_moment { IsSteady (D.view disk.old) → LeavesOnly (D.view disk.old) (D.view disk.new)
        (Torn 0 (length (part_bytes digest.now [])) (D.view disk.old).content) }
    ensures honest { (D.view disk.new).honest ≡ (D.view disk.old).honest }
    ensures cause { IfErr result (λ cause. cause ≡ TapeCause.DiskFault) }
    ensures counts { CountsCause result (D.faults disk.old) (D.faults disk.new) }
{
    let bytes = empty_part(digest);
    write_durably(disk, 0, &bytes)?;
    Ok(())
}

// The header of a part of width 12, and a gate that isn't open.
fn empty_part(digest: &[u8; 32]) -> [u8; 65]
    ensures { result ≡ part_bytes digest.now [] }
{
    let mut bytes = [0; 65];
    bytes[..8].copy_from_slice(b"DCRTAPE\x02");
    bytes[8..40].copy_from_slice(digest);
    bytes
}

// The tape on a disk that isn't empty.
fn recover<D: Disk>(
    alloc: Global,
    disk: &mut D,
    len: u64,
    digest: &[u8; 32],
) -> Result<Found, TapeCause>
    requires told { IsTrue (D.view disk.old).told }
    requires length { len ≡ length (D.view disk.old).content }
    ensures holds { IfOk result (λ found.
        Holds (D.view disk.old).content (part_found found.part) found.entries.items) }
    ensures same_case { IfOk result (λ found. found.part.digest ≡ digest.now) }
    ensures near { IfOk result (λ found. found.part.start ≤ 2 ^ 62) }
    ensures few { IfOk result (λ found. length found.entries.items ≤ most_records) }
    ensures width { IfOk result (λ found. width_by found.unrenewed ≡ found.part.width) }
    ensures old { IfOk result (λ found. KeptForRenewal found.unrenewed found.entries.items) }
    ensures cause { IfErr result (IsCause digest.now (D.view disk.old).content) }
    ensures stays { Stays (D.view disk.old) (D.view disk.new) }
    ensures counts { CountsCause result (D.faults disk.old) (D.faults disk.new) }
{
    let Some(part) = find_part(disk, len)? else {
        return Err(TapeCause::NotTape);
    };
    if part.digest != *digest {
        return Err(TapeCause::OtherGraph { found: part.digest });
    }
    let entries = read_records(alloc, disk, part)?;
    let unrenewed = kept_for_renewal(alloc, part.width, &entries)?;
    Ok(Found {
        part,
        entries,
        unrenewed,
    })
}

// Of a part of width 8 its entries once more.
fn kept_for_renewal(
    alloc: Global,
    width: Width,
    entries: &[TapeEntry],
) -> Result<Option<Vec<TapeEntry>>, AllocError>
    ensures width { IfOk result (λ old. width_by old ≡ width) }
    ensures old { IfOk result (λ old. KeptForRenewal old entries.now) }
{
    match width {
        Width::Eight => Ok(Some(entries.to_vec(alloc)?)),
        Width::Twelve => Ok(None),
    }
}
