ghost use Rattle.std.specs.Prelude.{◌≡◌, ◌⊎◌, ◌+◌, ◌*◌, ◌≤◌, ℕ, List, true, false, None, length, IsOk, IsErrOf, IfOk, OnOk, OnErr};
ghost use Rattle.dcr_base.specs.Count.{CountsFault, Rose};
ghost use Rattle.dcr_base.specs.Disk.{IsSteady, LeavesOnly};
ghost use Rattle.dcr_tape.specs.Tape.{StandsFor, part_bytes};
ghost use Rattle.dcr_tape.specs.Renewing.{TornTwice, WroteTwice};

use crate::durable::write_durably;
use crate::tape::payload;
use crate::{RenewStop, Tape, TapeEntry};
use dcr_base::{Disk, Failed};
use std::alloc::{AllocError, Global};

// Where a tape of version 1 tells that it was renewed.
const SWITCH: u64 = 40;

// Where it tells where the part begins that was renewed.
const POINTER: u64 = 41;

impl<D: Disk> Tape<D> {
    ghost use Rattle.dcr_tape.specs.Kept.{TapeHolds};

    /// Rewrites a tape of version 1 behind its end with records of 12 bytes, and switches it over: a write of the new
    /// part, a write of where it begins, a sync, a write of the switch, a sync. A tape that is renewed is left alone,
    /// with no call of the disk. The tape isn't stopped. Takes memory for the new part, before the first write.
    ///
    /// A crash at any moment leaves the same entries. `DiskFault` comes where a call of the disk failed; the tape is
    /// then stopped. After `NoMemory` the tape is as it was.
    pub fn renew(&mut self, alloc: Global) -> Result<(), RenewStop>
        requires running { self.old.stopped ≡ false }

        ensures kept { (E : List TapeEntry) → TapeHolds D.view self.old E
            → OnOk result (TapeHolds D.view self.new E) }
        ensures any_moment { (E : List TapeEntry) → TapeHolds D.view self.old E
            → IsSteady (D.view self.old.disk)
            → LeavesOnly (D.view self.old.disk) (D.view self.new.disk) (StandsFor self.old.digest E) }
        ensures steady { (E : List TapeEntry) → TapeHolds D.view self.old E
            → IsSteady (D.view self.old.disk) → OnOk result (IsSteady (D.view self.new.disk)) }

        ensures renewed { OnOk result (self.new.unrenewed ≡ None) }
        ensures running { OnOk result (self.new.stopped ≡ false) }
        ensures same { (self.new.digest ≡ self.old.digest) × (self.new.count ≡ self.old.count) }
        ensures no_call { self.old.unrenewed ≡ None → IsOk result × (self.new ≡ self.old) }
        ensures no_memory { IsErrOf result RenewStop.NoMemory → self.new ≡ self.old }
        ensures stopped { IsErrOf result RenewStop.DiskFault → (self.new.stopped ≡ true)
            × (D.faults self.old.disk ≤ D.faults self.new.disk)
            × Rose (D.faults self.old.disk) (D.faults self.new.disk) }
        ensures ok_counts_none { OnOk result (D.faults self.new.disk ≡ D.faults self.old.disk) }
    {
        let Some(entries) = &self.unrenewed else {
            return Ok(());
        };
        let part = wide_part(alloc, &self.digest, entries)?;
        self.stopped = true;
        let start = 65 + 8 * u64::from(self.count);
        write_part(&mut self.disk, start, &part)?;
        write_durably(&mut self.disk, SWITCH, &[1])?;
        self.start = start;
        self.unrenewed = None;
        self.stopped = false;
        Ok(())
    }
}

// Writes the part, and where it begins, and makes both durable.
fn write_part<D: Disk>(disk: &mut D, start: u64, part: &[u8]) -> Result<(), Failed>
    ensures wrote { OnOk result (WroteTwice start part.now (D.view disk.old) (D.view disk.new)) }
    ensures any_moment { IsSteady (D.view disk.old) → LeavesOnly (D.view disk.old) (D.view disk.new)
        (TornTwice start (length part.now) (D.view disk.old).content) }
    ensures steady { IsSteady (D.view disk.old) → OnOk result (IsSteady (D.view disk.new)) }
    ensures counts { CountsFault result (D.faults disk.old) (D.faults disk.new) }
{
    disk.write_at(start, part)?;
    disk.write_at(POINTER, &start.to_be_bytes())?;
    disk.sync()?;
    Ok(())
}

// A part of width 12 with these entries.
fn wide_part(alloc: Global, digest: &[u8; 32], entries: &[TapeEntry]) -> Result<Vec<u8>, AllocError>
    requires { length entries.now ≤ 1200000 }
    ensures { IfOk result (λ part. part.items ≡ part_bytes digest.now entries.now) }
{
    let mut part = Vec::new(alloc);
    part.extend_from_slice(b"DCRTAPE\x02")?;
    part.extend_from_slice(digest)?;
    part.extend_from_slice(&[0; 24])?;
    for (number, entry) in entries.iter().enumerate() {
        part.push(1)?;
        part.extend_from_slice(&payload(*entry, number as u32)[..11])?;
    }
    part.push(0)?;
    Ok(part)
}
