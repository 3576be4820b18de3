// The records of a part.
ghost use Rattle.std.specs.Prelude.{◌≡◌, ◌+◌, ◌<◌, ◌≤◌, ◌^◌, length, IsTrue, IfOk, IfErr};
ghost use Rattle.dcr_base.specs.Count.{CountsFault};
ghost use Rattle.dcr_base.specs.Disk.{Stays};
ghost use Rattle.dcr_tape.specs.Tape.{IsShut, HasRecords, record_at};
ghost use Rattle.dcr_tape.specs.Opening.{most_records};
ghost use Rattle.dcr_tape.specs.Found.{part_found, EndsReading, CountsCause};

use crate::find::FoundPart;
use crate::record::{Record, read_record};
use crate::tape::HEADER;
use crate::{TapeCause, TapeEntry};
use dcr_base::Disk;
use std::alloc::Global;

// How many records are read at most: one more than a tape has that is opened.
const MOST_READ: u32 = 1_000_001;

/// The entries of a part, up to the first gate that isn't open. Takes memory for them as they come.
pub(crate) fn read_records<D: Disk>(
    alloc: Global,
    disk: &mut D,
    part: FoundPart,
) -> Result<Vec<TapeEntry>, TapeCause>
    requires told { IsTrue (D.view disk.old).told }
    requires near { part.start ≤ 2 ^ 62 }
    ensures has_records { IfOk result (λ entries. HasRecords (D.view disk.old).content (part_found part) entries.items) }
    ensures shut { IfOk result (λ entries. IsShut (D.view disk.old).content (record_at (part_found part) (length entries.items))) }
    ensures few { IfOk result (λ entries. length entries.items ≤ most_records) }
    ensures cause { IfErr result (EndsReading (D.view disk.old).content (part_found part)) }
    ensures stays { Stays (D.view disk.old) (D.view disk.new) }
    ensures counts { CountsCause result (D.faults disk.old) (D.faults disk.new) }
{
    let mut entries = Vec::new(alloc);
    let mut at = part.start + HEADER;
    let size = part.width.size() as u64;
    for number in 0..MOST_READ {
        match read_record(disk, at, part.width, number)? {
            Record::Shut => return Ok(entries),
            Record::Bad => return Err(TapeCause::BadTape { at: number }),
            Record::Sound(entry) => entries.push(entry)?,
        }
        at += size;
    }
    Err(TapeCause::Long)
}
