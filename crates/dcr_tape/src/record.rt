// One record of a tape.
ghost use Rattle.std.specs.Prelude.{◌≡◌, ◌≤◌, ℕ, [], ◌∷◌, length, slice_index, IsTrue, IfOk};
ghost use Rattle.dcr_base.specs.Count.{CountsFault};
ghost use Rattle.dcr_base.specs.Disk.{Stays};
ghost use Rattle.dcr_tape.specs.Tape.{size_of, two_bytes};
ghost use Rattle.dcr_tape.specs.Found.{IsRecord};
ghost use Rattle.dcr_tape.specs.declared.width.Width.TheVariants.{Eight, Twelve};

use crate::TapeEntry;
use crate::width::Width;
use dcr_base::{Disk, Failed};

/// What stands where a record would begin.
#[derive(Clone, Copy, Debug, PartialEq, Eq)]
pub(crate) enum Record {
    /// A gate that isn't open.
    Shut,
    /// No gate, or one that is open, with a record that isn't sound.
    Bad,
    /// An open gate, and a sound record of this entry.
    Sound(TapeEntry),
}

/// Reads what stands at an offset, where the record with this number would begin.
pub(crate) fn read_record<D: Disk>(
    disk: &mut D,
    at: u64,
    width: Width,
    number: u32,
) -> Result<Record, Failed>
    requires told { IsTrue (D.view disk.old).told }
    ensures read { IfOk result (IsRecord (D.view disk.old).content width number at) }
    ensures stays { Stays (D.view disk.old) (D.view disk.new) }
    ensures counts { CountsFault result (D.faults disk.old) (D.faults disk.new) }
{
    let mut bytes = [0; 12];
    let size = width.size();
    let n = disk.read(at, &mut bytes[..size])?;
    Ok(judge(&bytes[..n], width, number))
}

// What these bytes are, of which there are fewer than a record has only where the content ends.
fn judge(bytes: &[u8], width: Width, number: u32) -> Record
    requires { length bytes.now ≤ size_of width }
    ensures { IsRecord bytes.now width number 0 result }
{
    if bytes.is_empty() {
        return Record::Bad;
    }
    if bytes[0] != 1 {
        return Record::Shut;
    }
    if bytes.len() < width.size() {
        return Record::Bad;
    }
    match width {
        Width::Eight => judge_eight(bytes),
        Width::Twelve => judge_twelve(bytes, number),
    }
}

// What these eight bytes are, the first of which is an open gate.
fn judge_eight(bytes: &[u8]) -> Record
    requires long { length bytes.now ≡ 8 }
    requires opened { slice_index bytes.now 0 ≡ 1 }
    ensures { (number : ℕ) → IsRecord bytes.now Eight number 0 result }
{
    if bytes[5] != 0 || bytes[6] != 0 || bytes[7] != 0 {
        return Record::Bad;
    }
    Record::Sound(TapeEntry {
        event: two(bytes[1], bytes[2]),
        site: two(bytes[3], bytes[4]),
    })
}

// What these twelve bytes are, the first of which is an open gate.
fn judge_twelve(bytes: &[u8], number: u32) -> Record
    requires long { length bytes.now ≡ 12 }
    requires opened { slice_index bytes.now 0 ≡ 1 }
    ensures { IsRecord bytes.now Twelve number 0 result }
{
    if bytes[9] != 0 || bytes[10] != 0 || bytes[11] != 0 {
        return Record::Bad;
    }
    if [bytes[5], bytes[6], bytes[7], bytes[8]] != number.to_be_bytes() {
        return Record::Bad;
    }
    Record::Sound(TapeEntry {
        event: two(bytes[1], bytes[2]),
        site: two(bytes[3], bytes[4]),
    })
}

// The number of two bytes.
fn two(high: u8, low: u8) -> u16
    ensures { two_bytes result ≡ high ∷ low ∷ [] }
{
    u16::from(high) * 256 + u16::from(low)
}
