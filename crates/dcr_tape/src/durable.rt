ghost use Rattle.std.specs.Prelude.{◌≡◌, length, OnOk};
ghost use Rattle.dcr_base.specs.Count.{CountsFault};
ghost use Rattle.dcr_base.specs.Disk.{IsSteady, LeavesOnly, Torn, Wrote};

use dcr_base::{Disk, Failed};

/// Writes bytes from an offset on, and makes them durable: a write and a sync. From a disk with nothing pending a crash
/// at any moment leaves what a torn write may leave.
pub(crate) fn write_durably<D: Disk>(disk: &mut D, at: u64, bytes: &[u8]) -> Result<(), Failed>
    ensures wrote { OnOk result (Wrote at bytes.now (D.view disk.old) (D.view disk.new)) }
    ensures any_moment { IsSteady (D.view disk.old) → LeavesOnly (D.view disk.old) (D.view disk.new)
        (Torn at (length bytes.now) (D.view disk.old).content) }
    ensures steady { IsSteady (D.view disk.old) → OnOk result (IsSteady (D.view disk.new)) }
    ensures honest { (D.view disk.new).honest ≡ (D.view disk.old).honest }
    ensures counts { CountsFault result (D.faults disk.old) (D.faults disk.new) }
{
    disk.write_at(at, bytes)?;
    disk.sync()?;
    Ok(())
}
