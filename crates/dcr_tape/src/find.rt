// The part of a tape that is in force.
ghost use Rattle.std.specs.Prelude.{◌≡◌, ◌+◌, ◌≤◌, length, IsTrue, IfOk, MatchOption};
ghost use Rattle.dcr_base.specs.Count.{CountsFault};
ghost use Rattle.dcr_base.specs.Disk.{Stays, bytes_at};
ghost use Rattle.dcr_tape.specs.Tape.{Part, InForce};
ghost use Rattle.dcr_tape.specs.Found.{part_found, HasNoPartAt, IsPartAt};

use crate::head::{digest_in, is_new_head, is_old_head, start_in};
use crate::width::Width;
use dcr_base::{Disk, Failed};

// The largest offset at which a part begins.
const FARTHEST: u64 = 1 << 62;

// How many bytes a part has at least.
const LEAST: u64 = 65;

// Where a tape of version 1 tells that it was renewed.
const SWITCH: usize = 40;

/// A part that was found.
#[derive(Clone, Copy, Debug, PartialEq, Eq)]
pub(crate) struct FoundPart {
    pub(crate) start: u64,
    pub(crate) width: Width,
    pub(crate) digest: [u8; 32],
}

/// The part in force of a content of this length; none where there is no tape.
pub(crate) fn find_part<D: Disk>(disk: &mut D, len: u64) -> Result<Option<FoundPart>, Failed>
    requires told { IsTrue (D.view disk.old).told }
    requires length { len ≡ length (D.view disk.old).content }
    ensures found { IfOk result (λ found. MatchOption found
        ((part : Part) → InForce (D.view disk.old).content part → ⊥)
        (λ part. InForce (D.view disk.old).content (part_found part))) }
    ensures stays { Stays (D.view disk.old) (D.view disk.new) }
    ensures counts { CountsFault result (D.faults disk.old) (D.faults disk.new) }
{
    if len < LEAST {
        return Ok(None);
    }
    let head = read_head(disk, 0)?;
    if is_new_head(&head) {
        return Ok(Some(FoundPart {
            start: 0,
            width: Width::Twelve,
            digest: digest_in(&head),
        }));
    }
    if !is_old_head(&head) {
        return Ok(None);
    }
    if head[SWITCH] != 1 {
        return Ok(Some(FoundPart {
            start: 0,
            width: Width::Eight,
            digest: digest_in(&head),
        }));
    }
    let renewed = find_renewed(disk, len, start_in(&head))?;
    Ok(renewed)
}

// The part of width 12 that begins at this offset; none where there is no header of one.
fn find_renewed<D: Disk>(disk: &mut D, len: u64, start: u64) -> Result<Option<FoundPart>, Failed>
    requires told { IsTrue (D.view disk.old).told }
    requires length { len ≡ length (D.view disk.old).content }
    ensures found { IfOk result (λ found. MatchOption found
        (HasNoPartAt (D.view disk.old).content start)
        (λ part. IsPartAt (D.view disk.old).content start part)) }
    ensures stays { Stays (D.view disk.old) (D.view disk.new) }
    ensures counts { CountsFault result (D.faults disk.old) (D.faults disk.new) }
{
    if start > FARTHEST || len < LEAST || start > len - LEAST {
        return Ok(None);
    }
    let head = read_head(disk, start)?;
    if !is_new_head(&head) {
        return Ok(None);
    }
    Ok(Some(FoundPart {
        start,
        width: Width::Twelve,
        digest: digest_in(&head),
    }))
}

// The 64 bytes at an offset, all of which are there.
fn read_head<D: Disk>(disk: &mut D, at: u64) -> Result<[u8; 64], Failed>
    requires told { IsTrue (D.view disk.old).told }
    requires there { at + 64 ≤ length (D.view disk.old).content }
    ensures read { IfOk result (λ head. head ≡ bytes_at (D.view disk.old).content at 64) }
    ensures stays { Stays (D.view disk.old) (D.view disk.new) }
    ensures counts { CountsFault result (D.faults disk.old) (D.faults disk.new) }
{
    let mut head = [0; 64];
    disk.read(at, &mut head)?;
    Ok(head)
}
