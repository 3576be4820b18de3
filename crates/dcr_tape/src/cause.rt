ghost use Rattle.std.specs.Prelude.{◌≡◌, Some};
ghost use Rattle.dcr_tape.specs.Message.{cause_text};
ghost use Rattle.dcr_tape.specs.declared.cause.TapeCause.TheVariants.{DiskFault, NoMemory};

use dcr_base::Failed;
use std::alloc::{AllocError, AllocFailed};
use std::error::Error;
use std::fmt;

/// Why a disk was not opened as a tape.
#[derive(Clone, Copy, Debug, PartialEq, Eq)]
pub enum TapeCause {
    /// It has no header of a tape.
    NotTape,
    /// It is the tape of another case, whose digest was found.
    OtherGraph { found: [u8; 32] },
    /// The record of this number, counted from 0, is bad: its gate is missing, or it is open and the record is cut or
    /// not as a record is.
    BadTape { at: u32 },
    /// It has more than 1,000,000 records.
    Long,
    /// The disk failed.
    DiskFault,
    /// Memory was wanted and could not be had.
    NoMemory,
}

impl fmt::Display for TapeCause {
    ghost output = { λ cause. Some (cause_text cause) };

    fn fmt<W: fmt::Write>(&self, f: &mut fmt::Formatter<W>) -> fmt::Result {
        f.write_str(match self {
            TapeCause::NotTape => "the disk holds no tape",
            TapeCause::OtherGraph { .. } => "the tape is another case's",
            TapeCause::BadTape { .. } => "the tape has a bad record",
            TapeCause::Long => "the tape is too long",
            TapeCause::DiskFault => "the disk failed",
            TapeCause::NoMemory => "out of memory",
        })
    }
}

impl Error for TapeCause {}

impl From<Failed> for TapeCause {
    ghost from_gives = { λ _ cause. cause ≡ DiskFault };

    fn from(_: Failed) -> TapeCause {
        TapeCause::DiskFault
    }
}

impl From<AllocError> for TapeCause {
    ghost from_gives = { λ _ cause. cause ≡ NoMemory };

    fn from(_: AllocError) -> TapeCause {
        TapeCause::NoMemory
    }
}

impl<T: Drop> From<AllocFailed<T>> for TapeCause {
    ghost from_gives = { λ _ cause. cause ≡ NoMemory };

    fn from(_: AllocFailed<T>) -> TapeCause {
        TapeCause::NoMemory
    }
}
