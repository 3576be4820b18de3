ghost use Rattle.std.specs.Prelude.{◌≡◌, Some, codes};
ghost use Rattle.dcr_tape.specs.Message.{stop_text};
ghost use Rattle.dcr_tape.specs.declared.stop.RenewStop.TheVariants.{DiskFault as disk_fault, NoMemory as no_memory};

use dcr_base::Failed;
use std::alloc::AllocError;
use std::error::Error;
use std::fmt;

/// The disk failed while an execution was put on a tape. The tape is stopped: whether the execution is on it shows
/// when it is opened again.
#[derive(Clone, Copy, Debug, PartialEq, Eq)]
pub struct DiskFault;

impl fmt::Display for DiskFault {
    ghost output = { λ _. Some (codes "the disk failed") };

    fn fmt<W: fmt::Write>(&self, f: &mut fmt::Formatter<W>) -> fmt::Result {
        f.write_str("the disk failed")
    }
}

impl Error for DiskFault {}

impl From<Failed> for DiskFault {
    fn from(_: Failed) -> DiskFault {
        DiskFault
    }
}

/// Why a tape was not renewed.
#[derive(Clone, Copy, Debug, PartialEq, Eq)]
pub enum RenewStop {
    /// The disk failed. The tape is stopped.
    DiskFault,
    /// Memory was wanted and could not be had. Nothing was written.
    NoMemory,
}

impl fmt::Display for RenewStop {
    ghost output = { λ stop. Some (stop_text stop) };

    fn fmt<W: fmt::Write>(&self, f: &mut fmt::Formatter<W>) -> fmt::Result {
        f.write_str(match self {
            RenewStop::DiskFault => "the disk failed",
            RenewStop::NoMemory => "out of memory",
        })
    }
}

impl Error for RenewStop {}

impl From<Failed> for RenewStop {
    ghost from_gives = { λ _ stop. stop ≡ disk_fault };

    fn from(_: Failed) -> RenewStop {
        RenewStop::DiskFault
    }
}

impl From<AllocError> for RenewStop {
    ghost from_gives = { λ _ stop. stop ≡ no_memory };

    fn from(_: AllocError) -> RenewStop {
        RenewStop::NoMemory
    }
}
