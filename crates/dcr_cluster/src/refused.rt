ghost use Rattle.std.specs.Prelude.{◌≡◌};
ghost use Rattle.dcr_cluster.specs.Opening.{cause_of};

use dcr_tape::{RenewStop, Store};
use thiserror::Error;

/// Why a cluster was not opened.
#[derive(Clone, Copy, Debug, PartialEq, Eq, Error)]
pub enum OpenCause {
    /// Memory was wanted and could not be had.
    #[error("out of memory")]
    NoMemory,
    /// The execution from before at this place, counted from 0, is the first that can't be done there: its site or its
    /// event is none of the cluster's, the site doesn't own the event, or a cause blocks it.
    #[error("the tape has an execution that can't be done")]
    BadTape { at: u32 },
    /// The disk failed while the tape was renewed. The tape is stopped.
    #[error("the disk failed")]
    DiskFault,
}

impl OpenCause {
    /// Why a cluster isn't opened whose tape isn't renewed.
    pub(crate) fn of(stop: RenewStop) -> OpenCause
        ensures { result ≡ cause_of stop }
    {
        match stop {
            RenewStop::DiskFault => OpenCause::DiskFault,
            RenewStop::NoMemory => OpenCause::NoMemory,
        }
    }
}

/// A cluster was not opened. The store comes back.
#[derive(Drop)]
pub struct OpenRefused<D> {
    pub cause: OpenCause,
    pub store: Store<D>,
}
