use thiserror::Error;

/// Why a cluster takes no call any more.
#[derive(Clone, Copy, Debug, PartialEq, Eq, Error)]
pub enum Halt {
    /// The journal has as many entries as its capacity.
    #[error("the history is full")]
    Full { capacity: u32 },
    /// The tape failed to keep the execution at this place, which ends the history.
    #[error("the tape has stopped")]
    Stopped { at: u32 },
}
