ghost use Rattle.std.specs.Prelude.{◌≡◌};
ghost use Rattle.dcr_greet.specs.declared.stop.KeysStop.TheVariants.{NoMemory as no_memory};

use std::alloc::{AllocError, AllocFailed};
use thiserror::Error;

/// Why bytes were not read as the keys of the sites.
#[derive(Clone, Copy, Debug, PartialEq, Eq, Error)]
pub enum KeysStop {
    /// This line, the first being 1, is the first one that is wrong.
    #[error("line {line} is wrong")]
    Wrong { line: u32 },
    /// Memory was wanted and could not be had. It may come in the place of any other answer.
    #[error("out of memory")]
    NoMemory,
}

impl From<AllocError> for KeysStop {
    ghost from_gives = { λ _ stop. stop ≡ no_memory };

    fn from(_: AllocError) -> KeysStop {
        KeysStop::NoMemory
    }
}

impl<T: Drop> From<AllocFailed<T>> for KeysStop {
    ghost from_gives = { λ _ stop. stop ≡ no_memory };

    fn from(_: AllocFailed<T>) -> KeysStop {
        KeysStop::NoMemory
    }
}
