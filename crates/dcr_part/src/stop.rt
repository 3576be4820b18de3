ghost use Rattle.std.specs.Prelude.{◌≡◌};
ghost use Rattle.dcr_part.specs.declared.stop.PartStop.TheVariants.{NoMemory as no_memory};

use dcr_set::NoMemory;
use thiserror::Error;

/// Why bytes were not read as a part.
#[derive(Clone, Copy, Debug, PartialEq, Eq, Error)]
pub enum PartStop {
    /// The bytes are the text of no part.
    #[error("the text of no part")]
    NotAPart,
    /// Memory was wanted and could not be had. It may come in the place of any other answer.
    #[error("out of memory")]
    NoMemory,
}

impl From<NoMemory> for PartStop {
    ghost from_gives = { λ _ stop. stop ≡ no_memory };

    fn from(_: NoMemory) -> PartStop {
        PartStop::NoMemory
    }
}
