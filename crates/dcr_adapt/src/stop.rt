use dcr_graph::Name;
use dcr_json::CaseStop;
use dcr_roles::PolicyStop;
use dcr_set::NoMemory;
use std::alloc::AllocFailed;
use thiserror::Error;

/// Why a text is refused as stages: for the number of its lines, or else for the first stage that is refused, by itself
/// before it is held against the one before it.
#[derive(Debug, Drop, Error)]
pub enum StageStop {
    /// There are so many lines, and not 1 to 16.
    #[error("not 1 to 16 lines")]
    Cases { count: u32 },
    /// The line with this number, from 0, is refused as a case. The cause is never `NoMemory`.
    #[error("a line that is no case")]
    Stage { i: u32, stop: CaseStop },
    /// The line with this number, from 0, is a case, and its policy is refused, or denies a call of its sessions. The
    /// cause is never `NoMemory`.
    #[error("a line whose policy is refused")]
    Policy { i: u32, stop: PolicyStop },
    /// The line with this number, from 1 on, is a case in which no atom has this name, which the least such atom of the
    /// case before it has.
    #[error("an event of the case before is no event any more")]
    Dropped { i: u32, a: Name },
    /// Memory was wanted and could not be had. It may come in the place of any answer but `Cases` and a first line that is too
    /// long.
    #[error("out of memory")]
    NoMemory,
}

impl<T: Drop> From<AllocFailed<T>> for StageStop {
    ghost use Rattle.std.specs.Prelude.{◌≡◌};
    ghost use Rattle.dcr_adapt.specs.declared.stop.StageStop.TheVariants.{NoMemory as no_memory};

    ghost from_gives = { λ _ stop. stop ≡ no_memory };

    fn from(_: AllocFailed<T>) -> StageStop {
        StageStop::NoMemory
    }
}

impl From<NoMemory> for StageStop {
    ghost use Rattle.std.specs.Prelude.{◌≡◌};
    ghost use Rattle.dcr_adapt.specs.declared.stop.StageStop.TheVariants.{NoMemory as no_memory};

    ghost from_gives = { λ _ stop. stop ≡ no_memory };

    fn from(_: NoMemory) -> StageStop {
        StageStop::NoMemory
    }
}
