ghost use Rattle.std.specs.Prelude.{◌≡◌};
ghost use Rattle.dcr_roles.specs.declared.stop.PolicyStop.TheVariants.{NoMemory as no_memory};

use dcr_graph::Name;
use dcr_set::NoMemory;
use std::alloc::{AllocError, AllocFailed};
use thiserror::Error;

/// A part of a policy, in the order in which they are tried.
#[derive(Clone, Copy, Debug, PartialEq, Eq)]
pub enum PolicyPart {
    /// The member `roles` of one of the events, an array of names where it is there.
    Event,
    /// The member `users`, an array where it is there.
    Users,
    /// One of the users, an object with a name `user` that is no earlier user's and an array `roles` of names.
    User,
    /// The member `by`, an array where it is there; or one of its items, a user's name.
    By,
}

/// Why the policy of a case file is refused, in the order in which this is tried.
#[derive(Debug, Drop, Error)]
pub enum PolicyStop {
    /// This part is not as it should be; of several of its kind, the first. The index of a part of which there is one
    /// is 0.
    #[error("a part of the policy of another shape")]
    Policy { part: PolicyPart, index: u32 },
    /// Call j of session k is denied, for want of this role; no call before it is, by the session and then by the call.
    #[error("a call that is denied")]
    Denied { k: u32, j: u32, role: Name },
    /// Memory was wanted and could not be had. It may come in the place of any other answer.
    #[error("out of memory")]
    NoMemory,
}

impl<T: Drop> From<AllocFailed<T>> for PolicyStop {
    ghost from_gives = { λ _ stop. stop ≡ no_memory };

    fn from(_: AllocFailed<T>) -> PolicyStop {
        PolicyStop::NoMemory
    }
}

impl From<AllocError> for PolicyStop {
    ghost from_gives = { λ _ stop. stop ≡ no_memory };

    fn from(_: AllocError) -> PolicyStop {
        PolicyStop::NoMemory
    }
}

impl From<NoMemory> for PolicyStop {
    ghost from_gives = { λ _ stop. stop ≡ no_memory };

    fn from(_: NoMemory) -> PolicyStop {
        PolicyStop::NoMemory
    }
}
