use std::marker::Brand;
use std::sync::ledger::Ledger;

/// Names one desk, and with it the ledger of the items taken at it, so that what its lock keeps is said of one list of
/// items and of one door as it was at first. A program picks the name where it passes `Brand` to a function that is
/// generic over it, and all that bears the name stays inside that function. `L` is what comes in at the door.
pub trait DeskName<L>: Ledger {
    ghost use Rattle.std.specs.Prelude.{ℕ, List, Option};

    /// How many items there were, numbered from 0.
    ghost items: { ℕ };

    /// How many times the door had failed.
    ghost faults: { ℕ };

    /// The links that the door had, in order, where it tells them.
    ghost links: { Option (List L) };
}

impl<L> DeskName<L> for Brand {
    ghost use Rattle.std.specs.Prelude.{None};

    ghost items = { 0 };

    ghost faults = { 0 };

    ghost links = { None };
}
