use std::marker::Brand;

/// Names one turn, so that values that were seen apart are known to be of it. A program picks the name where it
/// passes `Brand` to a function that is generic over it, and all that bears the name stays inside that function.
pub trait TurnName {
    ghost use Rattle.std.specs.Prelude.{ℕ};
    ghost use Rattle.dcr_turn.specs.TurnId.{TurnId};

    /// Which turn it is: that of a blank.
    ghost turn: { TurnId };

    /// How many entries its journal may have.
    ghost capacity: { ℕ };
}

impl TurnName for Brand {
    ghost use Rattle.std.specs.Prelude.{[]};
    ghost use Rattle.dcr_turn.specs.TurnId.{no_turn};

    ghost turn = { no_turn };

    ghost capacity = { 0 };
}

/// What is kept beside the journal, under its lock. It has no calls and one meaning.
pub trait Keeps {
    ghost use Rattle.std.specs.Prelude.{List};
    ghost use Rattle.dcr_journal.specs.declared.call.Entry.{Entry};

    /// Whether the value stands for a list of entries.
    ghost stands: { List Entry → Self → Type 0 };
}
