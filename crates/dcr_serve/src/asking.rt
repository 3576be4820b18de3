ghost use Rattle.std.specs.Prelude.{◌≡◌, Option, Result, Ok, None, ⊤};
ghost use Rattle.dcr_base.specs.Count.{CountsFault};
ghost use Rattle.dcr_base.specs.Door.{GivesNext, IsFresh};
ghost use Rattle.dcr_base.specs.declared.failed.Failed.{Failed};

use dcr_base::{Door, Failed};

/// A door that is asked once at a time. Each door is one.
///
/// A call leaves `answered` behind, which nothing else gives. So a contract can say that a door was asked, how often,
/// and what became of its answer, also where it tells no links.
pub(crate) trait AskOnce: Door {
    /// That a door that stood so was asked once, answered this, and stands so since.
    ghost answered: { Self → Result (Option Self.Link) Failed → Self → Type 0 };

    /// Asks once, and hands on the answer.
    fn ask_once(&mut self) -> Result<Option<Self::Link>, Failed>
        ensures given { GivesNext (Self.tells.links self.old) (Self.tells.links self.new) result }
        ensures fresh { IsFresh Self.tells.each result }
        ensures shuts { result ≡ Ok None → Self.tells.is_shut self.new }
        ensures counts { CountsFault result (Self.tells.faults self.old) (Self.tells.faults self.new) }
        ensures asked { answered self.old result self.new };
}

impl<D: Door> AskOnce for D {
    ghost answered = { λ _ _ _. ⊤ };

    fn ask_once(&mut self) -> Result<Option<D::Link>, Failed> {
        self.next()
    }
}
