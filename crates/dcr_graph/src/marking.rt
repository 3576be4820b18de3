ghost use Rattle.std.specs.Prelude.{◌≡◌};

use dcr_set::EventSet;

/// A marking: which atoms are executed, which are pending, and which are included. The room of each set
/// is the number of atoms.
#[derive(Drop)]
pub struct Marking {
    pub executed: EventSet,
    pub pending: EventSet,
    pub included: EventSet,
}

/// The marks that one site has: of each set those atoms that the site tracks there.
#[derive(Drop)]
pub struct SiteMark {
    pub executed: EventSet,
    pub pending: EventSet,
    pub included: EventSet,
}

impl Marking {
    /// The same marking again.
    pub fn copy(&self) -> Marking
        ensures { result ≡ self.now }
    {
        Marking {
            executed: self.executed.copy(),
            pending: self.pending.copy(),
            included: self.included.copy(),
        }
    }
}

impl SiteMark {
    /// The same marks again.
    pub fn copy(&self) -> SiteMark
        ensures { result ≡ self.now }
    {
        SiteMark {
            executed: self.executed.copy(),
            pending: self.pending.copy(),
            included: self.included.copy(),
        }
    }
}
