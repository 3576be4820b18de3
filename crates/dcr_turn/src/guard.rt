ghost use Rattle.std.specs.Prelude.{◌≡◌, ◌+◌, ◌-◌, ◌<◌, [], ◌∷◌, ◌++◌, length, map, slice_get};
ghost use Rattle.std.specs.Borrow.{Lends, sem};
ghost use Rattle.std.specs.List.{All, Contains};
ghost use Rattle.dcr_turn.specs.FrontValue.{FrontValue, HasMissedNone, fronts_at};
ghost use Rattle.dcr_turn.specs.GuardValue.{with_enlisted, with_entries, with_kept};
ghost use Rattle.dcr_turn.specs.PassValue.{HasMadeAll};
ghost use Rattle.dcr_turn.specs.Pushing.{AllHear, EndsWithoutFault, ends_in_fault, entry_of, without_first};
ghost use mir.Syntax.{named};

use crate::order::Order;
use crate::turn::{Beside, Locked};
use crate::{Front, FrontRow, Keeps, Pass, TurnName};
use dcr_journal::{Call, Entry, Outcome};
use dcr_lock::Grip;
use dcr_set::SiteId;
use std::marker::Model;

/// The journal's lock, held. It is not dropped: `unlock` spends it. Contracts see the journal's list, the numbers of
/// the sites whose fronts are enlisted, the last one first, and the kept value.
pub struct TurnGuard<'a, K: Keeps, N: TurnName> {
    grip: Grip<'a, Locked<K, N>>,
    order: &'a Order<N>,
    beside: Box<Beside<K, N>>,
}

impl<'a, K: Keeps, N: TurnName> Model for TurnGuard<'a, K, N> {
    ghost use Rattle.dcr_turn.specs.GuardValue.{GuardValue};

    ghost Value = { GuardValue K };

    ghost view = { λ guard. record { entries = guard.beside.value.ledger.entries; enlisted = guard.beside.value.ledger.enlisted; kept = guard.beside.value.kept } };
}

impl<'a, K: Keeps, N: TurnName> TurnGuard<'a, K, N> {
    ghost use Rattle.dcr_turn.specs.contracts.guard.TurnGuard.{the_row};

    /// Of what is held at the one place of the turn's row.
    pub(crate) fn new(
        grip: Grip<'a, Locked<K, N>>,
        order: &'a Order<N>,
        locked: Locked<K, N>,
    ) -> TurnGuard<'a, K, N>
        ensures entries { result.entries ≡ locked.beside.value.ledger.entries }
        ensures enlisted { result.enlisted ≡ locked.beside.value.ledger.enlisted }
        ensures kept { result.kept ≡ locked.beside.value.kept }
    {
        let Locked { beside } = locked;
        TurnGuard {
            grip,
            order,
            beside,
        }
    }

    /// The pass has seen the journal's list then, which begins with what it had seen. The session's entries there are
    /// those that the pass made.
    pub fn meet(&mut self, pass: &mut Pass<N>)
        ensures same { self.new ≡ self.old }
        ensures session { pass.new.session ≡ pass.old.session }
        ensures front { pass.new.front ≡ self.old.entries }
        ensures made { pass.new.made ≡ pass.old.made }
        ensures seen { HasMadeAll pass.old self.old.entries }
    {
        self.beside.ledger.meet(self.order, pass);
    }

    /// The front lies beside the journal then. It begins the journal's list, and no execution after it was of its
    /// site's alphabet. No front of that site lay there.
    pub fn enlist(&mut self, front: Front<N>)
        ensures enlisted { self.new ≡ with_enlisted self.old (front.site ∷ self.old.enlisted) }
        ensures seen { HasMissedNone N.turn front self.old.entries }
        ensures apart { ¬ Contains self.old.enlisted front.site }
    {
        self.beside.ledger.enlist(self.order, front);
    }

    /// Gives back the front of an enlisted site. It has seen the journal's list.
    pub fn dismiss(&mut self, site: SiteId) -> Front<N>
        requires { Contains self.old.enlisted site }
        ensures enlisted { self.new ≡ with_enlisted self.old (without_first site self.old.enlisted) }
        ensures site { result.site ≡ site }
        ensures front { result.front ≡ self.old.entries }
    {
        self.beside.ledger.dismiss(self.order, site)
    }

    /// The fronts of the row lie beside the journal then, and none is left on it. Each begins the journal's list, and no
    /// execution after it was of its site's alphabet.
    pub fn enlist_row(&mut self, row: &mut FrontRow<N>)
        ensures enlisted { self.new ≡ with_enlisted self.old (map (λ (f : FrontValue). f.site) row.old ++ self.old.enlisted) }
        ensures seen { All (λ front. HasMissedNone N.turn front self.old.entries) row.old }
        ensures row { row.new ≡ [] }
    {
        self.beside.ledger.enlist_row(self.order, row);
    }

    /// Gives the fronts of all enlisted sites to the row. They have seen the journal's list.
    pub fn dismiss_row(&mut self, row: &mut FrontRow<N>)
        requires { row.old ≡ [] }
        ensures enlisted { self.new ≡ with_enlisted self.old [] }
        ensures row { row.new ≡ fronts_at self.old.entries self.old.enlisted }
    {
        self.beside.ledger.dismiss_row(self.order, row);
    }

    /// Pushes the one entry of a call: of the pass's session, numbered by the calls that it made. The pass was met,
    /// there is room, no fault ends the list, and where an execution was done all its participants are enlisted.
    pub fn push(&mut self, pass: &mut Pass<N>, call: Call, outcome: &Outcome)
        requires met { pass.old.front ≡ self.old.entries }
        requires room { length self.old.entries < N.capacity }
        requires unfaulted { EndsWithoutFault self.old.entries }
        requires hear { AllHear N.turn.alphabets self.old.enlisted call outcome.now }
        ensures entries { self.new ≡ with_entries self.old (self.old.entries ++ entry_of pass.old call outcome.now ∷ []) }
        ensures session { pass.new.session ≡ pass.old.session }
        ensures front { pass.new.front ≡ self.new.entries }
        ensures made { pass.new.made ≡ pass.old.made + 1 }
    {
        self.beside.ledger.push(self.order, pass, call, outcome);
    }

    /// For how many more entries the journal has room.
    pub fn spare(&self) -> u32
        ensures { result + length self.now.entries ≡ N.capacity }
    {
        self.beside.ledger.spare()
    }

    /// Whether the journal's list ends with a fault, which nobody can push behind.
    pub fn is_faulted(&self) -> bool
        ensures { result ≡ ends_in_fault self.now.entries }
    {
        self.beside.ledger.is_faulted()
    }

    /// The last entry of the journal. None exactly where there is none.
    pub fn last(&self) -> Option<Entry>
        ensures { result ≡ slice_get self.now.entries (length self.now.entries - 1) }
    {
        self.beside.ledger.last()
    }

    /// Lends the kept value, which may be changed at will.
    pub fn kept(&mut self) -> &mut K
        ensures* lends { sem 𝓛 (Lends (the_row (record { mir = named 1; lft = [] }) K.row N.row N.TurnName K.Keeps) K.row self.entry result (with_kept self.old)) }
        ensures value { result.now ≡ self.old.kept }
    {
        &mut self.beside.kept
    }

    /// Gives the lock back. No front is enlisted, and the kept value stands for the journal's list.
    pub fn unlock(self)
        requires enlisted { self.enlisted ≡ [] }
        requires kept { K.stands self.entries self.kept }
    {
        let TurnGuard {
            grip,
            order: _,
            beside,
        } = self;
        grip.join(Locked { beside }).unlock();
    }
}
