ghost use Rattle.std.specs.Prelude.{◌≡◌, []};
ghost use Rattle.std.specs.Borrow.{Lends, sem};
ghost use mir.Syntax.{named};

use crate::{Grip, Placed};
use std::marker::Model;

/// A place whose lock is held, with its value. It is not dropped: `unlock` or `keep` spends it.
/// Contracts see the number of the place, and the value.
pub struct Held<'a, T: Placed> {
    grip: Grip<'a, T>,
    value: T,
}

impl<'a, T: Placed> Model for Held<'a, T> {
    ghost use Rattle.dcr_lock.specs.HeldValue.{Holding};

    ghost Value = { Holding T };

    ghost view = { λ held. record { place = held.grip; value = held.value } };
}

impl<'a, T: Placed> Held<'a, T> {
    ghost use Rattle.dcr_lock.specs.contracts.held.Held.{the_row};
    ghost use Rattle.dcr_lock.specs.HeldValue.{with_value};

    /// The place of the grip, with this value.
    pub(crate) fn new(grip: Grip<'a, T>, value: T) -> Held<'a, T>
        ensures place { result.place ≡ grip.entry }
        ensures value { result.value ≡ value }
    {
        Held { grip, value }
    }

    /// Lends the value, which may be changed at will.
    pub fn value(&mut self) -> &mut T
        ensures* lends { sem 𝓛 (Lends (the_row (record { mir = named 1; lft = [] }) T.row T.Placed) T.row self.entry result (with_value self.old)) }
        ensures value { result.now ≡ self.old.value }
    {
        &mut self.value
    }

    /// Gives the place back with its value, which belongs there. Takes no memory.
    pub fn unlock(self)
        requires { T.belongs self.place self.value }
    {
        let Held { grip, value } = self;
        grip.put_back(value);
    }

    /// Gives the value, and leaves the place empty for ever: a later `lock` of it waits for ever. Takes
    /// no memory.
    pub fn keep(self) -> T
        ensures { result ≡ self.entry.value }
    {
        let Held { grip, value } = self;
        grip.leave_empty();
        value
    }

    /// The hold of the place, and the value by itself, so that parts of it can be lent.
    pub fn split(self) -> (Grip<'a, T>, T)
        ensures place { result.0 ≡ self.entry.place }
        ensures value { result.1 ≡ self.entry.value }
    {
        let Held { grip, value } = self;
        (grip, value)
    }
}
