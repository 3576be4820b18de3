ghost use Rattle.std.specs.Prelude.{◌≡◌, slice_get};

use std::marker::Model;

/// Roles by their numbers, in order. Contracts see the list of the numbers.
#[derive(Drop)]
pub struct RoleList {
    numbers: Vec<usize>,
}

impl Model for RoleList {
    ghost use Rattle.std.specs.Prelude.{List, ℕ};

    ghost Value = { List ℕ };

    ghost view = { λ l. l.numbers.items };
}

impl RoleList {
    /// The list of these numbers. Takes no memory.
    pub fn new(numbers: Vec<usize>) -> RoleList
        ensures { result ≡ numbers.items }
    {
        RoleList { numbers }
    }

    /// All numbers.
    pub fn all(&self) -> &[usize]
        ensures { result.now ≡ self.now }
    {
        &self.numbers
    }

    /// The first number. None exactly where there is none.
    pub fn first(&self) -> Option<usize>
        ensures { result ≡ slice_get self.now 0 }
    {
        self.numbers.first().copied()
    }
}
