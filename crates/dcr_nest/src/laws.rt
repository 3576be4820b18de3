ghost use Rattle.std.specs.Prelude.{◌≡◌, ℕ, ◌<◌, ◌↔◌, false, ◌||◌, ◌==◌, None, Some, length, Contains};
ghost use Rattle.std.specs.List.Sorted.{IsStrictlyIncreasing};
ghost use Rattle.dcr_nest.specs.Tree.{Parents, AreEarlier, parent_of, is_parent, is_at_or_below, atoms};

/// What the words on nodes mean: a node is at or below itself and what its parent is at or below, and
/// nothing else. The atoms are the nodes that are nobody's parent, ascending.
pub fn nodes_are_below_as_parents_lead()
    ensures at_top { (parents : Parents) (x y : ℕ) → parent_of parents x ≡ None
        → is_at_or_below parents x y ≡ (x == y) }
    ensures in_parent { (parents : Parents) (x p y : ℕ) → AreEarlier parents → parent_of parents x ≡ Some p
        → is_at_or_below parents x y ≡ ((x == y) || is_at_or_below parents p y) }
    ensures atoms { (parents : Parents) (x : ℕ) → Contains (atoms parents) x
        ↔ ((x < length parents) × (is_parent parents x ≡ false)) }
    ensures ascending { (parents : Parents) → IsStrictlyIncreasing (atoms parents) }
{}
