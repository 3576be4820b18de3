ghost use Rattle.std.specs.Prelude.{◌≡◌, ℕ, ◌<◌, ◌↔◌, List, Bool, true, length, All, Contains, Some, None, slice_get};
ghost use Rattle.std.specs.List.Sorted.{IsStrictlyIncreasing};
ghost use Rattle.dcr_set.specs.EventSet.{has, numbers, first_of};
ghost use Rattle.dcr_set.specs.Least.{least, some_below, IsLeast, NonePasses};

/// A set is the ascending list of its numbers, each below its room: the law that lets the words on sets
/// be read as words on such lists.
pub fn set_is_its_numbers()
    ensures ascending { (s : List Bool) → IsStrictlyIncreasing (numbers s) }
    ensures below { (s : List Bool) → All (λ k. k < length s) (numbers s) }
    ensures members { (s : List Bool) (e : ℕ) → Contains (numbers s) e ↔ (has s e ≡ true) }
    ensures first { (s : List Bool) → first_of s ≡ slice_get (numbers s) 0 }
    ensures determined { (s t : List Bool) → length s ≡ length t → numbers s ≡ numbers t → s ≡ t }
{}

/// The least number below a bound that passes a test: some number is told exactly where it is below the bound and
/// passes and no smaller one passes, and none is exactly where no number below the bound passes.
pub fn least_is_the_least_that_passes()
    ensures found { (n : ℕ) (p : ℕ → Bool) (k : ℕ) → (least n p ≡ Some k) ↔ IsLeast n p k }
    ensures none { (n : ℕ) (p : ℕ → Bool) → (least n p ≡ None) ↔ NonePasses n p }
    ensures some { (n : ℕ) (p : ℕ → Bool) → (some_below n p ≡ true) ↔ ((k : ℕ) × (k < n) × (p k ≡ true)) }
{}
