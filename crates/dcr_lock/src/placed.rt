ghost use Rattle.std.specs.Prelude.{ℕ};

/// What may stand at a place of a row. It has no calls and one meaning.
pub trait Placed {
    /// Whether the value belongs at the place of this number.
    ghost belongs: { ℕ → Self → Type 0 };
}
