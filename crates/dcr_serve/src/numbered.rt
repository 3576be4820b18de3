ghost use Rattle.std.specs.Prelude.{◌≡◌, ℕ};

/// What has a number, as an item that a desk hands out.
pub trait Numbered {
    /// The number.
    ghost number: { Self → ℕ };

    /// The number. Takes no memory.
    fn number(&self) -> u32
        ensures { result ≡ number self.now };
}
