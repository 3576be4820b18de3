ghost use Rattle.std.specs.Prelude.{◌≡◌};
ghost use Rattle.dcr_tape.specs.Tape.{size_of};

/// How many bytes a record has: 8 in a tape of version 1, 12 in one of version 2 or in one that was renewed.
#[derive(Clone, Copy, Debug, PartialEq, Eq)]
pub(crate) enum Width {
    Eight,
    Twelve,
}

impl Width {
    /// The bytes of a record.
    pub(crate) fn size(self) -> usize
        ensures { result ≡ size_of self }
    {
        match self {
            Width::Eight => 8,
            Width::Twelve => 12,
        }
    }
}
