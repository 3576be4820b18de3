use std::marker::Model;

/// The word that is to name a site, as it was given. It need not be a name. Contracts see its bytes.
#[derive(Drop)]
pub struct SiteWord<'w> {
    text: &'w str,
}

impl<'w> Model for SiteWord<'w> {
    ghost use Rattle.std.specs.Prelude.{List, ℕ};

    ghost Value = { List ℕ };

    ghost view = { λ word. word.text.now };
}

impl<'w> SiteWord<'w> {
    ghost use Rattle.std.specs.Prelude.{◌≡◌};

    /// The word that this text is.
    pub(crate) fn new(text: &'w str) -> SiteWord<'w>
        ensures { result ≡ text.now }
    {
        SiteWord { text }
    }

    /// Its text.
    pub(crate) fn text(&self) -> &'w str
        ensures { result.now ≡ self.now }
    {
        self.text
    }
}
