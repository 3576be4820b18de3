ghost use Rattle.std.specs.Prelude.{◌≡◌};
ghost use Rattle.std.specs.Iterator.{YieldsFirstRef, item_count};
ghost use Rattle.dcr_text.specs.Lines.{pieces_of};

use std::marker::Model;

/// The pieces of a text between its separators, from the first on. A text without a separator is one piece,
/// the empty text too. Contracts see the list of those still to come.
#[derive(Drop)]
pub(crate) struct Pieces<'a> {
    // None: all were given.
    rest: Option<&'a [u8]>,
    separator: u8,
}

impl<'a> Model for Pieces<'a> {
    ghost use Rattle.std.specs.Prelude.{List, ℕ};

    ghost Value = { List (List ℕ) };

    ghost use Rattle.dcr_line.specs.PiecesModel.{pieces_left};

    ghost view = { pieces_left };
}

impl<'a> Pieces<'a> {
    /// All pieces of the text.
    pub(crate) fn of(text: &'a [u8], separator: u8) -> Pieces<'a>
        ensures { result ≡ pieces_of separator text.now }
    {
        Pieces {
            rest: Some(text),
            separator,
        }
    }
}

impl<'a> Iterator for Pieces<'a> {
    type Item = &'a [u8];

    ghost next_gives = { YieldsFirstRef (λ s. s) };

    ghost remaining = { item_count (λ s. s) };

    fn next(&mut self) -> Option<&'a [u8]> {
        let rest = self.rest?;
        let separator = self.separator;
        match rest.iter().position(|byte| *byte == separator) {
            Some(at) => {
                self.rest = Some(&rest[at + 1..]);
                Some(&rest[..at])
            }
            None => {
                self.rest = None;
                Some(rest)
            }
        }
    }
}
