ghost use Rattle.std.specs.Prelude.{◌≡◌, [], ◌∷◌, ◌++◌, length, option_map, slice_get, OnOk};

use csv::StringRecord;
use dcr_set::NoMemory;
use std::alloc::Global;
use std::marker::Model;

/// A list of texts, kept as one text and the places where they end in it. Contracts see the list.
#[derive(Drop)]
pub struct TextList {
    texts: StringRecord,
}

impl Model for TextList {
    ghost use Rattle.std.specs.Prelude.{List, ℕ};
    ghost use Rattle.csv.specs.Records.{fields_of};

    ghost Value = { List (List ℕ) };

    ghost view = { λ list. fields_of list.texts };
}

impl TextList {
    /// The list without a text.
    pub(crate) fn new(alloc: Global) -> TextList
        ensures { result ≡ [] }
    {
        TextList {
            texts: StringRecord::new(alloc),
        }
    }

    /// Adds a text at the end. `NoMemory` where memory could not be had.
    pub(crate) fn push(&mut self, text: &str) -> Result<(), NoMemory>
        ensures { OnOk result (self.new ≡ self.old ++ text.now ∷ []) }
    {
        self.texts.push_field(text)?;
        Ok(())
    }

    /// How many texts there are.
    pub fn len(&self) -> usize
        ensures { result ≡ length self.now }
    {
        self.texts.len()
    }

    /// The text at a place, from 0. None exactly where the place is not below the length.
    pub fn get(&self, i: usize) -> Option<&str>
        ensures { option_map (λ text. text.now) result ≡ slice_get self.now i }
    {
        self.texts.get(i)
    }
}
