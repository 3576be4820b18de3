ghost use Rattle.std.specs.Prelude.{◌≡◌, ℕ, List, None, OnOk};
ghost use Rattle.dcr_graph.specs.IndexModel.{number_at, with_number};

use dcr_set::NoMemory;
use std::collections::BTreeMap;

/// Texts of a file with their numbers. They come from a stranger: a map in order compares a logarithm of their number,
/// whatever they are.
pub(crate) type Numbers<'v> = BTreeMap<&'v [u8], usize>;

/// The number of a text. None exactly where it has none.
pub(crate) fn find(numbers: &Numbers<'_>, text: &[u8]) -> Option<usize>
    ensures { result ≡ number_at numbers.now text.now }
{
    numbers.get(text).copied()
}

/// Gives a number to a text that has none. After `NoMemory` nothing is known of the numbers.
pub(crate) fn put<'v>(
    numbers: &mut Numbers<'v>,
    text: &'v [u8],
    number: usize,
) -> Result<(), NoMemory>
    requires { number_at numbers.old text.now ≡ None }
    ensures { OnOk result ((other : List ℕ) → number_at numbers.new other ≡ with_number (number_at numbers.old other) text.now number other) }
{
    numbers.insert(text, number)?;
    Ok(())
}
