// The names that a part tells.
ghost use Rattle.std.specs.Prelude.{◌≡◌, ◌↔◌, ◌<◌, ℕ, List, IsTrue, None, Some, true, length, is_some, slice_index_or};
ghost use Rattle.dcr_set.specs.EventSet.{has};
ghost use Rattle.dcr_set.specs.Least.{some_below};
ghost use Rattle.dcr_graph.specs.Names.{is_name};
ghost use Rattle.dcr_part.specs.Told.{are_one, is_text, AreDistinct};

use dcr_graph::Name;
use dcr_set::{EventId, EventSet};

/// Whether just the events in a set have a name.
pub(crate) fn are_names_of(names: &[Option<Name>], set: &EventSet) -> bool
    requires { length names.now ≡ length set.now }
    ensures { IsTrue result ↔ ((e : ℕ) → e < length set.now → is_some (slice_index_or names.now e None) ≡ has set.now e) }
{
    for number in 0..set.room() {
        if names[usize::from(number)].is_some() != set.contains(EventId(number)) {
            return false;
        }
    }
    true
}

/// Whether no two names are one. Each is looked at, which says that it is a name.
pub(crate) fn are_distinct(names: &[Option<Name>]) -> bool
    ensures distinct { IsTrue result ↔ AreDistinct names.now }
    ensures are_names { IsTrue result → (e : ℕ) (name : List ℕ) → slice_index_or names.now e None ≡ Some name → is_name name ≡ true }
{
    for i in 0..names.len() {
        if is_repeated(names, i) {
            return false;
        }
    }
    true
}

// Whether the name of an event, where it has one, is an earlier event's.
fn is_repeated(names: &[Option<Name>], i: usize) -> bool
    requires { i < length names.now }
    ensures repeated { result ≡ some_below i (λ k. are_one (slice_index_or names.now k None) (slice_index_or names.now i None)) }
    ensures name { (name : List ℕ) → slice_index_or names.now i None ≡ Some name → is_name name ≡ true }
{
    match &names[i] {
        Some(name) => is_named_before(names, i, name),
        None => false,
    }
}

// Whether an event before this one has the name.
fn is_named_before(names: &[Option<Name>], i: usize, name: &Name) -> bool
    requires { i < length names.now }
    ensures before { result ≡ some_below i (λ k. is_text (slice_index_or names.now k None) name.now) }
    ensures name { is_name name.now ≡ true }
{
    let text = name.text();
    for k in 0..i {
        if is_text(&names[k], text) {
            return true;
        }
    }
    false
}

// Whether a name that may be told is this text.
fn is_text(name: &Option<Name>, text: &str) -> bool
    ensures { result ≡ is_text name.now text.now }
{
    match name {
        Some(name) => name.text() == text,
        None => false,
    }
}
