ghost use Rattle.std.specs.Prelude.{◌≡◌, length, option_map, IfSome};
ghost use Rattle.dcr_graph.specs.Projection.{FitsAtoms};
ghost use Rattle.dcr_line.specs.Words.{first_by, words_behind};
ghost use Rattle.dcr_line.specs.MarkLine.{listed_in, list_in, list_from, mark_from, mark_in};

use crate::directory::Directory;
use crate::pieces::Pieces;
use dcr_graph::SiteMark;
use dcr_set::EventSet;

/// The marks of a site that a text tells: the lists of the executed, the pending and the included atoms,
/// each behind its word, with one space between each two words. A list is names of atoms in ascending order
/// of their numbers with commas between, or `-` for none. None exactly where the text tells no marks.
pub fn read_mark(text: &[u8], directory: &Directory<'_>) -> Option<SiteMark>
    ensures mark { result ≡ mark_in directory.now.atoms text.now }
    ensures fits { IfSome result
        (λ mark. FitsAtoms (length directory.now.atoms) mark.executed mark.pending mark.included) }
{
    mark_of(text, directory)
}

// As `read_mark`, by the words of the text.
#[tactic(auto, unfolding(crate::specs::MarkLine::mark_in))]
fn mark_of(text: &[u8], directory: &Directory<'_>) -> Option<SiteMark>
    ensures { result ≡ mark_in directory.now.atoms text.now }
{
    let mut words = Pieces::of(text, b' ');
    let mark = take_mark(&mut words, directory)?;
    if words.next().is_some() {
        return None;
    }
    Some(mark)
}

/// Takes the three lists of marks that the words begin with.
#[tactic(auto, unfolding(crate::specs::MarkLine::mark_from))]
pub(crate) fn take_mark(words: &mut Pieces<'_>, directory: &Directory<'_>) -> Option<SiteMark>
    ensures { option_map (λ mark. (mark, words.new)) result ≡ mark_from directory.now.atoms words.old }
{
    let executed = take_list(b"executed", words, directory)?;
    let pending = take_list(b"pending", words, directory)?;
    let included = take_list(b"included", words, directory)?;
    Some(SiteMark {
        executed,
        pending,
        included,
    })
}

/// Takes a word and the list behind it.
#[tactic(auto, unfolding(crate::specs::MarkLine::list_from, crate::specs::Words::first_by))]
pub(crate) fn take_list(
    known: &[u8],
    words: &mut Pieces<'_>,
    directory: &Directory<'_>,
) -> Option<EventSet>
    ensures { option_map (λ set. (set, words.new)) result
        ≡ list_from known.now directory.now.atoms words.old }
{
    take_word(known, words)?;
    read_list(words.next()?, directory)
}

// Takes this word.
#[tactic(auto, unfolding(crate::specs::Words::words_behind))]
fn take_word(known: &[u8], words: &mut Pieces<'_>) -> Option<()>
    ensures { option_map (λ _. words.new) result ≡ words_behind known.now words.old }
{
    if words.next()? != known {
        return None;
    }
    Some(())
}

// The set that a list of names is.
#[tactic(auto, unfolding(crate::specs::MarkLine::list_in))]
fn read_list(text: &[u8], directory: &Directory<'_>) -> Option<EventSet>
    ensures { result ≡ list_in directory.now.atoms text.now }
{
    if text == b"-".as_slice() {
        return Some(EventSet::new(directory.atoms()));
    }
    read_names(text, directory)
}

// The set whose names stand between commas, in ascending order.
fn read_names(text: &[u8], directory: &Directory<'_>) -> Option<EventSet>
    ensures { result ≡ listed_in directory.now.atoms text.now }
{
    let mut set = EventSet::new(directory.atoms());
    let mut low = 0;
    for name in Pieces::of(text, b',') {
        let e = directory.atom_from(low, name)?;
        set.insert(e);
        low = e.0 + 1;
    }
    Some(set)
}
