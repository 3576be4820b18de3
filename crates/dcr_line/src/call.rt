ghost use Rattle.std.specs.Prelude.{◌≡◌, length, option_map, IfSome};
ghost use Rattle.dcr_journal.specs.Run.{IsInRange};
ghost use Rattle.dcr_line.specs.Words.{name_from};
ghost use Rattle.dcr_line.specs.CallLine.{call_in, call_from, call_after};

use crate::directory::Directory;
use crate::pieces::Pieces;
use dcr_journal::Call;
use dcr_set::{EventId, SiteId};

/// The call that a line asks for: `exec` with a site's and an event's name, `look` or `enabled` with a
/// site's name, or `accepting`, with one space between each two words. None exactly where the line is none
/// of these, or no site or no atom has a name in it.
pub fn read_call(line: &[u8], directory: &Directory<'_>) -> Option<Call>
    ensures call { result ≡ call_in directory.now.sites directory.now.atoms line.now }
    ensures in_range { IfSome result
        (λ call. IsInRange (length directory.now.sites) (length directory.now.atoms) call) }
{
    call_of(line, directory)
}

// As `read_call`, by the words of the line.
#[tactic(auto, unfolding(crate::specs::CallLine::call_in))]
fn call_of(line: &[u8], directory: &Directory<'_>) -> Option<Call>
    ensures { result ≡ call_in directory.now.sites directory.now.atoms line.now }
{
    let mut words = Pieces::of(line, b' ');
    let call = take_call(&mut words, directory)?;
    if words.next().is_some() {
        return None;
    }
    Some(call)
}

/// Takes the call that the words begin with.
pub(crate) fn take_call(words: &mut Pieces<'_>, directory: &Directory<'_>) -> Option<Call>
    ensures { option_map (λ call. (call, words.new)) result
        ≡ call_from directory.now.sites directory.now.atoms words.old }
{
    let word = words.next()?;
    take_after(word, words, directory)
}

// Takes the rest of the call that begins with the word.
#[tactic(auto, unfolding(crate::specs::CallLine::call_after))]
fn take_after(word: &[u8], words: &mut Pieces<'_>, directory: &Directory<'_>) -> Option<Call>
    ensures { option_map (λ call. (call, words.new)) result
        ≡ call_after directory.now.sites directory.now.atoms word.now words.old }
{
    if word == b"exec".as_slice() {
        let site = take_site(words, directory)?;
        let event = take_event(words, directory)?;
        return Some(Call::Exec(site, event));
    }
    if word == b"look".as_slice() {
        let site = take_site(words, directory)?;
        return Some(Call::Look(site));
    }
    if word == b"enabled".as_slice() {
        let site = take_site(words, directory)?;
        return Some(Call::Enabled(site));
    }
    if word == b"accepting".as_slice() {
        return Some(Call::Accepting);
    }
    None
}

// Takes the site that the first word names.
#[tactic(auto, unfolding(crate::specs::Words::first_by))]
fn take_site(words: &mut Pieces<'_>, directory: &Directory<'_>) -> Option<SiteId>
    ensures { option_map (λ site. (site, words.new)) result ≡ name_from directory.now.sites words.old }
{
    directory.site(words.next()?)
}

/// Takes the event that the first word names.
#[tactic(auto, unfolding(crate::specs::Words::first_by))]
pub(crate) fn take_event(words: &mut Pieces<'_>, directory: &Directory<'_>) -> Option<EventId>
    ensures { option_map (λ event. (event, words.new)) result ≡ name_from directory.now.atoms words.old }
{
    directory.atom(words.next()?)
}
