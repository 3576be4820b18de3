ghost use Rattle.std.specs.Prelude.{◌≡◌, ◌+◌, ◌≤◌, ℕ, List, Err, Some, length, drop, slice_get, MatchOption, IfOk};
ghost use Rattle.dcr_greet.specs.KeyText.{BeginsWithLine, IsKeysText, IsWrongLine};

use crate::key::read_front;
use crate::{Key, KeysStop};
use dcr_proj::Cover;
use dcr_set::SiteId;
use std::alloc::Global;
use std::marker::Model;

/// The keys of the sites, in order. Contracts see the bytes of each.
#[derive(Drop)]
pub struct Keys {
    keys: Vec<Key>,
}

impl Model for Keys {
    ghost use Rattle.std.specs.Prelude.{ℕ, List};

    ghost Value = { List (List ℕ) };

    ghost view = { λ keys. keys.keys.items };
}

impl Keys {
    /// The keys that the text gives the sites: a line for each, in order, of its name, a blank and 64 hex digits in either case,
    /// and nothing more. `Wrong` comes exactly where the text isn't so, and `NoMemory` where memory could not be had.
    pub fn read(alloc: Global, text: &[u8], cover: &Cover) -> Result<Keys, KeysStop>
        ensures read { IfOk result (λ keys. IsKeysText cover.now.names text.now keys) }
        ensures wrong { (line : ℕ) → result ≡ Err (KeysStop.Wrong line) → IsWrongLine cover.now.names text.now line }
    {
        let mut keys = Vec::new(alloc);
        let mut rest = text;
        let mut line = 1;
        for site in cover.site_names() {
            let name = site.text().as_bytes();
            let Some(key) = read_line(rest, name) else {
                return Err(KeysStop::Wrong { line });
            };
            keys.push(key)?;
            rest = from(rest, name.len() + 66);
            line += 1;
        }
        if !rest.is_empty() {
            return Err(KeysStop::Wrong { line });
        }
        Ok(Keys { keys })
    }

    /// The key of a site. None exactly where there are no more keys.
    pub fn of(&self, site: SiteId) -> Option<&Key>
        ensures { MatchOption result (slice_get self.now site ≡ None) (λ key. slice_get self.now site ≡ Some key.now) }
    {
        self.keys.get(usize::from(site.0))
    }
}

// What stands from a place on.
fn from(text: &[u8], place: usize) -> &[u8]
    requires { place ≤ length text.now }
    ensures { result.now ≡ drop place text.now }
{
    &text[place..]
}

// The key in the line of this site, with which the text begins. None exactly where it doesn't begin so.
fn read_line(text: &[u8], site: &[u8]) -> Option<Key>
    ensures { MatchOption result ((key rest : List ℕ) → BeginsWithLine site.now text.now key rest → ⊥)
        (λ key. BeginsWithLine site.now text.now key (drop (length site.now + 66) text.now)) }
{
    let rest = text.strip_prefix(site)?;
    let behind = rest.strip_prefix(b" ")?;
    read_front(behind)
}
