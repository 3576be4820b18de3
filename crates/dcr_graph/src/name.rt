ghost use Rattle.std.specs.Prelude.{◌≡◌, ◌↔◌, true, false, IfOk, IsErrOf};
ghost use Rattle.std.specs.List.{list_all};
ghost use Rattle.dcr_graph.specs.Names.{is_letter, is_name_byte, is_name};
ghost use Rattle.dcr_graph.specs.declared.name.NameStop.TheVariants.{NoMemory as no_memory};

use dcr_set::NoMemory;
use std::alloc::{AllocError, Global};
use std::marker::Model;
use thiserror::Error;

/// The name of an event or a site: an ASCII letter and at most 63 of ASCII letters, digits, `_`, `-`
/// and `.` after it. Contracts see its bytes.
#[derive(Debug, Drop)]
pub struct Name {
    text: String,
}

impl Model for Name {
    ghost use Rattle.std.specs.Prelude.{◌≡◌, List, ℕ, true, string_bytes};

    ghost Value = { List ℕ };

    ghost use Rattle.dcr_graph.specs.Names.{is_name};

    ghost view = { λ n. string_bytes n.text };

    ghost invariant = { λ n. is_name (string_bytes n.text) ≡ true };
}

/// Why a text was not read as a name.
#[derive(Clone, Copy, Debug, PartialEq, Eq, Error)]
pub enum NameStop {
    /// The text is not a name.
    #[error("not a name")]
    NotName,
    /// Memory was wanted and could not be had.
    #[error("out of memory")]
    NoMemory,
}

impl From<AllocError> for NameStop {
    ghost from_gives = { λ _ e. e ≡ no_memory };

    fn from(_: AllocError) -> NameStop {
        NameStop::NoMemory
    }
}

impl Name {
    /// The name that the text is. `NotName` exactly where the text isn't a name.
    pub fn read(alloc: Global, text: &str) -> Result<Name, NameStop>
        ensures read { IfOk result (λ name. name ≡ text.now) }
        ensures not_name { IsErrOf result NameStop.NotName ↔ (is_name text.now ≡ false) }
    {
        if !spells_name(text.as_bytes()) {
            return Err(NameStop::NotName);
        }
        Ok(Name {
            text: String::from_str(alloc, text)?,
        })
    }

    /// The same name again. `NoMemory` where memory could not be had.
    pub fn copy(&self, alloc: Global) -> Result<Name, NoMemory>
        ensures { IfOk result (λ name. name ≡ self.now) }
    {
        let text = String::from_str(alloc, self.text())?;
        Ok(Name { text })
    }

    /// Its text.
    pub fn text(&self) -> &str
        ensures text { result.now ≡ self.now }
        ensures name { is_name self.now ≡ true }
    {
        self.text.as_str()
    }
}

// Whether the bytes are a name.
fn spells_name(text: &[u8]) -> bool
    ensures { result ≡ is_name text.now }
{
    let Some((first, rest)) = text.split_first() else {
        return false;
    };
    is_ascii_letter(*first) && rest.len() <= 63 && all_may_follow(rest)
}

// Whether each byte may stand in a name after its first.
fn all_may_follow(rest: &[u8]) -> bool
    ensures { result ≡ list_all is_name_byte rest.now }
{
    rest.iter().all(|byte| may_follow(*byte))
}

// Whether the byte is an ASCII letter.
fn is_ascii_letter(byte: u8) -> bool
    ensures { result ≡ is_letter byte }
{
    (65 <= byte && byte <= 90) || (97 <= byte && byte <= 122)
}

// Whether the byte may stand in a name after its first.
fn may_follow(byte: u8) -> bool
    ensures { result ≡ is_name_byte byte }
{
    is_ascii_letter(byte)
        || (48 <= byte && byte <= 57)
        || byte == b'_'
        || byte == b'-'
        || byte == b'.'
}
