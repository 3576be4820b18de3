ghost use Rattle.std.specs.Prelude.{◌≡◌, ◌↔◌, ℕ, List, Some, drop, MatchOption};
ghost use Rattle.dcr_greet.specs.KeyText.{BeginsWithKey, IsKeyText};

use crate::places::part;
use hex::FromHex;
use std::marker::Model;

/// What a site and who orders its calls know, and nobody else: 32 bytes. Contracts see the bytes.
#[derive(Drop)]
pub struct Key {
    bytes: [u8; 32],
}

impl Model for Key {
    ghost use Rattle.std.specs.Prelude.{ℕ, List};

    ghost Value = { List ℕ };

    ghost use Rattle.dcr_greet.specs.KeyModel.{key_of};

    ghost view = { key_of };
}

impl Key {
    /// The key that the text is: 64 hex digits, in either case, and a line end. None exactly where the text is no key's. Takes no
    /// memory.
    pub fn read(text: &[u8]) -> Option<Key>
        ensures { MatchOption result ((key : List ℕ) → IsKeyText text.now key → ⊥) (IsKeyText text.now) }
    {
        if text.len() != 65 {
            return None;
        }
        read_front(text)
    }

    /// Its bytes.
    pub fn bytes(&self) -> &[u8; 32]
        ensures { result.now ≡ self.now }
    {
        &self.bytes
    }
}

/// The key in the first 65 bytes of the text, which are 64 hex digits and a line end. None exactly where the text doesn't begin
/// so.
pub(crate) fn read_front(text: &[u8]) -> Option<Key>
    ensures { MatchOption result ((key rest : List ℕ) → BeginsWithKey text.now key rest → ⊥) (λ key. BeginsWithKey text.now key (drop 65 text.now)) }
{
    if text.len() < 65 || text[64] != b'\n' {
        return None;
    }
    let digits: [u8; 64] = part(text, 0);
    let bytes = <[u8; 32] as FromHex>::from_hex(digits).ok()?;
    Some(Key { bytes })
}
