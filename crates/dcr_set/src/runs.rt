// Where the next run of bits begins, and where it ends: word by word, with the bits before the start left out of the first word.
ghost use Rattle.std.specs.Prelude.{◌≡◌, ℕ, ◌<◌, ◌≤◌, true, false, ◌&&◌, nat_le};
ghost use Rattle.dcr_set.specs.Bits.{bit};
ghost use Rattle.dcr_set.specs.Least.{least};

use crate::lowest::{lowest_bit, word_from};

/// The least bit from this one on that is set. None exactly where none is.
pub fn first_set(words: &[u64; 16], from: u16, room: u16) -> Option<u16>
    requires most { room ≤ 1024 }
    requires clear { (k : ℕ) → room ≤ k → bit words.now k ≡ false }
    ensures { result ≡ least room (λ k. bit words.now k && nat_le from k) }
{
    if from >= room {
        return None;
    }
    let at = usize::from(from / 64);
    let rest = words[at] & (u64::MAX << u32::from(from % 64));
    if rest != 0 {
        return Some(at as u16 * 64 + lowest_bit(rest));
    }
    let later = word_from(words, at + 1, usize::from((room + 63) / 64))?;
    Some(later as u16 * 64 + lowest_bit(words[later]))
}

/// The least number from this one on whose bit is not set.
pub fn first_clear(words: &[u64; 16], from: u16) -> u16
    ensures from { from ≤ result }
    ensures clear { bit words.now result ≡ false }
    ensures set_before { (k : ℕ) → from ≤ k → k < result → bit words.now k ≡ true }
{
    if from >= 1024 {
        return from;
    }
    let at = usize::from(from / 64);
    let gaps = !words[at] & (u64::MAX << u32::from(from % 64));
    if gaps != 0 {
        return at as u16 * 64 + lowest_bit(gaps);
    }
    for i in at + 1..16 {
        let gaps = !words[i];
        if gaps != 0 {
            return i as u16 * 64 + lowest_bit(gaps);
        }
    }
    1024
}
