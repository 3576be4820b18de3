// Sixteen words of 64 bits each. Bit k is bit k % 64 of word k / 64; there is none from 1,024 on. A call is told the room, from which
// on no bit is set, and goes over the first four words alone where these hold it. Each loop over words is a function of its own,
// inlined at four words and at sixteen, so that neither loop counts when it runs.
ghost use Rattle.std.specs.Prelude.{◌≡◌, ℕ, ◌*◌, ◌<◌, ◌≤◌, false, not, ◌&&◌, ◌||◌, ◌==◌, length};
ghost use Rattle.dcr_set.specs.Bits.{bit};

/// The bits of either, in `words`.
pub fn unite(words: &mut [u64; 16], other: &[u64; 16], room: u16)
    requires { (k : ℕ) → room ≤ k → bit other.now k ≡ false }
    ensures len { length words.new ≡ 16 }
    ensures bits { (k : ℕ) → bit words.new k ≡ (bit words.old k || bit other.now k) }
{
    if room <= 256 {
        unite_below(words, other, 4);
    } else {
        unite_below(words, other, 16);
    }
}

#[inline(always)]
fn unite_below(words: &mut [u64; 16], other: &[u64; 16], count: usize)
    requires count { count ≤ 16 }
    requires clear { (k : ℕ) → 64 * count ≤ k → bit other.now k ≡ false }
    ensures len { length words.new ≡ 16 }
    ensures bits { (k : ℕ) → bit words.new k ≡ (bit words.old k || bit other.now k) }
{
    for i in 0..count {
        words[i] |= other[i];
    }
}

/// The bits of `words` that `other` hasn't.
pub fn subtract(words: &mut [u64; 16], other: &[u64; 16], room: u16)
    requires { (k : ℕ) → room ≤ k → bit other.now k ≡ false }
    ensures len { length words.new ≡ 16 }
    ensures bits { (k : ℕ) → bit words.new k ≡ (bit words.old k && not (bit other.now k)) }
{
    if room <= 256 {
        subtract_below(words, other, 4);
    } else {
        subtract_below(words, other, 16);
    }
}

#[inline(always)]
fn subtract_below(words: &mut [u64; 16], other: &[u64; 16], count: usize)
    requires count { count ≤ 16 }
    requires clear { (k : ℕ) → 64 * count ≤ k → bit other.now k ≡ false }
    ensures len { length words.new ≡ 16 }
    ensures bits { (k : ℕ) → bit words.new k ≡ (bit words.old k && not (bit other.now k)) }
{
    for i in 0..count {
        let cleared = other[i];
        words[i] &= !cleared;
    }
}

/// The bits of `words` that `other` has too.
pub fn keep(words: &mut [u64; 16], other: &[u64; 16], room: u16)
    requires { (k : ℕ) → room ≤ k → bit words.old k ≡ false }
    ensures len { length words.new ≡ 16 }
    ensures bits { (k : ℕ) → bit words.new k ≡ (bit words.old k && bit other.now k) }
{
    if room <= 256 {
        keep_below(words, other, 4);
    } else {
        keep_below(words, other, 16);
    }
}

#[inline(always)]
fn keep_below(words: &mut [u64; 16], other: &[u64; 16], count: usize)
    requires count { count ≤ 16 }
    requires clear { (k : ℕ) → 64 * count ≤ k → bit words.old k ≡ false }
    ensures len { length words.new ≡ 16 }
    ensures bits { (k : ℕ) → bit words.new k ≡ (bit words.old k && bit other.now k) }
{
    for i in 0..count {
        words[i] &= other[i];
    }
}

/// Sets bit `e`.
pub fn set_bit(words: &mut [u64; 16], e: u16)
    requires { e < 1024 }
    ensures len { length words.new ≡ 16 }
    ensures bits { (k : ℕ) → bit words.new k ≡ ((k == e) || bit words.old k) }
{
    let word = usize::from(e / 64);
    words[word] |= 1u64 << u32::from(e % 64);
}

/// Clears bit `e`.
pub fn clear_bit(words: &mut [u64; 16], e: u16)
    requires { e < 1024 }
    ensures len { length words.new ≡ 16 }
    ensures bits { (k : ℕ) → bit words.new k ≡ (bit words.old k && not (k == e)) }
{
    let word = usize::from(e / 64);
    words[word] &= !(1u64 << u32::from(e % 64));
}

/// Whether bit `e` is set.
pub fn test_bit(words: &[u64; 16], e: u16) -> bool
    requires { e < 1024 }
    ensures { result ≡ bit words.now e }
{
    let word = words[usize::from(e / 64)];
    (word >> u32::from(e % 64)) & 1 == 1
}

/// A number that is mixed from all words.
pub fn mix(words: &[u64; 16]) -> u64 {
    let mut mixed = 0u64;
    for word in words {
        mixed = (mixed.rotate_left(23) ^ *word).wrapping_mul(0x9E37_79B9_7F4A_7C15);
    }
    mixed
}
