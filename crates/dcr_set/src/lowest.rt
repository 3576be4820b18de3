// The least bit that is set in words, and in what words have in common. As in `words`, each loop is a function of its own, inlined
// at four words, where these hold the room, and at sixteen.
ghost use Rattle.std.specs.Prelude.{◌≡◌, ◌≢◌, ℕ, ◌*◌, ◌^◌, ◌<◌, ◌≤◌, false, not, ◌&&◌, ◌==◌, nat_le, slice_index};
ghost use Rattle.std.specs.Int.{trailing_zeros, w64};
ghost use Rattle.dcr_set.specs.Bits.{bit};
ghost use Rattle.dcr_set.specs.Least.{least};

/// The least bit that is set. None exactly where none is.
pub fn lowest_of(words: &[u64; 16], room: u16) -> Option<u16>
    requires most { room ≤ 1024 }
    requires clear { (k : ℕ) → room ≤ k → bit words.now k ≡ false }
    ensures { result ≡ least room (bit words.now) }
{
    if room <= 256 {
        lowest_below(words, 4)
    } else {
        lowest_below(words, 16)
    }
}

#[inline(always)]
fn lowest_below(words: &[u64; 16], count: usize) -> Option<u16>
    requires { count ≤ 16 }
    ensures { result ≡ least (64 * count) (bit words.now) }
{
    for i in 0..count {
        let word = words[i];
        if word != 0 {
            return Some(i as u16 * 64 + lowest_bit(word));
        }
    }
    None
}

/// The least bit that is set in both. None exactly where none is.
pub fn lowest_common(one: &[u64; 16], other: &[u64; 16], room: u16) -> Option<u16>
    requires most { room ≤ 1024 }
    requires clear { (k : ℕ) → room ≤ k → bit one.now k ≡ false }
    ensures { result ≡ least room (λ k. bit one.now k && bit other.now k) }
{
    if room <= 256 {
        lowest_common_below(one, other, 4)
    } else {
        lowest_common_below(one, other, 16)
    }
}

#[inline(always)]
fn lowest_common_below(one: &[u64; 16], other: &[u64; 16], count: usize) -> Option<u16>
    requires { count ≤ 16 }
    ensures { result ≡ least (64 * count) (λ k. bit one.now k && bit other.now k) }
{
    for i in 0..count {
        let word = one[i] & other[i];
        if word != 0 {
            return Some(i as u16 * 64 + lowest_bit(word));
        }
    }
    None
}

/// The least bit that is set in `one` and in `inside` and not in `outside`. None exactly where none is.
pub fn lowest_without(
    one: &[u64; 16],
    inside: &[u64; 16],
    outside: &[u64; 16],
    room: u16,
) -> Option<u16>
    requires most { room ≤ 1024 }
    requires clear { (k : ℕ) → room ≤ k → bit one.now k ≡ false }
    ensures { result ≡ least room (λ k. bit one.now k && (bit inside.now k && not (bit outside.now k))) }
{
    if room <= 256 {
        lowest_without_below(one, inside, outside, 4)
    } else {
        lowest_without_below(one, inside, outside, 16)
    }
}

#[inline(always)]
fn lowest_without_below(
    one: &[u64; 16],
    inside: &[u64; 16],
    outside: &[u64; 16],
    count: usize,
) -> Option<u16>
    requires { count ≤ 16 }
    ensures { result ≡ least (64 * count) (λ k. bit one.now k && (bit inside.now k && not (bit outside.now k))) }
{
    for i in 0..count {
        let cleared = outside[i];
        let word = one[i] & (inside[i] & !cleared);
        if word != 0 {
            return Some(i as u16 * 64 + lowest_bit(word));
        }
    }
    None
}

/// The least bit that is set in all three. None exactly where none is.
pub fn lowest_of_three(
    one: &[u64; 16],
    second: &[u64; 16],
    third: &[u64; 16],
    room: u16,
) -> Option<u16>
    requires most { room ≤ 1024 }
    requires clear { (k : ℕ) → room ≤ k → bit one.now k ≡ false }
    ensures { result ≡ least room (λ k. bit one.now k && (bit second.now k && bit third.now k)) }
{
    if room <= 256 {
        lowest_of_three_below(one, second, third, 4)
    } else {
        lowest_of_three_below(one, second, third, 16)
    }
}

#[inline(always)]
fn lowest_of_three_below(
    one: &[u64; 16],
    second: &[u64; 16],
    third: &[u64; 16],
    count: usize,
) -> Option<u16>
    requires { count ≤ 16 }
    ensures { result ≡ least (64 * count) (λ k. bit one.now k && (bit second.now k && bit third.now k)) }
{
    for i in 0..count {
        let word = one[i] & (second[i] & third[i]);
        if word != 0 {
            return Some(i as u16 * 64 + lowest_bit(word));
        }
    }
    None
}

/// The first word from `from` on, and below `end`, that isn't 0.
pub fn word_from(words: &[u64; 16], from: usize, end: usize) -> Option<usize>
    requires { end ≤ 16 }
    ensures { result ≡ least end (λ i. nat_le from i && not (slice_index words.now i == 0)) }
{
    for i in from..end {
        if words[i] != 0 {
            return Some(i);
        }
    }
    None
}

/// The place of the lowest bit that is set.
pub fn lowest_bit(word: u64) -> u16
    requires { word ≢ 0 }
    // A word's own range, which the proof of the caller cites.
    ensures fits { word < 2 ^ 64 }
    ensures place { result ≡ trailing_zeros w64 word }
    ensures low { result < 64 }
{
    word.trailing_zeros() as u16
}
