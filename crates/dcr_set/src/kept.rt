// The words of a set in a row of words: as many as its room needs.
ghost use Rattle.std.specs.Prelude.{◌≡◌, ℕ, ◌+◌, ◌*◌, ◌≤◌, ◌&&◌, ◌++◌, nat_lt, length, take, vec_capacity};
ghost use Rattle.dcr_set.specs.Bits.{bit};
ghost use Rattle.dcr_set.specs.Kept.{words_needed};

/// How many words a set with this room takes.
pub fn needed(room: u16) -> usize
    ensures { result ≡ words_needed room }
{
    usize::from(room).div_ceil(64)
}

/// Adds the words of a set with this room to the row. Takes no memory.
pub fn put(words: &[u64; 16], room: u16, row: &mut Vec<u64>)
    requires most { room ≤ 1024 }
    requires reserved { length row.old.items + words_needed room ≤ vec_capacity row.old }
    ensures row { row.new.items ≡ row.old.items ++ take (words_needed room) words.now }
    ensures capacity { vec_capacity row.old ≤ vec_capacity row.new }
{
    let Ok(()) = row.extend_from_slice(&words[..needed(room)]) else {
        unreachable!()
    };
}

/// The bits below the room that the row has from this word on.
pub fn read(row: &[u64], place: usize, room: u16) -> [u64; 16]
    requires most { room ≤ 1024 }
    requires within { place + words_needed room ≤ length row.now }
    ensures len { length result ≡ 16 }
    ensures bits { (k : ℕ) → bit result k ≡ (nat_lt k room && bit row.now (64 * place + k)) }
{
    let whole = usize::from(room / 64);
    let mut words = [0; 16];
    for i in 0..whole {
        words[i] = row[place + i];
    }
    let rest = u32::from(room % 64);
    if rest != 0 {
        words[whole] = row[place + whole] & !(u64::MAX << rest);
    }
    words
}
