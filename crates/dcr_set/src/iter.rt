ghost use Rattle.std.specs.Prelude.{◌≡◌, ℕ, ◌≤◌, false};
ghost use Rattle.std.specs.Iterator.{YieldsFirst, item_count};
ghost use Rattle.dcr_set.specs.EventSet.{numbers, those};
ghost use Rattle.dcr_set.specs.Bits.{bit};

use crate::{EventId, lowest};
use std::marker::Model;

/// The events of a set, ascending. Contracts see the list of those still to come.
#[derive(Drop)]
pub struct EventIter<'a> {
    words: &'a [u64; 16],
    // The word whose bits are given now, and those of them that are still to come.
    at: usize,
    rest: u64,
    // No bit is set in this word or behind it.
    end: usize,
}

impl<'a> Model for EventIter<'a> {
    ghost use Rattle.std.specs.Prelude.{List, ℕ};

    ghost Value = { List ℕ };

    ghost use Rattle.dcr_set.specs.EventIterModel.{events_left, FitsWords};

    ghost view = { events_left };

    ghost invariant = { FitsWords };
}

impl<'a> EventIter<'a> {
    /// All bits of the words, of which none is set from the room on.
    pub(crate) fn new(words: &'a [u64; 16], room: u16) -> EventIter<'a>
        requires most { room ≤ 1024 }
        requires clear { (k : ℕ) → room ≤ k → bit words.now k ≡ false }
        ensures { result ≡ numbers (those 1024 (bit words.now)) }
    {
        EventIter {
            words,
            at: 0,
            rest: words[0],
            end: usize::from((room + 63) / 64),
        }
    }
}

impl<'a> Iterator for EventIter<'a> {
    type Item = EventId;

    ghost next_gives = { YieldsFirst (λ s. s) };

    ghost remaining = { item_count (λ s. s) };

    fn next(&mut self) -> Option<EventId> {
        if self.rest == 0 {
            self.at = lowest::word_from(self.words, self.at + 1, self.end)?;
            self.rest = self.words[self.at];
        }
        let low = lowest::lowest_bit(self.rest);
        self.rest &= !(1u64 << u32::from(low));
        Some(EventId(self.at as u16 * 64 + low))
    }
}
