// A list in which what comes again is looked for, so that most of it is kept once.
ghost use Rattle.std.specs.Prelude.{◌≡◌, ◌≢◌, ◌<◌, true, false, [], ◌∷◌, length, slice_index_or, IfOk};
ghost use Rattle.dcr_proj.specs.Once.{AreSlots, Grows};

use dcr_set::NoMemory;
use std::alloc::Global;

/// What can be compared, and looked for.
pub trait Alike {
    /// Whether both are the same.
    fn is_like(&self, other: &Self) -> bool
        ensures same { result ≡ true → self.now ≡ other.now }
        ensures other { result ≡ false → self.now ≢ other.now };

    /// A number by which it is looked for: the same have the same. It says nothing in contracts.
    fn mixed(&self) -> u64;
}

// How many places there are to look at. A projection has some hundred or a few thousand different masks.
const SLOTS: usize = 4_096;

/// Items, each under its number, of which an equal one was rarely there before. Looking for one costs the same however
/// many there are.
#[derive(Drop)]
pub struct Once<T> {
    items: Vec<T>,
    // At each place the number of the item that came there last.
    slots: Vec<u16>,
    ghost known: { AreSlots (length items.items) slots.items },
}

impl<T: Alike + Drop> Once<T> {
    /// Of one item.
    pub fn of(alloc: Global, first: T) -> Result<Once<T>, NoMemory>
        ensures { IfOk result (λ once. once.items.items ≡ first ∷ []) }
    {
        let mut items = Vec::new(alloc);
        items.push(first)?;
        let slots = vec![in alloc; 0; SLOTS]?;
        Ok(Once { items, slots })
    }

    /// The number of an item. One more is kept where no equal one was found.
    pub fn keep(&mut self, item: T) -> Result<u16, NoMemory>
        requires most { length self.old.items.items < 65536 }
        ensures within { IfOk result (λ number. number < length self.new.items.items) }
        ensures number { IfOk result (λ number. (other : T) → slice_index_or self.new.items.items number other ≡ item) }
        ensures grown { Grows self.old.items.items self.new.items.items item }
    {
        let slot = (item.mixed() / 0x10_0000_0000_0000) as usize;
        let known = self.slots[slot];
        if self.items[usize::from(known)].is_like(&item) {
            return Ok(known);
        }
        let number = self.items.len() as u16;
        self.items.push(item)?;
        self.slots[slot] = number;
        Ok(number)
    }

    /// The items, once all are kept, in no more memory than they need.
    pub fn into_items(self) -> Vec<T>
        ensures { result.items ≡ self.items.items }
    {
        let mut items = self.items;
        items.shrink_to_fit();
        items
    }
}
