ghost use Rattle.std.specs.Prelude.{◌≡◌, ◌<◌, ◌≤◌, ◌↔◌, [], ◌∷◌, ◌++◌, length, slice_get, option_map, IsTrue, IfOk};
ghost use Rattle.dcr_pool.specs.Filled.{empty_block};

use dcr_set::NoMemory;
use std::alloc::Global;
use std::marker::Model;

/// Entries in order, and room for as many as the pool that it came from gives each block. Contracts see the list of
/// the entries and the room.
#[derive(Drop)]
pub struct Block<T> {
    // Its capacity is the room.
    entries: Vec<T>,
}

impl<T> Model for Block<T> {
    ghost use Rattle.dcr_pool.specs.Filled.{Filled, filled_code};

    ghost Value = { Filled T };

    ghost coded = { filled_code T.code };

    ghost use Rattle.dcr_pool.specs.BlockModel.{filled_of, FitsRoom};

    ghost view = { filled_of };

    ghost invariant = { FitsRoom };
}

impl<T> Block<T> {
    /// An empty block with this room, which is taken here.
    pub(crate) fn open(alloc: Global, room: u32) -> Result<Block<T>, NoMemory>
        ensures { IfOk result (λ block. block ≡ empty_block room) }
    {
        let entries = Vec::with_capacity(alloc, room as usize)?;
        Ok(Block { entries })
    }

    /// Adds an entry at the end. Takes no memory.
    pub fn push(&mut self, item: T)
        requires { length self.old.entries < self.old.room }
        ensures entries { self.new.entries ≡ self.old.entries ++ item ∷ [] }
        ensures room { self.new.room ≡ self.old.room }
    {
        self.entries.push_reserved(item);
    }

    /// The entry at a place, from 0. None exactly where the place is not below the length.
    pub fn get(&self, i: usize) -> Option<&T>
        ensures { option_map (λ entry. entry.now) result ≡ slice_get self.now.entries i }
    {
        self.entries.get(i)
    }

    /// How many entries there are.
    pub fn len(&self) -> usize
        ensures len { result ≡ length self.now.entries }
        ensures room { length self.now.entries ≤ self.now.room }
    {
        self.entries.len()
    }

    /// Whether there is no entry.
    pub fn is_empty(&self) -> bool
        ensures { IsTrue result ↔ (self.now.entries ≡ []) }
    {
        self.entries.is_empty()
    }
}

impl<T: Drop> Block<T> {
    /// Drops all entries. The room stays.
    pub(crate) fn clear(&mut self)
        ensures { self.new ≡ empty_block self.old.room }
    {
        self.entries.clear();
    }
}
