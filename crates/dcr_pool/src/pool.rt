ghost use Rattle.std.specs.Prelude.{◌≡◌, ◌+◌, ◌-◌, ◌<◌, ◌≤◌, ◌==◌, if◌then◌else◌, IfOk, Some, None};
ghost use Rattle.dcr_pool.specs.Filled.{empty_block};
ghost use Rattle.dcr_pool.specs.Supply.{supply};

use crate::Block;
use dcr_set::NoMemory;
use std::alloc::Global;
use std::marker::Model;

/// A number of blocks of equal room, whose memory is all taken when the pool is opened. A block is taken out of the
/// pool and given back. Contracts see how many blocks the pool was opened with, for how many entries each has room,
/// and how many of them are in the pool.
#[derive(Drop)]
pub struct Pool<T> {
    // The empty blocks that are in the pool.
    free: Vec<Block<T>>,
    blocks: u32,
    per_block: u32,
}

impl<T> Model for Pool<T> {
    ghost use Rattle.dcr_pool.specs.Supply.{Supply};

    ghost Value = { Supply };

    ghost use Rattle.dcr_pool.specs.PoolModel.{supply_of, HoldsEmptyBlocks};

    ghost view = { supply_of };

    ghost invariant = { HoldsEmptyBlocks };
}

impl<T> Pool<T> {
    /// Takes a block out of the pool. It is empty and has the room that the pool gives each block. None exactly where
    /// no block is spare. Takes no memory.
    pub fn take(&mut self) -> Option<Block<T>>
        ensures block { result ≡ (if self.old.spare == 0 then None else Some (empty_block self.old.per_block)) }
        ensures spare { self.new ≡ record self.old { spare = self.old.spare - 1 } }
    {
        self.free.pop()
    }

    /// How many blocks are in the pool.
    pub fn spare(&self) -> u32
        ensures spare { result ≡ self.now.spare }
        ensures most { self.now.spare ≤ self.now.blocks }
    {
        self.free.len() as u32
    }
}

impl<T: Drop> Pool<T> {
    /// A pool of so many blocks, each with room for so many entries. All memory is taken here.
    pub fn open(alloc: Global, blocks: u32, per_block: u32) -> Result<Pool<T>, NoMemory>
        ensures { IfOk result (λ pool. pool ≡ supply blocks per_block blocks) }
    {
        let mut free = Vec::with_capacity(alloc, blocks as usize)?;
        for _ in 0..blocks {
            free.push_reserved(Block::open(alloc, per_block)?);
        }
        Ok(Pool {
            free,
            blocks,
            per_block,
        })
    }

    /// Puts a block back into the pool, and drops its entries. Takes no memory.
    pub fn give(&mut self, block: Block<T>)
        requires room { block.room ≡ self.old.per_block }
        requires missing { self.old.spare < self.old.blocks }
        ensures { self.new ≡ record self.old { spare = self.old.spare + 1 } }
    {
        let mut block = block;
        block.clear();
        self.free.push_reserved(block);
    }
}
