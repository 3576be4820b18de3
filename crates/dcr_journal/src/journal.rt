ghost use Rattle.std.specs.Prelude.{◌≡◌, ◌+◌, ◌-◌, ◌<◌, ◌≤◌, [], ◌∷◌, ◌++◌, length, ◌↔◌, IsTrue, IfOk, Some, slice_get};

use crate::slot::{Kept, MOST_WORDS, Slot};
use crate::{Call, Entry, Outcome};
use dcr_set::NoMemory;
use std::alloc::Global;
use std::marker::Model;
use std::mem::size_of;

// A full journal takes under 6 MB, and under 100 MB where each entry tells marks over 1,024 atoms.
const _: () = prove!(200_000 * size_of::<Slot>() < 6_000_000);

const _: () = prove!(200_000 * (size_of::<Slot>() + MOST_WORDS * size_of::<u64>()) < 100_000_000);

/// The journal of a run: its entries in their one order, and room for as many as its capacity. All its
/// memory is taken when it is opened. Contracts see the list of entries and the capacity.
#[derive(Drop)]
pub struct Journal {
    slots: Vec<Slot>,
    // The sets of the slots' outcomes, one slot's behind the other's. Room for the most that there may be is taken when
    // the journal is opened, and none of it is touched that no set needs.
    row: Vec<u64>,
    capacity: u32,
}

impl Model for Journal {
    ghost use Rattle.dcr_journal.specs.JournalValue.{History};

    ghost Value = { History };

    ghost use Rattle.dcr_journal.specs.JournalModel.{history_of, FitsCapacity};

    ghost view = { history_of };

    ghost invariant = { FitsCapacity };
}

impl Journal {
    /// An empty journal with room for so many entries.
    pub fn open(alloc: Global, capacity: u32) -> Result<Journal, NoMemory>
        requires { capacity ≤ 200000 }
        ensures empty { IfOk result (λ journal. journal.entries ≡ []) }
        ensures capacity { IfOk result (λ journal. journal.capacity ≡ capacity) }
    {
        let slots = Vec::with_capacity(alloc, capacity as usize)?;
        let row = Vec::with_capacity(alloc, MOST_WORDS * capacity as usize)?;
        Ok(Journal {
            slots,
            row,
            capacity,
        })
    }

    /// Adds an entry at the end. Takes no memory.
    pub fn push(&mut self, entry: Entry)
        requires { length self.old.entries < self.old.capacity }
        ensures entries { self.new.entries ≡ self.old.entries ++ entry ∷ [] }
        ensures capacity { self.new.capacity ≡ self.old.capacity }
    {
        self.push_call(entry.session, entry.seq, &entry.call, &entry.outcome);
    }

    /// Adds the entry of a call at the end: the session's, which had made `seq` calls before, with this outcome. Takes no
    /// memory.
    pub fn push_call(&mut self, session: u32, seq: u32, call: &Call, outcome: &Outcome)
        requires { length self.old.entries < self.old.capacity }
        ensures entries { self.new.entries ≡ self.old.entries
            ++ record { session = session; seq = seq; call = call.now; outcome = outcome.now } ∷ [] }
        ensures capacity { self.new.capacity ≡ self.old.capacity }
    {
        let place = self.row.len() as u32;
        let outcome = Kept::of(outcome, &mut self.row);
        self.slots.push_reserved(Slot {
            session,
            seq,
            place,
            call: *call,
            outcome,
        });
    }

    /// The same journal again, with the same capacity and memory of its own.
    pub fn copy(&self, alloc: Global) -> Result<Journal, NoMemory>
        ensures { IfOk result (λ journal. journal ≡ self.now) }
    {
        let mut copy = Journal::open(alloc, self.capacity)?;
        let mut next = Entry::blank();
        for place in 0..self.len() {
            self.read(place, &mut next);
            copy.push_call(next.session, next.seq, &next.call, &next.outcome);
        }
        Ok(copy)
    }

    /// For how many more entries there is room.
    pub fn spare(&self) -> u32
        ensures spare { result + length self.now.entries ≡ self.now.capacity }
    {
        self.capacity - self.len()
    }

    /// How many entries there are.
    pub fn len(&self) -> u32
        ensures len { result ≡ length self.now.entries }
        ensures room { length self.now.entries ≤ self.now.capacity }
    {
        self.slots.len() as u32
    }

    /// Whether there is no entry.
    pub fn is_empty(&self) -> bool
        ensures { IsTrue result ↔ (self.now.entries ≡ []) }
    {
        self.slots.is_empty()
    }

    /// The entry at a place, from 0, as a value of its own. None exactly where the place is not below the length.
    /// Takes no memory.
    pub fn get(&self, place: u32) -> Option<Entry>
        ensures { result ≡ slice_get self.now.entries place }
    {
        if place >= self.len() {
            return None;
        }
        let mut entry = Entry::blank();
        self.read(place, &mut entry);
        Some(entry)
    }

    /// Makes a value the entry at a place below the length, from 0. Takes no memory.
    pub fn read(&self, place: u32, entry: &mut Entry)
        requires { place < length self.now.entries }
        ensures { slice_get self.now.entries place ≡ Some entry.new }
    {
        self.slots[place as usize].read(&self.row, entry);
    }

    /// The last entry, as a value of its own. None exactly where there is none. Takes no memory.
    pub fn last(&self) -> Option<Entry>
        ensures { result ≡ slice_get self.now.entries (length self.now.entries - 1) }
    {
        self.get(self.len().saturating_sub(1))
    }
}
