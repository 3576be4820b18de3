ghost use Rattle.std.specs.Prelude.{◌≡◌, ◌<◌, ℕ, List, [], ◌∷◌, ◌++◌, None, length, vec_len, IfOk, OnOk};
ghost use Rattle.dcr_graph.specs.IndexModel.{place_among};
ghost use Rattle.dcr_graph.specs.Names.{number_of};
ghost use Rattle.dcr_log.specs.Gathered.{held_in, place_in, AreNoted};

use crate::TraceName;
use dcr_set::NoMemory;
use std::alloc::Global;
use std::collections::BTreeMap;
use std::hash::{FoldHasher, Hasher};

/// Where the trace of each name stands. A name's hash, which goes on from a start, tells its slot. That holds 0, or a place
/// and one more: that of the first name that has the slot.
#[derive(Drop)]
pub(crate) struct Places {
    start: FoldHasher,
    slots: Vec<usize>,
    // Where the traces of the other names stand. The names come from a stranger, who may have computed them to share a slot:
    // a map in order compares a logarithm of their number, whatever they are.
    others: BTreeMap<TraceName, usize>,
}

impl Places {
    /// Of no name yet, with so many slots.
    pub(crate) fn new(alloc: Global, slots: usize) -> Result<Places, NoMemory>
        requires { 0 < slots }
        ensures { IfOk result (λ places. AreNoted places []) }
    {
        let slots = vec![in alloc; 0; slots]?;
        Ok(Places {
            start: FoldHasher::default(),
            slots,
            others: BTreeMap::new(alloc),
        })
    }

    /// How many slots there are.
    pub(crate) fn slots(&self) -> usize
        ensures { result ≡ vec_len self.now.slots }
    {
        self.slots.len()
    }

    /// What the slot of a name holds.
    pub(crate) fn held(&self, name: &TraceName) -> usize
        requires { 0 < length self.now.slots.items }
        ensures { result ≡ held_in self.now name.now }
    {
        self.slots[self.slot_of(name)]
    }

    /// The place of a name whose slot another has.
    pub(crate) fn other(&self, name: &TraceName) -> Option<usize>
        ensures { result ≡ place_in self.now.others name.now }
    {
        self.others.get(name).copied()
    }

    /// Notes a new name: its place is the one behind all.
    pub(crate) fn note(&mut self, name: &TraceName, place: usize) -> Result<(), NoMemory>
        requires some { 0 < length self.old.slots.items }
        requires within { place < 18446744073709551615 }
        ensures { (names : List (List ℕ)) → AreNoted self.old names → number_of names name.now ≡ None → place ≡ length names
            → OnOk result (AreNoted self.new (names ++ name.now ∷ [])) }
    {
        let slot = self.slot_of(name);
        if self.slots[slot] == 0 {
            self.slots[slot] = place + 1;
            return Ok(());
        }
        self.others.insert(name.copy(), place)?;
        Ok(())
    }

    // The slot of a name.
    #[tactic(auto, unfolding(dcr_graph::specs::IndexModel::place_among))]
    fn slot_of(&self, name: &TraceName) -> usize
        requires { 0 < length self.now.slots.items }
        ensures slot { result ≡ place_among (length self.now.slots.items) self.now.start name.now }
        ensures within { result < length self.now.slots.items }
    {
        let mut hasher = self.start;
        hasher.write(name.text().as_bytes());
        (hasher.finish() % (self.slots.len() as u64)) as usize
    }
}
