ghost use Rattle.std.specs.Prelude.{◌≡◌};
ghost use Rattle.dcr_journal.specs.declared.call.Outcome.TheVariants.{Faulted};

use crate::StoreName;
use dcr_base::Disk;
use dcr_journal::{Call, Outcome};
use dcr_set::{EventId, SiteId};
use dcr_tape::{DiskFault, Store, TapeEntry};
use dcr_turn::Keeps;
use std::marker::PhantomData;

/// What lies beside the journal under its lock: the store of the run.
#[derive(Drop)]
pub struct Kept<D, N> {
    store: Store<D>,
    of: PhantomData<N>,
}

impl<D: Disk, N: StoreName<D>> Keeps for Kept<D, N> {
    ghost use Rattle.dcr_cell.specs.Keeping.{StandsBy};

    ghost stands = { λ J kept. StandsBy D.view D.faults N.cluster N.first J kept.store };
}

impl<D: Disk, N: StoreName<D>> Kept<D, N> {
    ghost use Rattle.std.specs.Prelude.{◌≡◌, ◌++◌, ◌∷◌, [], List};
    ghost use Rattle.dcr_journal.specs.declared.call.Call.TheVariants.{Exec};
    ghost use Rattle.dcr_journal.specs.declared.call.Outcome.TheVariants.{Done};
    ghost use Rattle.dcr_journal.specs.declared.call.Entry.{Entry};
    ghost use Rattle.dcr_journal.specs.Run.{HasNoFault, made_by};
    ghost use Rattle.dcr_cell.specs.ClusterId.{IsCall, answer_after};
    ghost use Rattle.dcr_cell.specs.Keeping.{IsToldAs, StandsBy, kept_as};
    ghost use Rattle.dcr_cell.specs.Stored.{CanKeep, StoreStands};

    /// Of the store of a run that has no entry yet.
    pub fn new(store: Store<D>) -> Kept<D, N>
        requires { StoreStands D.view D.faults N.first N.cluster.old [] store }
        ensures { StandsBy D.view D.faults N.cluster N.first [] result.store }
    {
        Kept {
            store,
            of: PhantomData,
        }
    }

    /// What was found of a call becomes what it is told. An execution that is to be done is put on the tape, where there
    /// is one; where that fails it is told as a fault, and the tape is stopped. Takes no memory.
    pub fn tell(&mut self, call: &Call, told: &mut Outcome)
        requires { CanKeep self.old.store }
        ensures told { (J : List Entry) → StoreStands D.view D.faults N.first N.cluster.old J self.old.store → IsToldAs N.first told.old told.new }
        ensures kept { (J : List Entry) (entry : Entry) → StandsBy D.view D.faults N.cluster N.first J self.old.store → HasNoFault J
            → IsCall N.cluster call.now → entry.call ≡ call.now → entry.seq ≡ made_by entry.session J
            → told.old ≡ answer_after N.cluster J call.now → entry.outcome ≡ told.new
            → StandsBy D.view D.faults N.cluster N.first (J ++ entry ∷ []) self.new.store }
    {
        let Call::Exec(site, event) = call else {
            return;
        };
        let Outcome::Done = told else {
            return;
        };
        if !self.keep(*site, *event) {
            tell_fault(told);
        }
    }

    // Whether an execution is kept: it is put on the tape, where there is one. Where that fails the tape is stopped.
    fn keep(&mut self, site: SiteId, event: EventId) -> bool
        requires { CanKeep self.old.store }
        ensures told { (J : List Entry) → StoreStands D.view D.faults N.first N.cluster.old J self.old.store → IsToldAs N.first Done (kept_as result) }
        ensures kept { (J : List Entry) (entry : Entry) → StoreStands D.view D.faults N.first N.cluster.old J self.old.store → HasNoFault J
            → entry.call ≡ Exec site event → entry.outcome ≡ kept_as result
            → StoreStands D.view D.faults N.first N.cluster.old (J ++ entry ∷ []) self.new.store }
    {
        let tape = match &mut self.store {
            Store::Off(_) => return true,
            Store::On(tape) => tape,
        };
        let entry = TapeEntry {
            event: event.0,
            site: site.0,
        };
        match tape.append(entry) {
            Ok(()) => true,
            Err(DiskFault) => false,
        }
    }

    /// The store as it stands.
    pub fn store(&self) -> &Store<D>
        ensures { result.now ≡ self.now.store }
    {
        &self.store
    }

    /// The store.
    pub fn into_store(self) -> Store<D>
        ensures { result ≡ self.store }
    {
        let Kept { store, of: _ } = self;
        store
    }
}

// Tells a fault. It stands by itself, since room for an outcome is cleared where it begins.
#[inline(never)]
fn tell_fault(told: &mut Outcome)
    ensures { told.new ≡ Faulted }
{
    *told = Outcome::Faulted;
}
