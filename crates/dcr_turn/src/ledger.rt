ghost use Rattle.std.specs.Prelude.{◌≡◌, ◌+◌, ◌-◌, ◌<◌, [], ◌∷◌, ◌++◌, length, map, slice_get};
ghost use Rattle.std.specs.List.{All, Contains};
ghost use Rattle.dcr_journal.specs.declared.call.Entry.{Entry};
ghost use Rattle.dcr_turn.specs.FrontValue.{FrontValue, HasMissedNone, fronts_at};
ghost use Rattle.dcr_turn.specs.PassValue.{HasMadeAll};
ghost use Rattle.dcr_turn.specs.Pushing.{AllHear, ends_in_fault, entry_of, is_fault, without_first};
ghost use Rattle.dcr_turn.specs.Records.{all_know};

use crate::order::Order;
use crate::records::Records;
use crate::{Front, FrontRow, Pass, TurnName};
use dcr_journal::{Call, Entry, Journal, Outcome};
use dcr_set::SiteId;
use std::marker::{Brand, Model};

/// The journal with its record, and the records of those sites whose fronts lie beside it. Contracts see its list
/// and the numbers of these sites, the last one that came first.
#[derive(Drop)]
pub(crate) struct Ledger<N: TurnName> {
    journal: Journal,
    records: Records<N>,
    // Whether the list ends with a fault, so that no call has to look at its last entry.
    faulted: bool,
}

impl<N: TurnName> Model for Ledger<N> {
    ghost use Rattle.dcr_turn.specs.LedgerModel.{ledger_of, IsLedger};
    ghost use Rattle.dcr_turn.specs.LedgerValue.{LedgerValue};

    ghost Value = { LedgerValue };

    ghost view = { ledger_of };

    ghost invariant = { IsLedger N.capacity };
}

impl<N: TurnName> Ledger<N> {
    /// Of an empty journal and its record.
    pub(crate) fn new(journal: Journal, records: Records<N>) -> Ledger<N>
        requires entries { journal.entries ≡ [] }
        requires capacity { journal.capacity ≡ N.capacity }
        requires records { records ≡ all_know [] [] }
        ensures entries { result.entries ≡ [] }
        ensures enlisted { result.enlisted ≡ [] }
    {
        Ledger {
            journal,
            records,
            faulted: false,
        }
    }

    /// The pass has seen the whole list then.
    pub(crate) fn meet(&mut self, order: &Order<N>, pass: &mut Pass<N>)
        ensures same { self.new ≡ self.old }
        ensures session { pass.new.session ≡ pass.old.session }
        ensures front { pass.new.front ≡ self.old.entries }
        ensures made { pass.new.made ≡ pass.old.made }
        ensures seen { HasMadeAll pass.old self.old.entries }
    {
        self.records.join(order, Records::out_of(&mut pass.badge));
        self.records.hear(order);
        pass.badge = self.records.cut(order).into_badge();
        pass.seen = self.journal.len();
    }

    /// The front lies here then.
    pub(crate) fn enlist(&mut self, order: &Order<N>, front: Front<N>)
        ensures entries { self.new.entries ≡ self.old.entries }
        ensures enlisted { self.new.enlisted ≡ front.site ∷ self.old.enlisted }
        ensures seen { HasMissedNone N.turn front self.old.entries }
        ensures apart { ¬ Contains self.old.enlisted front.site }
    {
        self.records.join(order, front.into_records());
        self.records.hear(order);
    }

    /// All fronts of the row lie here then, and none is left on it.
    pub(crate) fn enlist_row(&mut self, order: &Order<N>, row: &mut FrontRow<N>)
        ensures entries { self.new.entries ≡ self.old.entries }
        ensures enlisted { self.new.enlisted ≡ map (λ (f : FrontValue). f.site) row.old ++ self.old.enlisted }
        ensures seen { All (λ front. HasMissedNone N.turn front self.old.entries) row.old }
        ensures row { row.new ≡ [] }
    {
        self.records.join(order, row.take_all(order));
        self.records.hear(order);
    }

    /// Gives the fronts of all sites that lie here. They have seen the whole list.
    pub(crate) fn dismiss_row(&mut self, order: &Order<N>, row: &mut FrontRow<N>)
        requires { row.old ≡ [] }
        ensures entries { self.new.entries ≡ self.old.entries }
        ensures enlisted { self.new.enlisted ≡ [] }
        ensures row { row.new ≡ fronts_at self.old.entries self.old.enlisted }
    {
        row.put_all(order, self.records.part::<Brand>(order));
    }

    /// All these fronts lie here then.
    pub(crate) fn enlist_all(&mut self, order: &Order<N>, mut fronts: Vec<Front<N>>)
        ensures entries { self.new.entries ≡ self.old.entries }
        ensures seen { All (λ front. HasMissedNone N.turn front self.old.entries) fronts.items }
    {
        while let Some(front) = fronts.pop() {
            self.enlist(order, front);
        }
    }

    /// Each of these passes is met.
    pub(crate) fn meet_all(&mut self, order: &Order<N>, mut passes: Vec<Pass<N>>)
        ensures same { self.new ≡ self.old }
        ensures seen { All (λ pass. HasMadeAll pass self.old.entries) passes.items }
    {
        while let Some(mut pass) = passes.pop() {
            self.meet(order, &mut pass);
        }
    }

    /// Gives the front of a site that lies here. It has seen the whole list.
    pub(crate) fn dismiss(&mut self, order: &Order<N>, site: SiteId) -> Front<N>
        requires { Contains self.old.enlisted site }
        ensures entries { self.new.entries ≡ self.old.entries }
        ensures enlisted { self.new.enlisted ≡ without_first site self.old.enlisted }
        ensures site { result.site ≡ site }
        ensures front { result.front ≡ self.old.entries }
    {
        let records = self.records.take_out::<Brand>(order, site);
        Front::new(site, self.journal.len(), records)
    }

    /// Pushes the entry of a pass that has seen the whole list.
    pub(crate) fn push(
        &mut self,
        order: &Order<N>,
        pass: &mut Pass<N>,
        call: Call,
        outcome: &Outcome,
    )
        requires met { pass.old.front ≡ self.old.entries }
        requires room { length self.old.entries < N.capacity }
        requires hear { AllHear N.turn.alphabets self.old.enlisted call outcome.now }
        ensures entries { self.new.entries ≡ self.old.entries ++ entry_of pass.old call outcome.now ∷ [] }
        ensures enlisted { self.new.enlisted ≡ self.old.enlisted }
        ensures session { pass.new.session ≡ pass.old.session }
        ensures front { pass.new.front ≡ self.new.entries }
        ensures made { pass.new.made ≡ pass.old.made + 1 }
    {
        let faulted = is_fault_told(outcome);
        self.records.join(order, Records::out_of(&mut pass.badge));
        let len = self.journal.len();
        self.records
            .publish::<Brand>(order, len, pass.session, pass.made, &call, outcome);
        pass.badge = self.records.cut(order).into_badge();
        self.journal
            .push_call(pass.session, pass.made, &call, outcome);
        self.faulted = faulted;
        pass.seen = self.journal.len();
        pass.made += 1;
    }

    /// For how many more entries there is room.
    pub(crate) fn spare(&self) -> u32
        ensures { result + length self.now.entries ≡ N.capacity }
    {
        self.journal.spare()
    }

    /// Whether the list ends with a fault.
    pub(crate) fn is_faulted(&self) -> bool
        ensures { result ≡ ends_in_fault self.now.entries }
    {
        self.faulted
    }

    /// The last entry. None exactly where there is none.
    pub(crate) fn last(&self) -> Option<Entry>
        ensures { result ≡ slice_get self.now.entries (length self.now.entries - 1) }
    {
        self.journal.last()
    }

    /// The journal, which has entries of the turn's sessions alone.
    pub(crate) fn into_journal(self, order: &Order<N>) -> Journal
        ensures entries { result.entries ≡ self.entries }
        ensures capacity { result.capacity ≡ N.capacity }
        ensures below { All (λ (entry : Entry). entry.session < N.turn.sessions) self.entries }
    {
        let Ledger {
            journal,
            mut records,
            faulted: _,
        } = self;
        records.hear(order);
        journal
    }
}

// Whether keeping an execution failed.
fn is_fault_told(outcome: &Outcome) -> bool
    ensures { result ≡ is_fault outcome.now }
{
    match outcome {
        Outcome::Faulted => true,
        _ => false,
    }
}
