ghost use Rattle.std.specs.Prelude.{◌≡◌, List, [], ◌∷◌, ◌++◌, map};
ghost use Rattle.dcr_turn.specs.FrontValue.{FrontValue, fronts_at};
ghost use Rattle.dcr_turn.specs.FrontRowModel.{record_of};
ghost use Rattle.dcr_journal.specs.declared.call.Entry.{Entry};

use crate::order::Order;
use crate::records::Records;
use crate::{Front, Pass, TurnName};
use dcr_set::SiteId;
use std::marker::{Brand, Model};

/// The fronts of several sites in one hand, in the order in which they came. They take no bytes there. Contracts see the
/// list.
#[derive(Drop)]
pub struct FrontRow<N: TurnName> {
    records: Records<N>,
}

impl<N: TurnName> Model for FrontRow<N> {
    ghost use Rattle.std.specs.Prelude.{List};
    ghost use Rattle.dcr_turn.specs.FrontRowModel.{fronts_of, AreOfSites};
    ghost use Rattle.dcr_turn.specs.FrontValue.{FrontValue};

    ghost Value = { List FrontValue };

    ghost view = { fronts_of };

    ghost invariant = { AreOfSites };
}

impl<N: TurnName> FrontRow<N> {
    /// Of no front.
    pub(crate) fn new(order: &Order<N>) -> FrontRow<N>
        ensures { result ≡ [] }
    {
        FrontRow {
            records: Records::none(order),
        }
    }

    /// Adds a front behind the others.
    pub(crate) fn push(&mut self, order: &Order<N>, front: Front<N>)
        ensures { self.new ≡ self.old ++ front ∷ [] }
    {
        self.records.append(order, front.into_records());
    }

    /// Takes out the last front, which is the site's and has seen what the pass has.
    pub(crate) fn pop(&mut self, order: &Order<N>, site: SiteId, pass: &Pass<N>) -> Front<N>
        requires { (rest : List FrontValue) × (self.old ≡ rest ++ record { site = site; front = pass.now.front } ∷ []) }
        ensures front { result ≡ record { site = site; front = pass.now.front } }
        ensures rest { self.old ≡ self.new ++ result ∷ [] }
    {
        Front::new(site, pass.seen(), self.records.part::<Brand>(order))
    }

    /// Gives the records of all fronts, and is left without any.
    pub(crate) fn take_all(&mut self, order: &Order<N>) -> Records<N>
        ensures none { self.new ≡ [] }
        ensures records { result ≡ map record_of self.old }
    {
        self.records.part::<Brand>(order)
    }

    /// Adds the fronts of these records behind the others.
    pub(crate) fn put_all(&mut self, order: &Order<N>, records: Records<N>)
        requires { (fronts : List FrontValue) × (records ≡ map record_of fronts) }
        ensures { (fronts : List FrontValue) → records ≡ map record_of fronts → self.new ≡ self.old ++ fronts }
    {
        self.records.append(order, records);
    }
}
