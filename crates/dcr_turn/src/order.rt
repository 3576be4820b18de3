//! The word of the journal's length, its rule, and the kinds of step on it.
ghost use Rattle.std.specs.Prelude.{◌≡◌};

use crate::TurnName;
use crate::record::Record;
use atomic_table::{Join, Play, Seat, Split, Table, TableRule};
use dcr_proj::Network;
use std::alloc::Global;
use std::collections::LinkedList;
use std::marker::PhantomData;
use std::snapshot::Snapshot;

/// What a seat knows: the records that it carries.
pub type View = LinkedList<Record>;

/// What the rule reads: the alphabets of the sites, and the number of sessions.
pub type Key = (Snapshot<Network>, u32);

/// The rule. No value of it is made.
pub struct OneHistory;

impl TableRule<(), View, Key> for OneHistory {
    ghost use Rattle.std.specs.Prelude.{length};
    ghost use Rattle.dcr_turn.specs.Records.{everyone};
    ghost use Rattle.dcr_turn.specs.Rule.{HasRightRecords};

    ghost holds = { λ key. HasRightRecords key.0.value key.1 };

    ghost first = { λ key. everyone (length key.0.value) key.1 };
}

/// One word, the length of the journal's list, and no slot.
pub type LengthTable = Table<(), View, Key, OneHistory, Global>;

/// What steps on it.
pub type RecordSeat = Seat<(), View>;

/// Names an entry.
pub trait EntryName {
    ghost use Rattle.dcr_journal.specs.declared.call.Entry.{Entry};

    ghost entry: { Entry };
}

impl EntryName for std::marker::Brand {
    ghost use Rattle.dcr_journal.specs.declared.call.Call.TheVariants.{Accepting};
    ghost use Rattle.dcr_journal.specs.declared.call.Outcome.TheVariants.{AllDone};

    ghost entry = { record { session = 0; seq = 0; call = Accepting; outcome = AllDone } };
}

/// Publish: the named entry is pushed.
pub struct Publish<B> {
    of: PhantomData<B>,
}

impl<B: EntryName> Play<(), View> for Publish<B> {
    ghost use Rattle.dcr_turn.specs.Steps.{Publishes};

    ghost then = { Publishes B.entry };
}

/// Load: records hear of the journal's list, which stands first.
pub struct Hear<N> {
    of: PhantomData<N>,
}

impl<N: TurnName> Play<(), View> for Hear<N> {
    ghost use Rattle.dcr_turn.specs.Steps.{Hears};

    ghost then = { Hears N.turn.alphabets N.turn.sessions };
}

/// Load: two records are held against each other, and the first learns from the second.
pub struct Compare<N> {
    of: PhantomData<N>,
}

impl<N: TurnName> Play<(), View> for Compare<N> {
    ghost use Rattle.dcr_turn.specs.Steps.{Compares};

    ghost then = { Compares N.turn.alphabets N.turn.sessions };
}

/// Join: the other seat's records come behind the first one, and none is left to it.
pub struct Behind;

impl Join<View> for Behind {
    ghost use Rattle.std.specs.Prelude.{[]};
    ghost use Rattle.dcr_turn.specs.Steps.{joined};

    ghost both = { joined };

    ghost spent = { [] };
}

/// New seat: it has no record.
pub struct Sit;

impl Play<(), View> for Sit {
    ghost use Rattle.dcr_turn.specs.Steps.{Sits};

    ghost then = { Sits };
}

/// Join: the other seat's records come behind all, and none is left to it.
pub struct AtEnd;

impl Join<View> for AtEnd {
    ghost use Rattle.std.specs.Prelude.{[], ◌++◌};

    ghost both = { λ mine others. mine ++ others };

    ghost spent = { [] };
}

/// Split: the second record goes.
pub struct Second;

impl Split<View> for Second {
    ghost use Rattle.dcr_turn.specs.Steps.{kept, cut};

    ghost left = { kept };

    ghost right = { cut };
}

/// Names a holder.
pub trait Which {
    ghost use Rattle.dcr_turn.specs.declared.record.Holder.{Holder};

    ghost holder: { Holder };
}

impl Which for std::marker::Brand {
    ghost use Rattle.dcr_turn.specs.declared.record.Holder.TheVariants.{Journal};

    ghost holder = { Journal };
}

/// Split: the named holder's record goes.
pub struct Named<B> {
    of: PhantomData<B>,
}

impl<B: Which> Split<View> for Named<B> {
    ghost use Rattle.dcr_turn.specs.Records.{without, only};

    ghost left = { without B.holder };

    ghost right = { only B.holder };
}

/// Names a place among records.
pub trait Place {
    ghost use Rattle.std.specs.Prelude.{ℕ};

    ghost place: { ℕ };
}

impl Place for std::marker::Brand {
    ghost place = { 0 };
}

/// Split: the records from the named place on go.
pub struct Onward<B> {
    of: PhantomData<B>,
}

impl<B: Place> Split<View> for Onward<B> {
    ghost use Rattle.std.specs.Prelude.{take, drop};

    ghost left = { take B.place };

    ghost right = { drop B.place };
}

/// The word under the name of its turn. Threads share it by reference.
#[derive(Drop)]
pub(crate) struct Order<N: TurnName> {
    pub(crate) table: LengthTable,
    of: PhantomData<N>,
    pub ghost words: { table.shared.table_id.words ≡ 1 },
    pub ghost mark: { table.shared.table_id ≡ N.turn.mark },
    pub ghost alphabets: { table.shared.key.0.value ≡ N.turn.alphabets },
    pub ghost sessions: { table.shared.key.1 ≡ N.turn.sessions },
}

impl<N: TurnName> Order<N> {
    /// Of a table that the name names.
    pub(crate) fn new(table: LengthTable) -> Order<N>
        requires words { table.shared.table_id.words ≡ 1 }
        requires mark { table.shared.table_id ≡ N.turn.mark }
        requires alphabets { table.shared.key.0.value ≡ N.turn.alphabets }
        requires sessions { table.shared.key.1 ≡ N.turn.sessions }
    {
        Order {
            table,
            of: PhantomData,
        }
    }
}
