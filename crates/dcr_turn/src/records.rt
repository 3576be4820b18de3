ghost use Rattle.std.specs.Prelude.{◌≡◌, List, ◌<◌, true, [], ◌∷◌, ◌++◌, length, map, take, drop};
ghost use Rattle.dcr_turn.specs.Records.{concerns, is_of_turn, times, told, first_seen, without, only};
ghost use Rattle.dcr_turn.specs.Steps.{IsJournalFirst, Stand, joined, kept, cut, with_longer};
ghost use Rattle.dcr_turn.specs.declared.record.Holder.{Holder};
ghost use Rattle.dcr_turn.specs.declared.record.Holder.TheVariants.{Site};
ghost use Rattle.dcr_turn.specs.declared.record.Record.{Record};
ghost use Rattle.dcr_journal.specs.declared.call.Entry.{Entry};

use crate::TurnName;
use crate::order::{
    AtEnd, Behind, Compare, EntryName, Hear, Named, Onward, Order, Place, Publish, RecordSeat,
    Second, Sit, View, Which,
};
use atomic_table::Badge;
use dcr_journal::{Call, Outcome};
use dcr_set::SiteId;
use std::marker::{Model, PhantomData};
use std::mem;

/// Records of who has seen how much of the journal's list, in one hand. They take no bytes.
#[derive(Drop)]
pub(crate) struct Records<N: TurnName> {
    seat: RecordSeat,
    of: PhantomData<N>,
}

impl<N: TurnName> Model for Records<N> {
    ghost use Rattle.std.specs.Prelude.{◌≡◌, List, []};
    ghost use Rattle.dcr_turn.specs.declared.record.Record.{Record};

    ghost Value = { List Record };

    ghost view = { λ r. r.seat.me.0 };

    ghost invariant = { λ r. (r.seat.table_id ≡ N.turn.mark) × (r.seat.me.1 ≡ []) };
}

impl<N: TurnName> Records<N> {
    /// Of a seat of the turn.
    pub(crate) fn new(seat: RecordSeat) -> Records<N>
        requires mark { seat.table_id ≡ N.turn.mark }
        requires slots { seat.me.1 ≡ [] }
        ensures { result ≡ seat.me.0 }
    {
        Records {
            seat,
            of: PhantomData,
        }
    }

    /// Of nobody.
    pub(crate) fn none(order: &Order<N>) -> Records<N>
        ensures { result ≡ [] }
    {
        let (_, seat) = order.table.shared.load_new_seat::<Sit>(0);
        Records::new(seat)
    }

    /// Out of the place where they lie, which is left without any.
    pub(crate) fn out_of(place: &mut Badge<View>) -> Records<N>
        requires mark { place.old.table_id ≡ N.turn.mark }
        requires one { (v : List Record) × (place.old.views ≡ v ∷ []) }
        ensures { place.old.views ≡ result ∷ [] }
    {
        let badge = mem::replace(place, Badge::blank());
        Records::new(badge.into_seat())
    }

    /// To be laid where they can be taken out of a reference.
    pub(crate) fn into_badge(self) -> Badge<View>
        ensures mark { result.table_id ≡ N.turn.mark }
        ensures views { result.views ≡ self ∷ [] }
    {
        let Records { seat, of: _ } = self;
        seat.into_badge()
    }

    /// Takes in the records of another hand, behind the first one.
    pub(crate) fn join(&mut self, order: &Order<N>, others: Records<N>)
        ensures { self.new ≡ joined self.old others }
    {
        let Records { seat, of: _ } = others;
        order.table.shared.join_seat::<Behind>(&mut self.seat, seat);
    }

    /// Takes in the records of another hand, behind all.
    pub(crate) fn append(&mut self, order: &Order<N>, others: Records<N>)
        ensures { self.new ≡ self.old ++ others }
    {
        let Records { seat, of: _ } = others;
        order.table.shared.join_seat::<AtEnd>(&mut self.seat, seat);
    }

    /// Gives the records from the named place on into another hand.
    pub(crate) fn part<B: Place>(&mut self, order: &Order<N>) -> Records<N>
        ensures kept { self.new ≡ take B.place self.old }
        ensures parted { result ≡ drop B.place self.old }
    {
        Records::new(order.table.shared.split_seat::<Onward<B>>(&mut self.seat))
    }

    /// Gives the second record into another hand.
    pub(crate) fn cut(&mut self, order: &Order<N>) -> Records<N>
        ensures kept { self.new ≡ kept self.old }
        ensures cut { result ≡ cut self.old }
    {
        Records::new(order.table.shared.split_seat::<Second>(&mut self.seat))
    }

    /// Gives the record of a site, which is the holder that is named, into another hand.
    pub(crate) fn take_out<B: Which>(&mut self, order: &Order<N>, site: SiteId) -> Records<N>
        requires { B.holder ≡ Site site }
        ensures kept { self.new ≡ without (Site site) self.old }
        ensures out { result ≡ only (Site site) self.old }
    {
        let _ = site;
        Records::new(order.table.shared.split_seat::<Named<B>>(&mut self.seat))
    }

    /// Each record hears of the journal's list, whose record stands first.
    pub(crate) fn hear(&mut self, order: &Order<N>)
        requires { IsJournalFirst self.old }
        ensures stand { Stand N.turn.alphabets N.turn.sessions self.old (first_seen self.old) }
        ensures told { self.new ≡ map (told (first_seen self.old)) self.old }
    {
        order.table.shared.load::<Hear<N>>(&mut self.seat, 0);
    }

    /// The first of two records learns from the second.
    pub(crate) fn compare(&mut self, order: &Order<N>)
        ensures stand { (J : List Entry) × Stand N.turn.alphabets N.turn.sessions self.old J }
        ensures longer { self.new ≡ with_longer self.old }
    {
        order.table.shared.load::<Compare<N>>(&mut self.seat, 0);
    }

    /// The entry of this call, which is the one that is named, is pushed onto the journal's list, which has this length. The journal's record stands first, and each
    /// of the turn whom the entry concerns has its record here.
    pub(crate) fn publish<B: EntryName>(
        &mut self,
        order: &Order<N>,
        len: u32,
        session: u32,
        seq: u32,
        call: &Call,
        outcome: &Outcome,
    )
        requires named { B.entry ≡ record { session = session; seq = seq; call = call.now; outcome = outcome.now } }
        requires journal { IsJournalFirst self.old }
        requires len { len ≡ length (first_seen self.old) }
        requires session { B.entry.session < N.turn.sessions }
        requires concerned { (x : Holder) → is_of_turn N.turn.alphabets N.turn.sessions x ≡ true → concerns N.turn.alphabets x B.entry ≡ true → 0 < times x self.old }
        ensures { self.new ≡ map (told (first_seen self.old ++ B.entry ∷ [])) self.old }
    {
        // What is pushed is read by clauses alone.
        let _ = session;
        let _ = seq;
        let _ = call;
        let _ = outcome;
        let was = u64::from(len);
        order
            .table
            .shared
            .compare_exchange::<Publish<B>>(&mut self.seat, 0, was, was + 1);
    }
}
