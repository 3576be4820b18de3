ghost use Rattle.std.specs.Prelude.{◌≡◌, ◌≢◌, ◌⊎◌, ◌<◌, [], ◌∷◌, length};
ghost use Rattle.dcr_journal.specs.Run.{made_by};
ghost use Rattle.dcr_turn.specs.Covers.{Covers, is_by};
ghost use Rattle.dcr_turn.specs.PassValue.{HasMadeAll};
ghost use Rattle.dcr_turn.specs.Records.{knowing};
ghost use Rattle.dcr_turn.specs.declared.record.Holder.TheVariants.{Session};

use crate::TurnName;
use crate::order::{Order, View};
use crate::records::Records;
use atomic_table::Badge;
use std::marker::{Model, PhantomData};

/// What a session has seen of the journal's list, and how many calls it has made. There is one for each session of a
/// turn. Contracts see the number of the session, the entries seen, a beginning of the list, and that number.
#[derive(Drop)]
pub struct Pass<N: TurnName> {
    pub(crate) session: u32,
    pub(crate) seen: u32,
    pub(crate) made: u32,
    pub(crate) badge: Badge<View>,
    of: PhantomData<N>,
}

impl<N: TurnName> Model for Pass<N> {
    ghost use Rattle.dcr_turn.specs.PassModel.{pass_of, IsPass};
    ghost use Rattle.dcr_turn.specs.PassValue.{PassValue};

    ghost Value = { PassValue };

    ghost view = { pass_of };

    ghost invariant = { IsPass N.turn };
}

impl<N: TurnName> Pass<N> {
    /// Of the session's record, with nothing seen.
    pub(crate) fn new(session: u32, records: Records<N>) -> Pass<N>
        requires session { session < N.turn.sessions }
        requires records { records ≡ knowing [] (Session session) ∷ [] }
        ensures session { result.session ≡ session }
        ensures front { result.front ≡ [] }
        ensures made { result.made ≡ 0 }
    {
        Pass {
            session,
            seen: 0,
            made: 0,
            badge: records.into_badge(),
            of: PhantomData,
        }
    }

    /// The session.
    pub fn session(&self) -> u32
        ensures session { result ≡ self.now.session }
        ensures within { self.now.session < N.turn.sessions }
    {
        self.session
    }

    /// How many entries were seen.
    pub fn seen(&self) -> u32
        ensures { result ≡ length self.now.front }
    {
        self.seen
    }

    /// How many calls it has made. They are all that the list seen has of the session.
    pub fn made(&self) -> u32
        ensures made { result ≡ self.now.made }
        ensures all { self.now.made ≡ made_by self.now.session self.now.front }
    {
        self.made
    }

    /// Has seen the longer of both lists afterwards.
    pub(crate) fn learn(&mut self, order: &Order<N>, from: &mut Pass<N>)
        ensures from { from.new ≡ from.old }
        ensures session { self.new.session ≡ self.old.session }
        ensures made { self.new.made ≡ self.old.made }
        ensures longer { (self.new.front ≡ self.old.front) ⊎ (self.new.front ≡ from.old.front) }
        ensures to_seen { HasMadeAll self.old self.new.front }
        ensures from_seen { HasMadeAll from.old self.new.front }
        ensures apart { self.old.session ≢ from.old.session }
    {
        let mut both = Records::out_of(&mut self.badge);
        both.join(order, Records::out_of(&mut from.badge));
        both.compare(order);
        from.badge = both.cut(order).into_badge();
        self.badge = both.into_badge();
        self.seen = self.seen.max(from.seen);
    }
}
