ghost use Rattle.std.specs.Prelude.{◌≡◌, ◌≢◌, ◌+◌, ◌<◌, ◌≤◌, ◌↔◌, ◌⊎◌, ◌∷◌, [], None, IsNone, IfSome, IfNone, map};
ghost use Rattle.dcr_base.specs.Link.{IsUnfailed};
ghost use Rattle.dcr_serve.specs.Left.{numbers_from, AreAllButFirst, HasNumber};
ghost use Rattle.dcr_serve.specs.Stand.{StandsSo};
ghost use Rattle.dcr_serve.specs.declared.stand.DoorStand.TheVariants.{Open};

use crate::asking::AskOnce;
use crate::{DeskName, DeskShare, DoorStand, Numbered};
use dcr_base::Failed;
use std::collections::VecDeque;
use std::marker::Model;
use std::sync::ledger::{Blank, Book};

/// What lies under a desk's lock. Contracts see the door, the items that are left, how many were taken, and how the
/// door stands.
#[derive(Drop)]
pub(crate) struct Counter<B: AskOnce, P: Numbered, N: DeskName<B::Link>> {
    door: B,
    items: VecDeque<P>,
    book: Book<N>,
    stand: DoorStand,
}

impl<B: AskOnce, P: Numbered, N: DeskName<B::Link>> Model for Counter<B, P, N> {
    ghost use Rattle.dcr_serve.specs.DeskModel.{desk_of, IsDesk};
    ghost use Rattle.dcr_serve.specs.DeskValue.{DeskValue};

    ghost Value = { DeskValue B P };

    ghost view = { desk_of };

    ghost invariant = { IsDesk P.number B.tells N.items N.links N.faults };
}

impl<B: AskOnce, P: Numbered, N: DeskName<B::Link>> Counter<B, P, N> {
    ghost use Rattle.dcr_serve.specs.DeskValue.{IsAnswered, IsOver};

    /// Of these items and this door, with a share that has all parts.
    pub(crate) fn new(door: B, items: Vec<P>, blank: Blank) -> (Counter<B, P, N>, DeskShare<N>)
        requires in_order { map P.number items.items ≡ numbers_from 0 N.items }
        requires some_part { 0 < blank.parts }
        requires ledger { (blank.name ≡ N.name) × (blank.parts ≡ N.parts) }
        requires faults { B.tells.faults door ≡ N.faults }
        requires links { B.tells.links door ≡ N.links }
        ensures begun { result.0 ≡ record { door = door; items = items.items; taken = 0; stand = Open } }
        ensures parts { result.1.parts ≡ N.parts }
        ensures none_taken { result.1.taken ≡ 0 }
    {
        let (book, share) = blank.open::<N>();
        let counter = Counter {
            door,
            items: VecDeque::from_vec(items),
            book,
            stand: DoorStand::Open,
        };
        (counter, DeskShare { share })
    }

    /// Hands out the first item that is left, with the next link of the door. None, exactly where no item is left or
    /// the door is not open once it was asked; from the first None on it always is, and the door is not asked.
    pub(crate) fn take(&mut self, share: &mut DeskShare<N>) -> Option<(P, B::Link)>
        ensures next { IfSome result (λ given. self.old.items ≡ given.0 ∷ self.new.items) }
        ensures number { IfSome result (λ given. P.number given.0 ≡ self.old.taken) }
        ensures named { IfSome result (λ given. P.number given.0 < N.items) }
        ensures link { IfSome result (λ given. HasNumber N.links (P.number given.0) given.1) }
        ensures fresh { IfSome result (λ given. IsUnfailed B.tells.each given.1) }
        ensures taken { IfSome result (λ _. self.new.taken ≡ self.old.taken + 1) }
        ensures counted { IfSome result (λ _. share.new.taken ≡ share.old.taken + 1) }
        ensures parts { share.new.parts ≡ share.old.parts }
        ensures within { share.old.taken ≤ self.old.taken }

        // It answers None exactly then, and leaves all as it was.
        ensures none { IsNone result ↔ ((self.old.items ≡ []) ⊎ (self.new.stand ≢ Open)) }
        ensures over { IsOver self.old → (IsNone result) × (self.new ≡ self.old) }
        ensures kept { IfNone result ((self.new.items ≡ self.old.items) × (self.new.taken ≡ self.old.taken)) }
        ensures uncounted { IfNone result (share.new ≡ share.old) }

        // Else the door is asked once, and what it answers is told.
        ensures asked { ¬ IsOver self.old → IsAnswered B.answered self.old.door result self.new.stand self.new.door }
    {
        self.book.audit(&mut share.share);
        let DoorStand::Open = self.stand else {
            return None;
        };
        if self.items.is_empty() {
            return None;
        }
        match self.door.ask_once() {
            Ok(Some(link)) => {
                let popped = self.items.pop_front();
                let Some(item) = popped else { unreachable!() };
                self.book.add(&mut share.share, 1);
                Some((item, link))
            }
            Ok(None) => {
                self.stand = DoorStand::Shut;
                None
            }
            Err(Failed) => {
                self.stand = DoorStand::Failed;
                None
            }
        }
    }

    /// The door, the items that are left, and how the door stands.
    pub(crate) fn finish(self, share: DeskShare<N>) -> (B, Vec<P>, DoorStand)
        requires { share.parts ≡ N.parts }
        ensures handed_on { (result.0 ≡ self.door) × (result.1.items ≡ self.items) × (result.2 ≡ self.stand) }
        ensures items { map P.number result.1.items ≡ numbers_from share.taken N.items }
        ensures within { share.taken ≤ N.items }
        ensures links { AreAllButFirst N.links share.taken (B.tells.links result.0) }
        ensures stands { StandsSo B.tells N.faults result.2 result.0 }
    {
        let Counter {
            door,
            items,
            mut book,
            stand,
        } = self;
        let DeskShare { mut share } = share;
        book.audit(&mut share);
        (door, items.into_vec(), stand)
    }
}
