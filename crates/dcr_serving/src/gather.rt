ghost use Rattle.std.specs.Prelude.{◌≡◌, ◌⊎◌, ◌+◌, ◌<◌, ◌≤◌, ◌++◌, length, map, take, slice_get, slice_set, vec_capacity, Some, None, IsSome};
ghost use Rattle.std.specs.List.{All, Contains};
ghost use Rattle.dcr_serving.specs.Placing.{AreInPlace, MayBePlaced, filled};

use crate::LinkEnd;
use crate::record::Record;
use crate::seat::Seat;
use crate::work::Hand;
use dcr_base::{Disk, Gate, Link};
use dcr_cell::StoreName;
use dcr_cluster::Cluster;
use dcr_serve::{DeskShare, Numbered};
use dcr_turn::{Pass, TurnName};
use std::sync::ledger::Ledger;

/// Takes the shares of the workers back, and puts each session that they have served in its place.
pub(crate) fn gather<D: Disk, G: Gate + Drop, N: StoreName<D>, L: Link, M: Ledger>(
    cluster: &Cluster<D, G, N>,
    share: &mut DeskShare<M>,
    mut hands: Vec<Hand<L, N, M>>,
    slots: &mut [Option<Record<L, N>>],
)
    requires parts { All (λ hand. hand.share.parts ≡ 1) hands.items }
    requires counts { All (λ hand. length hand.records.items ≡ hand.share.taken) hands.items }
    requires within { All (λ hand. All (MayBePlaced (length slots.old)) hand.records.items) hands.items }
    requires in_place { AreInPlace slots.old }
    ensures parts { share.new.parts ≡ share.old.parts + length hands.items }
    ensures count { share.new.taken + length (filled slots.old) ≡ share.old.taken + length (filled slots.new) }
    ensures as_many { length slots.new ≡ length slots.old }
    ensures in_place { AreInPlace slots.new }
    ensures from_hands { All (λ one. Contains (filled slots.old) one ⊎ ((hand : _) × Contains hands.items hand × Contains hand.records.items one)) (filled slots.new) }
{
    while let Some(hand) = hands.pop() {
        let Hand {
            share: others,
            records,
        } = hand;
        share.merge(others);
        place_all(cluster, records, slots);
    }
}

// Puts these in their places.
fn place_all<D: Disk, G: Gate + Drop, N: StoreName<D>, L: Link>(
    cluster: &Cluster<D, G, N>,
    mut records: Vec<Record<L, N>>,
    slots: &mut [Option<Record<L, N>>],
)
    requires within { All (MayBePlaced (length slots.old)) records.items }
    requires in_place { AreInPlace slots.old }
    ensures count { length (filled slots.new) ≡ length (filled slots.old) + length records.items }
    ensures as_many { length slots.new ≡ length slots.old }
    ensures in_place { AreInPlace slots.new }
    ensures from_records { All (λ one. Contains (filled slots.old) one ⊎ Contains records.items one) (filled slots.new) }
{
    while let Some(record) = records.pop() {
        place(cluster, record, slots);
    }
}

// Puts this in its place, where nothing is: two passes of one cluster are of two sessions.
fn place<D: Disk, G: Gate + Drop, N: StoreName<D>, L: Link>(
    cluster: &Cluster<D, G, N>,
    mut one: Record<L, N>,
    slots: &mut [Option<Record<L, N>>],
)
    requires within { MayBePlaced (length slots.old) one }
    requires in_place { AreInPlace slots.old }
    ensures free { slice_get slots.old one.pass.session ≡ Some None }
    ensures put { slots.new ≡ slice_set slots.old one.pass.session (Some one) }
{
    let slot = &mut slots[one.end.session as usize];
    if let Some(other) = slot {
        cluster.learn(&mut other.pass, &mut one.pass);
        unreachable!()
    }
    *slot = Some(one);
}

/// No session whose seat is left was served: two passes of one cluster are of two sessions.
pub(crate) fn part<D: Disk, G: Gate + Drop, N: StoreName<D>, L: Link>(
    cluster: &Cluster<D, G, N>,
    mut left: Vec<Seat<N>>,
    slots: &mut [Option<Record<L, N>>],
) -> Vec<Seat<N>>
    requires within { All (λ seat. seat.session < length slots.old) left.items }
    requires in_place { AreInPlace slots.old }
    ensures seats { result.items ≡ left.items }
    ensures slots { slots.new ≡ slots.old }
    ensures free { All (λ seat. slice_get slots.old seat.session ≡ Some None) left.items }
{
    meet_none(cluster, left.as_mut_slice(), slots);
    left
}

fn meet_none<D: Disk, G: Gate + Drop, N: StoreName<D>, L: Link>(
    cluster: &Cluster<D, G, N>,
    left: &mut [Seat<N>],
    slots: &mut [Option<Record<L, N>>],
)
    requires within { All (λ seat. seat.session < length slots.old) left.old }
    requires in_place { AreInPlace slots.old }
    ensures seats { left.new ≡ left.old }
    ensures slots { slots.new ≡ slots.old }
    ensures free { All (λ seat. slice_get slots.old seat.session ≡ Some None) left.old }
{
    for i in 0..left.len() {
        let session = left[i].number() as usize;
        if let None = slots[session] {
            continue;
        }
        let Some(record) = &mut slots[session] else {
            unreachable!()
        };
        left[i].meet(cluster, &mut record.pass);
        unreachable!()
    }
}

/// Takes the passes and the ends out of the first places, so many, in order.
pub(crate) fn take_out<N: TurnName, L: Link>(
    slots: &mut [Option<Record<L, N>>],
    count: usize,
    passes: &mut Vec<Pass<N>>,
    ends: &mut Vec<LinkEnd<L>>,
)
    requires within { count ≤ length slots.old }
    requires full { All IsSome (take count slots.old) }
    requires room_for_passes { length passes.old.items + count ≤ vec_capacity passes.old }
    requires room_for_ends { length ends.old.items + count ≤ vec_capacity ends.old }
    ensures passes { passes.new.items ≡ passes.old.items ++ map (λ one. one.pass) (filled (take count slots.old)) }
    ensures ends { ends.new.items ≡ ends.old.items ++ map (λ one. one.end) (filled (take count slots.old)) }
    ensures passes_room { vec_capacity passes.new ≡ vec_capacity passes.old }
    ensures ends_room { vec_capacity ends.new ≡ vec_capacity ends.old }
{
    for i in 0..count {
        let Some(Record { pass, end }) = slots[i].take() else {
            unreachable!()
        };
        passes.push_reserved(pass);
        ends.push_reserved(end);
    }
}
