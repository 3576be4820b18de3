ghost use Rattle.std.specs.Prelude.{◌≡◌, ◌≢◌, ◌+◌, ◌≤◌, ℕ, List, Option, length, map, vec_capacity, IfSome, IfNone};
ghost use Rattle.dcr_base.specs.Link.{IsUnfailed};
ghost use Rattle.dcr_serve.specs.Left.{numbers_from, HasNumber};
ghost use Rattle.dcr_serve.specs.declared.stand.DoorStand.TheVariants.{Open};
ghost use Rattle.dcr_link.specs.Replies.{IsOfCluster};
ghost use Rattle.dcr_serving.specs.Serving.{AreServed, Stands};

use crate::LinkEnd;
use crate::record::{Record, serve_link};
use crate::seat::Seat;
use dcr_base::{Disk, Door, Failed, Gate};
use dcr_cell::StoreName;
use dcr_cluster::Cluster;
use dcr_link::Scene;
use dcr_serve::DoorStand;
use dcr_turn::Pass;
use std::alloc::Global;
use std::sync::Wait;

/// Goes on with the sessions whose seats are left: where the door is still open they are served, one after the other, and
/// where it isn't their passes come back unused. Answers how the door stands then.
pub(crate) fn go_on<D: Disk, G: Gate, N: StoreName<D>, B: Door, R: Wait>(
    rt: &R,
    alloc: Global,
    cluster: &Cluster<D, G, N>,
    scene: &Scene<'_>,
    door: &mut B,
    stand: DoorStand,
    mut left: Vec<Seat<N>>,
    passes: &mut Vec<Pass<N>>,
    ends: &mut Vec<LinkEnd<B::Link>>,
) -> DoorStand
    requires scene { IsOfCluster N.cluster scene.now }
    requires left { map (λ seat. seat.session) left.items ≡ numbers_from (length passes.old.items) (length passes.old.items + length left.items) }
    requires no_more { length ends.old.items ≤ length passes.old.items }
    requires room_for_passes { length passes.old.items + length left.items ≤ vec_capacity passes.old }
    requires room_for_ends { length passes.old.items + length left.items ≤ vec_capacity ends.old }
    ensures goes_on { (links : Option (List B.Link)) (faults : ℕ)
        → AreServed B.tells.each
        N.first N.capacity scene.now links (length passes.old.items) passes.old.items ends.old.items
        → Stands B.tells links faults (length ends.old.items) stand door.old
        → (stand ≡ Open → length ends.old.items ≡ length passes.old.items)
        → AreServed B.tells.each
        N.first N.capacity scene.now links (length passes.old.items + length left.items) passes.new.items ends.new.items
        × Stands B.tells links faults (length ends.new.items) result door.new
        × (result ≡ Open → length ends.new.items ≡ length passes.old.items + length left.items) }
{
    let mut now = stand;
    // The first one that is left last.
    left.reverse();
    while let Some(seat) = left.pop() {
        match ask(door, &mut now) {
            Some(link) => {
                let Record { pass, end } = serve_link::<D, G, N, B, R>(
                    rt, alloc, cluster, seat, scene, link,
                );
                passes.push_reserved(pass);
                ends.push_reserved(end);
            }
            None => passes.push_reserved(seat.into_pass()),
        }
    }
    now
}

// The next link of a door that is open. It is asked no more once it had none to give.
fn ask<B: Door>(door: &mut B, stand: &mut DoorStand) -> Option<B::Link>
    ensures fresh { IfSome result (λ link. IsUnfailed B.tells.each link) }
    ensures open { IfSome result (λ link. (stand.old ≡ Open) × (stand.new ≡ Open)) }
    ensures not_open { IfNone result (stand.new ≢ Open) }
    ensures some { IfSome result (λ link. (links : Option (List B.Link)) (faults given : ℕ) → Stands B.tells links faults given stand.old door.old
        → Stands B.tells links faults (given + 1) stand.new door.new × HasNumber links given link) }
    ensures none { IfNone result ((links : Option (List B.Link)) (faults given : ℕ) → Stands B.tells links faults given stand.old door.old
        → Stands B.tells links faults given stand.new door.new) }
{
    let DoorStand::Open = *stand else {
        return None;
    };
    match door.next() {
        Ok(Some(link)) => return Some(link),
        Ok(None) => *stand = DoorStand::Shut,
        Err(Failed) => *stand = DoorStand::Failed,
    }
    None
}
