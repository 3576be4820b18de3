ghost use Rattle.std.specs.Prelude.{◌≡◌, ◌⊎◌, ◌≢◌, length, map, ℕ};
ghost use Rattle.dcr_turn.specs.PassValue.{HasMadeAll};
ghost use Rattle.dcr_cluster.specs.Closing.{IsEnd};

use crate::Cluster;
use crate::room::FrontRoom;
use dcr_base::{Disk, Gate};
use dcr_cell::{Cell, StoreName};
use dcr_journal::{Closed, MarkList};
use dcr_set::EventId;
use dcr_tape::Store;
use dcr_turn::Pass;
use std::sync::Wait;

/// What comes back from a cluster: the run that has ended, and the store.
#[derive(Drop)]
pub struct Finished<D> {
    pub closed: Closed,
    pub store: Store<D>,
}

impl<D: Disk, G: Gate + Drop, N: StoreName<D>> Cluster<D, G, N> {
    /// The first pass has seen the longer of what both have seen then, which both begin. The session's entries there are
    /// those that its pass made, for both, and the sessions differ. It takes no lock and no memory.
    pub fn learn(&self, to: &mut Pass<N>, from: &mut Pass<N>)
        ensures from { from.new ≡ from.old }
        ensures session { to.new.session ≡ to.old.session }
        ensures made { to.new.made ≡ to.old.made }
        ensures longer { (to.new.front ≡ to.old.front) ⊎ (to.new.front ≡ from.old.front) }
        ensures to_seen { HasMadeAll to.old to.new.front }
        ensures from_seen { HasMadeAll from.old to.new.front }
        ensures apart { to.old.session ≢ from.old.session }
    {
        self.turn.learn(to, from);
    }

    /// Ends the cluster, whose passes are handed in: the marking that it began with, the one history, the marks of every
    /// site and the verdict after it, and the store. It waits for each lock, and takes no memory.
    pub fn close<R: Wait>(self, rt: &R, passes: Vec<Pass<N>>) -> Finished<D>
        ensures { IsEnd D.view D.faults N.cluster N.turn N.first N.capacity passes.items result.closed result.store }
    {
        let Cluster {
            cells,
            turn,
            network: _,
            owned,
            every: _,
            gate: _,
            opening,
            room,
            mut marks,
        } = self;
        let mut rooms = room.close();
        let FrontRoom { mut fronts } = rooms.take(rt);
        rooms.finish();
        let mut end = cells.close();
        let mut waits = None;
        for _ in 0..owned.len() {
            let Cell { site, front } = end.take(rt);
            marks.push_reserved(site.mark());
            waits = EventId::lesser(waits, site.first_waiting());
            fronts.push_reserved(front);
        }
        end.finish();
        let (history, kept) = turn.close(rt, fronts, passes);
        Finished {
            closed: Closed {
                opening,
                history,
                marks: MarkList::new(marks),
                waits,
            },
            store: kept.into_store(),
        }
    }
}
