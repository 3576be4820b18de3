ghost use Rattle.std.specs.Prelude.{◌≡◌, length};
ghost use Rattle.dcr_base.specs.Link.{IsUnfailed};
ghost use Rattle.dcr_link.specs.Replies.{IsOfCluster};
ghost use Rattle.dcr_serving.specs.Serving.{IsServed};

use crate::LinkEnd;
use crate::seat::Seat;
use dcr_base::{Disk, Door, Gate, Link};
use dcr_cell::StoreName;
use dcr_cluster::Cluster;
use dcr_link::Scene;
use dcr_serve::Numbered;
use dcr_turn::{Pass, TurnName};
use std::alloc::Global;
use std::sync::Wait;

/// One session that was served: its pass, and how it ended.
#[derive(Drop)]
pub(crate) struct Record<L: Link, N: TurnName> {
    pub(crate) pass: Pass<N>,
    pub(crate) end: LinkEnd<L>,
}

/// Serves the session of a seat over a link, and ends the link.
pub(crate) fn serve_link<D: Disk, G: Gate, N: StoreName<D>, B: Door, R: Wait>(
    rt: &R,
    alloc: Global,
    cluster: &Cluster<D, G, N>,
    seat: Seat<N>,
    scene: &Scene<'_>,
    link: B::Link,
) -> Record<B::Link, N>
    requires scene { IsOfCluster N.cluster scene.now }
    requires fresh { IsUnfailed B.tells.each link }
    ensures session { (result.pass.session ≡ seat.session) × (result.end.session ≡ seat.session) }
    ensures served { IsServed B.tells.each
        N.first N.capacity scene.now link result.pass result.end.end result.end.rest }
{
    let session = seat.number();
    let mut pass = seat.into_pass();
    let mut link = link;
    let end = scene.serve(rt, alloc, cluster, &mut pass, &mut link);
    Record {
        pass,
        end: LinkEnd {
            session,
            end,
            rest: link.finish(),
        },
    }
}
