use crate::room::FrontRoom;
use dcr_base::{Disk, Gate};
use dcr_cell::{Cell, Kept, StoreName};
use dcr_graph::{Marking, SiteMark};
use dcr_lock::Row;
use dcr_proj::Network;
use dcr_set::{EventSet, SiteId};
use dcr_turn::Turn;
use std::marker::Model;

/// The sites of a case, each behind a lock of its own, and the one order of all calls. Calls may come from any thread,
/// which share it by reference. A call decides by the marks of the sites whose locks it holds and by nothing else: no
/// graph, no projection and no marking of the whole stands in a cluster beside its sites.
#[derive(Drop)]
pub struct Cluster<D: Disk, G: Gate, N: StoreName<D>> {
    pub(crate) cells: Row<Cell<N>>,
    pub(crate) turn: Turn<Kept<D, N>, N>,
    pub(crate) network: Network,
    pub(crate) owned: Vec<EventSet>,
    // The numbers of all sites.
    pub(crate) every: Vec<SiteId>,
    pub(crate) gate: G,
    // The marking that the cluster began with, for its end.
    pub(crate) opening: Marking,
    // Room for what comes back from the sites at the end.
    pub(crate) room: Row<FrontRoom<N>>,
    pub(crate) marks: Vec<SiteMark>,
}

impl<D: Disk, G: Gate, N: StoreName<D>> Model for Cluster<D, G, N> {
    ghost use Rattle.std.specs.Prelude.{length};
    ghost use Rattle.dcr_cluster.specs.ClusterModel.{IsCluster, HasRoomFor};

    ghost Value = { Unit {0} };

    ghost view = { λ _. record {} };

    ghost invariant = { λ s. IsCluster N.cluster N.turn N.capacity s.cells s.network s.owned.items s.every.items s.opening
        × HasRoomFor (length N.cluster.owned) s.room s.marks };
}
