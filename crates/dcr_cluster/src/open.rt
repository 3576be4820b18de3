ghost use Rattle.std.specs.Prelude.{◌≡◌, ◌≤◌, [], length, Some, IfOk, IfErr, OnOk, Option};
ghost use Rattle.dcr_site.specs.Together.{AllStand};
ghost use Rattle.dcr_turn.specs.PassValue.{new_passes};
ghost use Rattle.dcr_cell.specs.ClusterId.{IsNamed};
ghost use Rattle.dcr_cell.specs.Stored.{MayBegin, StoreStands};
ghost use Rattle.dcr_cluster.specs.ClusterModel.{IsCluster, HasRoomFor};
ghost use Rattle.dcr_cluster.specs.Opening.{ArePossible, IsCause, Leaves, Refused};

use crate::going_on::go_on;
use crate::prepare::{Prepared, prepare};
use crate::{Cluster, ClusterBlank, OpenCause, OpenRefused};
use dcr_base::{Disk, Gate};
use dcr_cell::{Kept, StoreName};
use dcr_graph::Marking;
use dcr_proj::Cover;
use dcr_run::Sites;
use dcr_site::Site;
use dcr_tape::{Store, TapeEntry};
use dcr_turn::{Pass, TurnRefused};
use std::alloc::Global;

impl<D: Disk, G: Gate + Drop, N: StoreName<D>> Cluster<D, G, N> {
    /// The cluster of a blank, under its name, over sites that stand at the opening marking, each for its owned set of
    /// the cover. The executions from before are done again first; an old tape is renewed then. With it come the passes
    /// of its sessions, in order, which have seen and done nothing. All memory that calls and `close` need is taken here.
    ///
    /// It is refused with the place of the first execution from before that can't be done; with `DiskFault` where the
    /// disk failed while the tape was renewed; and for want of memory. The store comes back: as it was, but where the
    /// disk failed or memory was wanted over a tape, which may be renewed then and stands for the same executions.
    pub fn open(
        alloc: Global,
        blank: ClusterBlank,
        sites: Vec<Site>,
        cover: &Cover,
        opening: &Marking,
        capacity: u32,
        store: Store<D>,
        old: &[TapeEntry],
        gate: G,
    ) -> Result<(Cluster<D, G, N>, Vec<Pass<N>>), OpenRefused<D>>
        requires named { IsNamed N.cluster N.turn }
        requires turn { blank ≡ N.turn }
        requires capacity { capacity ≡ N.capacity }
        requires most { capacity ≤ 200000 }
        requires cover { cover.now.owned ≡ N.cluster.owned }
        requires opening { opening.now ≡ N.cluster.opening }
        requires old { old.now ≡ N.cluster.old }
        requires sites { AllStand N.cluster.rules N.cluster.owned opening.now sites.items }
        requires store { N.first ≡ Some store }
        requires begins { MayBegin D.view old.now store }
        ensures possible { OnOk result (ArePossible N.cluster (length old.now)) }
        ensures passes { IfOk result (λ opened. opened.1.items ≡ new_passes N.turn.sessions) }
        ensures refused { IfErr result (λ refused. Refused D.view D.faults N.cluster store refused.cause refused.store) }
    {
        let ClusterBlank { network, turn } = blank;
        let atoms = opening.executed.room();
        let mut sites = Sites::of(network, sites);
        if let Some(at) = go_on(&mut sites, atoms, old) {
            return Err(OpenRefused {
                cause: OpenCause::BadTape { at },
                store,
            });
        }
        let prepared = prepare::<N>(alloc, sites, atoms, cover, turn, capacity);
        let Ok(prepared) = prepared else {
            return Err(OpenRefused {
                cause: OpenCause::NoMemory,
                store,
            });
        };
        begin(alloc, prepared, store, gate)
    }
}

// Begins the journal's turn over the store, with all other memory taken.
fn begin<D: Disk, G: Gate + Drop, N: StoreName<D>>(
    alloc: Global,
    prepared: Prepared<N>,
    store: Store<D>,
    gate: G,
) -> Result<(Cluster<D, G, N>, Vec<Pass<N>>), OpenRefused<D>>
    requires parts { IsCluster N.cluster N.turn N.capacity prepared.cells prepared.network prepared.owned.items prepared.every.items prepared.opening }
    requires room { HasRoomFor (length N.cluster.owned) prepared.room prepared.marks }
    requires store { N.first ≡ Some store }
    requires begins { MayBegin D.view N.cluster.old store }
    requires possible { ArePossible N.cluster (length N.cluster.old) }
    ensures passes { IfOk result (λ opened. opened.1.items ≡ prepared.passes.items) }
    ensures refused { IfErr result (λ refused. Refused D.view D.faults N.cluster store refused.cause refused.store) }
{
    let store = match renewed::<D, N>(alloc, store) {
        Ok(store) => store,
        Err(refused) => return Err(refused),
    };
    let Prepared {
        cells,
        ready,
        passes,
        network,
        owned,
        every,
        opening,
        room,
        marks,
    } = prepared;
    let turn = match ready.begin(alloc, Kept::new(store)) {
        Ok(turn) => turn,
        Err(TurnRefused { kept }) => {
            return Err(OpenRefused {
                cause: OpenCause::NoMemory,
                store: kept.into_store(),
            });
        }
    };
    let cluster = Cluster {
        cells,
        turn,
        network,
        owned,
        every,
        gate,
        opening,
        room,
        marks,
    };
    Ok((cluster, passes))
}

// The store, with its tape renewed where it is an old one.
fn renewed<D: Disk, N: StoreName<D>>(
    alloc: Global,
    store: Store<D>,
) -> Result<Store<D>, OpenRefused<D>>
    requires store { N.first ≡ Some store }
    requires begins { MayBegin D.view N.cluster.old store }
    ensures stands { IfOk result (StoreStands D.view D.faults N.first N.cluster.old []) }
    ensures leaves { IfErr result (λ refused. Leaves D.view D.faults N.cluster.old refused.cause store refused.store) }
    ensures cause { IfErr result (λ refused. ArePossible N.cluster (length N.cluster.old) → IsCause N.cluster refused.cause) }
{
    let mut tape = match store {
        Store::Off(disk) => return Ok(Store::Off(disk)),
        Store::On(tape) => tape,
    };
    match tape.renew(alloc) {
        Ok(()) => Ok(Store::On(tape)),
        Err(stop) => Err(OpenRefused {
            cause: OpenCause::of(stop),
            store: Store::On(tape),
        }),
    }
}
