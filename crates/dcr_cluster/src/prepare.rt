// All memory that a cluster takes, and its parts.
ghost use Rattle.std.specs.Prelude.{◌≡◌, ◌≤◌, List, length, map, IfOk, vec_capacity, []};
ghost use Rattle.std.specs.List.{range_with_len};
ghost use Rattle.dcr_site.specs.Together.{AllStand, AreOver};
ghost use Rattle.dcr_turn.specs.FrontValue.{new_fronts};
ghost use Rattle.dcr_turn.specs.PassValue.{new_passes};
ghost use Rattle.dcr_cell.specs.ClusterId.{IsNamed, begun};
ghost use Rattle.dcr_cluster.specs.ClusterModel.{IsCluster, HasRoomFor};

use crate::going_on::marking_of;
use crate::room::FrontRoom;
use dcr_cell::{Cell, ClusterName};
use dcr_graph::{Marking, SiteMark};
use dcr_lock::Row;
use dcr_proj::{Cover, Network};
use dcr_run::Sites;
use dcr_set::{EventSet, NoMemory, SiteId};
use dcr_site::Site;
use dcr_turn::{Front, Pass, TurnBlank, TurnReady};
use std::alloc::Global;

/// The parts of a cluster, with all its memory but for the journal's lock.
#[derive(Drop)]
pub(crate) struct Prepared<N: ClusterName> {
    pub(crate) cells: Row<Cell<N>>,
    pub(crate) ready: TurnReady<N>,
    pub(crate) passes: Vec<Pass<N>>,
    pub(crate) network: Network,
    pub(crate) owned: Vec<EventSet>,
    pub(crate) every: Vec<SiteId>,
    pub(crate) opening: Marking,
    pub(crate) room: Row<FrontRoom<N>>,
    pub(crate) marks: Vec<SiteMark>,
}

/// Of sites that stand at the marking with which the cluster begins.
pub(crate) fn prepare<N: ClusterName>(
    alloc: Global,
    sites: Sites,
    atoms: u16,
    cover: &Cover,
    turn: TurnBlank,
    capacity: u32,
) -> Result<Prepared<N>, NoMemory>
    requires named { IsNamed N.cluster N.turn }
    requires turn { turn ≡ N.turn }
    requires capacity { capacity ≡ N.capacity }
    requires most { capacity ≤ 200000 }
    requires cover { cover.now.owned ≡ N.cluster.owned }
    requires atoms { atoms ≡ N.cluster.rules.atoms }
    requires most_atoms { atoms ≤ 1024 }
    requires same { sites.atoms ≡ atoms }
    requires stand { AllStand N.cluster.rules N.cluster.owned (begun N.cluster) sites.sites }
    ensures parts { IfOk result (λ p. IsCluster N.cluster N.turn N.capacity p.cells p.network p.owned.items p.every.items p.opening) }
    ensures room { IfOk result (λ p. HasRoomFor (length N.cluster.owned) p.room p.marks) }
    ensures passes { IfOk result (λ p. p.passes.items ≡ new_passes N.turn.sessions) }
{
    let owned = copies(alloc, cover.owned_sets())?;
    let every = numbers(alloc, cover.sites())?;
    let count = owned.len();
    let room = room_of::<N>(alloc, count)?;
    let marks = Vec::with_capacity(alloc, count)?;
    let opening = marking_of::<N>(sites.members(), &owned, atoms);
    let (network, members) = sites.into_parts();
    let (ready, first, passes) = TurnReady::new(alloc, turn, capacity)?;
    let cells = cells_of(alloc, members, first)?;
    Ok(Prepared {
        cells,
        ready,
        passes,
        network,
        owned,
        every,
        opening,
        room,
        marks,
    })
}

// The same sets again.
fn copies(alloc: Global, sets: &[EventSet]) -> Result<Vec<EventSet>, NoMemory>
    ensures { IfOk result (λ copies. copies.items ≡ sets.now) }
{
    let mut copies = Vec::with_capacity(alloc, sets.len())?;
    for set in sets {
        copies.push(set.copy())?;
    }
    Ok(copies)
}

// The numbers of so many sites.
fn numbers(alloc: Global, sites: u16) -> Result<Vec<SiteId>, NoMemory>
    ensures { IfOk result (λ numbers. numbers.items ≡ range_with_len 0 sites) }
{
    let mut numbers = Vec::with_capacity(alloc, usize::from(sites))?;
    for i in 0..sites {
        numbers.push(SiteId(i))?;
    }
    Ok(numbers)
}

// Room for the fronts of so many sites.
fn room_of<N: ClusterName>(alloc: Global, sites: usize) -> Result<Row<FrontRoom<N>>, NoMemory>
    requires { sites ≡ length N.cluster.owned }
    ensures { IfOk result (λ row. row ≡ 1) }
{
    let fronts = Vec::with_capacity(alloc, sites)?;
    let mut rooms = Vec::with_capacity(alloc, 1)?;
    rooms.push_reserved(FrontRoom { fronts });
    let row = Row::open(alloc, rooms)?;
    Ok(row)
}

// The cell of each site behind a lock of its own.
fn cells_of<N: ClusterName>(
    alloc: Global,
    mut sites: Vec<Site>,
    mut fronts: Vec<Front<N>>,
) -> Result<Row<Cell<N>>, NoMemory>
    requires named { IsNamed N.cluster N.turn }
    requires stand { AllStand N.cluster.rules N.cluster.owned (begun N.cluster) sites.items }
    requires fronts { fronts.items ≡ new_fronts (length N.cluster.owned) }
    ensures { IfOk result (λ row. row ≡ length N.cluster.owned) }
{
    let count = sites.len();
    let mut cells = Vec::with_capacity(alloc, count)?;
    sites.reverse();
    fronts.reverse();
    for _ in 0..count {
        let Some(site) = sites.pop() else {
            unreachable!()
        };
        let Some(front) = fronts.pop() else {
            unreachable!()
        };
        let site = Box::new(alloc, site)?;
        cells.push(Cell { site, front })?;
    }
    let row = Row::open(alloc, cells)?;
    Ok(row)
}
