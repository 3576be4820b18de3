//! A cluster of a case, and the report of its run.
ghost use Rattle.std.specs.Prelude.{◌≡◌, ◌≤◌, List, Some, length, IfOk};
ghost use Rattle.std.specs.Bool.{OnTrue};
ghost use Rattle.dcr_journal.specs.Run.{IsInRange};
ghost use Rattle.dcr_json.specs.Built.{IsCase};
ghost use Rattle.dcr_turn.specs.PassValue.{new_passes};
ghost use Rattle.dcr_cell.specs.Stored.{MayBegin};
ghost use Rattle.dcr_tape.specs.declared.entry.TapeEntry.{TapeEntry};
ghost use Rattle.dcr_cluster_rows.specs.Made.{AreOfCase, IsOfCase, cluster_of};

use dcr_base::{Disk, Gate};
use dcr_cell::StoreName;
use dcr_cluster::{Cluster, ClusterBlank, OpenRefused};
use dcr_fakes::{MemDisk, MemSink};
use dcr_journal::{Call, Closed};
use dcr_json::Case;
use dcr_report::{ReportStop, write_report};
use dcr_run::Sites;
use dcr_set::NoMemory;
use dcr_site::Site;
use dcr_tape::{Store, TapeEntry};
use dcr_turn::Pass;
use std::alloc::Global;

/// What a cluster of a case is made of.
#[derive(Drop)]
pub struct Parts {
    pub blank: ClusterBlank,
    pub sites: Vec<Site>,
}

/// The parts of a cluster of the case with so many sessions, 1,024 at most. `NoMemory` where memory could not be had.
pub fn parts_of(alloc: Global, case: &Case, sessions: u32) -> Result<Parts, NoMemory>
    requires case { IsCase case.now }
    requires sessions { sessions ≤ 1024 }
    ensures parts { IfOk result (λ parts. AreOfCase case.now parts.blank parts.sites.items) }
    ensures sessions { IfOk result (λ parts. parts.blank.sessions ≡ sessions) }
{
    let sites = Sites::open(alloc, &case.graph, &case.cover, &case.opening)?;
    let (network, sites) = sites.into_parts();
    let blank = ClusterBlank::new(alloc, network, sessions)?;
    Ok(Parts { blank, sites })
}

/// The cluster of the case with these parts, under its name, as [`Cluster::open`] opens it.
pub fn opened<D: Disk, G: Gate + Drop, N: StoreName<D>>(
    alloc: Global,
    case: &Case,
    parts: Parts,
    capacity: u32,
    store: Store<D>,
    old: &[TapeEntry],
    gate: G,
) -> Result<(Cluster<D, G, N>, Vec<Pass<N>>), OpenRefused<D>>
    requires parts { AreOfCase case.now parts.blank parts.sites.items }
    requires cluster { N.cluster ≡ cluster_of case.now old.now }
    requires turn { N.turn ≡ parts.blank }
    requires capacity { N.capacity ≡ capacity }
    requires most { capacity ≤ 200000 }
    requires few_old { length old.now ≤ 1000000 }
    requires first { N.first ≡ Some store }
    requires begins { MayBegin D.view old.now store }
    ensures passes { IfOk result (λ opened. opened.1.items ≡ new_passes N.turn.sessions) }
{
    let Parts { blank, sites } = parts;
    Cluster::open(
        alloc,
        blank,
        sites,
        &case.cover,
        &case.opening,
        capacity,
        store,
        old,
        gate,
    )
}

/// Whether the call is one of so many sites and atoms.
pub fn is_in_range(call: &Call, sites: u16, atoms: u16) -> bool
    ensures { OnTrue result (IsInRange sites atoms call.now) }
{
    match call {
        Call::Exec(site, e) => site.0 < sites && e.0 < atoms,
        Call::Look(site) | Call::Enabled(site) => site.0 < sites,
        Call::Accepting => true,
    }
}

/// A store without a tape.
pub fn no_tape(alloc: Global) -> Store<MemDisk>
    ensures { (old : List TapeEntry) → MayBegin ⟦<MemDisk as Disk>⟧.view old result }
{
    Store::Off(MemDisk::new(alloc, Vec::new(alloc), Vec::new(alloc)))
}

/// The report of a run of the case. It is stopped for want of memory, or where the report is longer than 268,435,456
/// bytes.
pub(crate) fn report_of(alloc: Global, case: &Case, closed: &Closed) -> Result<Vec<u8>, ReportStop>
    requires case { IsCase case.now }
    requires run { IsOfCase case.now closed.now }
{
    let mut sink = MemSink::new(alloc, 1 << 28);
    write_report(
        alloc,
        &case.nested,
        &case.graph,
        &case.cover,
        closed,
        &mut sink,
    )?;
    match sink.taken().to_vec(alloc) {
        Ok(report) => Ok(report),
        Err(_) => Err(ReportStop::NoMemory),
    }
}
