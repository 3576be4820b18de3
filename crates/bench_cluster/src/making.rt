// The calls of a case, on the list of sites and through a cluster.
ghost use Rattle.std.specs.Prelude.{◌≡◌, ◌<◌, [], Some, length};
ghost use Rattle.dcr_json.specs.Built.{IsCase};
ghost use Rattle.dcr_cell.specs.Stored.{MayBegin};
ghost use Rattle.dcr_cluster_rows.specs.Made.{AreOfCase, cluster_of};

use dcr_base::{Disk, OpenGate};
use dcr_cell::StoreName;
use dcr_cluster::Cluster;
use dcr_cluster_rows::{Parts, is_in_range, opened, parts_of};
use dcr_fakes::MemDisk;
use dcr_journal::{CallList, Entry, Journal};
use dcr_json::Case;
use dcr_run::Sites;
use dcr_tape::Store;
use dcr_turn::Pass;
use std::alloc::Global;
use std::io::ErrorKind;
use std::marker::Brand;
use std::rt::Clock;
use std::sync::Wait;
use std::thread::Threads;
use std::time::{Duration, Instant};
use std::{io, thread};

// Room for the entries of all calls that a case may have.
const CAPACITY: u32 = 200_000;

/// How many entries the calls make on the list of sites, one session after the other, and how long they take.
pub(crate) fn listed<R: Clock>(rt: &R, alloc: Global, case: &Case) -> io::Result<(u32, Duration)>
    requires { IsCase case.now }
{
    let Ok(mut sites) = Sites::open(alloc, &case.graph, &case.cover, &case.opening) else {
        return Err(no_memory());
    };
    let Ok(mut history) = Journal::open(alloc, CAPACITY) else {
        return Err(no_memory());
    };
    let (count, atoms) = (case.cover.sites(), case.graph.atoms());
    let sessions = case.sessions.all();
    let begun = Instant::now(rt)?;
    for number in 0..sessions.len() {
        let calls = &sessions[number];
        make(&mut sites, number as u32, calls, count, atoms, &mut history);
    }
    let took = begun.elapsed(rt)?;
    Ok((history.len(), took))
}

// The calls of a session at sites without locks. One that is none of so many sites and atoms is left out.
fn make(
    sites: &mut Sites,
    session: u32,
    calls: &CallList,
    count: u16,
    atoms: u16,
    history: &mut Journal,
)
    requires sites { count ≡ length sites.old.sites }
    requires atoms { atoms ≡ sites.old.atoms }
    ensures sites { length sites.new.sites ≡ length sites.old.sites }
    ensures atoms { sites.new.atoms ≡ sites.old.atoms }
{
    for seq in 0..calls.len() {
        let Some(call) = calls.get(seq) else {
            return;
        };
        let Ok(made) = u32::try_from(seq) else {
            return;
        };
        if !is_in_range(call, count, atoms) || history.spare() == 0 {
            return;
        }
        let outcome = sites.call(*call);
        history.push(Entry {
            session,
            seq: made,
            call: *call,
            outcome,
        });
    }
}

fn no_memory() -> io::Error {
    io::Error::from(ErrorKind::OutOfMemory)
}

/// How many entries the calls make through a cluster, by so many threads, and how long they take.
pub(crate) fn clustered<R: Threads + Wait + Clock + Sync>(
    rt: &R,
    alloc: Global,
    case: &Case,
    threads: usize,
) -> io::Result<(u32, Duration)>
    requires case { IsCase case.now }
    requires threads { 0 < threads }
{
    let sessions = case.sessions.len() as u32;
    let Ok(parts) = parts_of(alloc, case, sessions) else {
        return Err(no_memory());
    };
    let store = Store::Off(MemDisk::new(alloc, Vec::new(alloc), Vec::new(alloc)));
    in_cluster::<Brand, _>(rt, alloc, case, parts, store, threads)
}

fn in_cluster<N: StoreName<MemDisk> + Send + Sync, R: Threads + Wait + Clock + Sync>(
    rt: &R,
    alloc: Global,
    case: &Case,
    parts: Parts,
    store: Store<MemDisk>,
    threads: usize,
) -> io::Result<(u32, Duration)>
    requires parts { AreOfCase case.now parts.blank parts.sites.items }
    requires cluster { N.cluster ≡ cluster_of case.now [] }
    requires turn { N.turn ≡ parts.blank }
    requires capacity { N.capacity ≡ CAPACITY }
    requires first { N.first ≡ Some store }
    requires begins { MayBegin ⟦<MemDisk as Disk>⟧.view [] store }
    requires threads { 0 < threads }
{
    let opened = opened::<_, _, N>(alloc, case, parts, CAPACITY, store, &[], OpenGate);
    let Ok((cluster, mut passes)) = opened else {
        return Err(no_memory());
    };
    let sessions = case.sessions.all();
    let (sites, atoms) = (case.cover.sites(), case.graph.atoms());
    let begun = Instant::now(rt)?;
    thread::for_each_mut(
        rt,
        passes.as_mut_slice(),
        threads,
        &|number, pass: &mut Pass<N>|
            requires { (sites ≡ length N.cluster.owned) × (atoms ≡ N.cluster.rules.atoms) }
        { work(rt, &cluster, pass, sessions, number, sites, atoms) },
    );
    let took = begun.elapsed(rt)?;
    let end = cluster.close(rt, passes);
    Ok((end.closed.history.len(), took))
}

// The calls of the session with this number.
fn work<N: StoreName<MemDisk>, R: Wait>(
    rt: &R,
    cluster: &Cluster<MemDisk, OpenGate, N>,
    pass: &mut Pass<N>,
    sessions: &[CallList],
    number: usize,
    sites: u16,
    atoms: u16,
)
    requires sites { sites ≡ length N.cluster.owned }
    requires atoms { atoms ≡ N.cluster.rules.atoms }
{
    let Some(calls) = sessions.get(number) else {
        return;
    };
    for seq in 0..calls.len() {
        let Some(call) = calls.get(seq) else {
            return;
        };
        if !is_in_range(call, sites, atoms) || cluster.call(rt, pass, *call).is_err() {
            return;
        }
    }
}
