// Clusters over a tape, and those that are refused for the executions from before.
ghost use Rattle.std.specs.Prelude.{◌≡◌, ◌≤◌, Some, length, IfOk};
ghost use Rattle.dcr_json.specs.Built.{IsCase};
ghost use Rattle.dcr_cell.specs.Stored.{MayBegin};
ghost use Rattle.dcr_cluster_rows.specs.Made.{AreOfCase, cluster_of};

use dcr_base::{Disk, OpenGate};
use dcr_cell::StoreName;
use dcr_cluster::{OpenCause, OpenRefused};
use dcr_cluster_rows::{
    Beginning, HOSPITAL, Parts, Step, case_of, expect, expect_valid, is_in_range, opened, parts_of,
    played,
};
use dcr_fakes::MemDisk;
use dcr_journal::Call;
use dcr_json::Case;
use dcr_report::case_digest;
use dcr_set::{EventId, SiteId};
use dcr_tape::{Store, TapeEntry, open_tape};
use std::alloc::Global;
use std::marker::Brand;
use std::sync::Wait;
use std::test::Fail;

/// The executions of the row, in order.
pub(crate) const EXECUTIONS: [TapeEntry; 5] = [
    TapeEntry { event: 0, site: 0 },
    TapeEntry { event: 1, site: 0 },
    TapeEntry { event: 3, site: 1 },
    TapeEntry { event: 1, site: 0 },
    TapeEntry { event: 2, site: 1 },
];

/// A disk of these bytes, of which the calls of these numbers fail.
pub(crate) fn disk_of(alloc: Global, bytes: &[u8], failing: &[u32]) -> Result<MemDisk, Fail> {
    Ok(MemDisk::new(alloc, bytes.to_vec(alloc)?, failing.to_vec(alloc)?))
}

// One session over the tape of the case on this disk, which is opened.
fn on_tape(alloc: Global, case: &Case, disk: MemDisk) -> Result<Beginning, Fail>
    requires { IsCase case.now }
    ensures sessions { IfOk result (λ beginning. beginning.sessions ≡ 1) }
    ensures capacity { IfOk result (λ beginning. beginning.capacity ≡ 100) }
    ensures few_old { IfOk result (λ beginning. length beginning.old.items ≤ 1000000) }
    ensures begins { IfOk result (λ beginning. MayBegin ⟦<MemDisk as Disk>⟧.view beginning.old.items beginning.store) }
{
    let digest = case_digest(alloc, &case.nested, &case.graph, &case.cover, &case.opening)?;
    let Ok((tape, old)) = open_tape(alloc, disk, &digest) else {
        return Err(Fail::new("the tape is opened"));
    };
    Ok(Beginning {
        sessions: 1,
        capacity: 100,
        store: Store::On(tape),
        old,
    })
}

// The disk of a store with a tape.
fn disk_in(store: Store<MemDisk>) -> Result<MemDisk, Fail> {
    match store {
        Store::On(tape) => Ok(tape.into_disk()),
        Store::Off(_) => Err(Fail::new("a tape")),
    }
}

/// What the disk is after these steps at a cluster over the tape on it. The report of the run is valid.
pub(crate) fn left_by<R: Wait>(
    rt: &R,
    alloc: Global,
    case: &Case,
    disk: MemDisk,
    steps: &[Step<'_>],
) -> Result<MemDisk, Fail>
    requires { IsCase case.now }
{
    let beginning = on_tape(alloc, case, disk)?;
    let end = played(rt, alloc, case, beginning, steps)?;
    expect_valid(alloc, case, &end.closed)?;
    disk_in(end.store)
}

/// The executions on the tape of these bytes.
pub(crate) fn kept_on(alloc: Global, case: &Case, bytes: &[u8]) -> Result<Vec<TapeEntry>, Fail>
    requires { IsCase case.now }
    ensures few { IfOk result (λ old. length old.items ≤ 1000000) }
{
    let beginning = on_tape(alloc, case, disk_of(alloc, bytes, &[])?)?;
    Ok(beginning.old)
}

#[test]
fn a_fault_in_the_last_place_stops_before_it_is_full(rt: HostRuntime) -> Result<(), Fail> {
    let alloc = rt.alloc();
    let case = case_of(alloc, HOSPITAL)?;
    let mut beginning = on_tape(alloc, &case, disk_of(alloc, &[], &[5])?)?;
    beginning.capacity = 1;
    let steps = [
        (0, "exec doctor pm", "0 0 0 exec doctor pm faulted"),
        (0, "exec doctor pm", "stopped 0"),
    ];
    let end = played(&rt, alloc, &case, beginning, &steps)?;
    expect(end.closed.history.len() == 1, "one entry")
}

// What comes of a cluster that is opened with these executions from before: nothing, or why it is refused, with the store.
fn tried(
    alloc: Global,
    case: &Case,
    store: Store<MemDisk>,
    old: &[TapeEntry],
) -> Result<Result<(), OpenRefused<MemDisk>>, Fail>
    requires case { IsCase case.now }
    requires few_old { length old.now ≤ 1000000 }
    requires begins { MayBegin ⟦<MemDisk as Disk>⟧.view old.now store }
{
    let parts = parts_of(alloc, case, 1)?;
    Ok(open_only::<Brand>(alloc, case, parts, store, old))
}

fn open_only<N: StoreName<MemDisk>>(
    alloc: Global,
    case: &Case,
    parts: Parts,
    store: Store<MemDisk>,
    old: &[TapeEntry],
) -> Result<(), OpenRefused<MemDisk>>
    requires parts { AreOfCase case.now parts.blank parts.sites.items }
    requires cluster { N.cluster ≡ cluster_of case.now old.now }
    requires turn { N.turn ≡ parts.blank }
    requires capacity { N.capacity ≡ 0 }
    requires few_old { length old.now ≤ 1000000 }
    requires first { N.first ≡ Some store }
    requires begins { MayBegin ⟦<MemDisk as Disk>⟧.view old.now store }
{
    match opened::<_, _, N>(alloc, case, parts, 0, store, old, OpenGate) {
        Ok(_) => Ok(()),
        Err(refused) => Err(refused),
    }
}

// That it is refused for this execution, with the store as it was, or opened.
fn expect_refused(
    opened: Result<(), OpenRefused<MemDisk>>,
    wanted: Option<u32>,
) -> Result<(), Fail> {
    match opened {
        Ok(()) => expect(wanted.is_none(), "a refusal where one is wanted"),
        Err(refused) => expect_cause(refused, wanted),
    }
}

fn expect_cause(refused: OpenRefused<MemDisk>, wanted: Option<u32>) -> Result<(), Fail> {
    let OpenRefused { cause, store } = refused;
    let is_told = match wanted {
        Some(at) => cause == OpenCause::BadTape { at },
        None => false,
    };
    let is_as_it_was = match store {
        Store::Off(disk) => disk.calls().is_empty() && disk.bytes() == [1, 2, 3].as_slice(),
        Store::On(_tape) => false,
    };
    expect(
        is_told && is_as_it_was,
        "an execution, and the store as it was",
    )
}

// The store is handed back where the executions from before can't be done. There needs to be no tape for that.
#[test]
fn the_first_execution_that_cannot_be_done_is_told(rt: HostRuntime) -> Result<(), Fail> {
    let alloc = rt.alloc();
    let case = case_of(alloc, HOSPITAL)?;
    let unsigned = [
        TapeEntry { event: 0, site: 0 },
        TapeEntry { event: 2, site: 1 },
    ];
    let rows: [(&[TapeEntry], Option<u32>); 3] = [
        (&[], None),
        (&EXECUTIONS, None),
        (&unsigned, Some(1)),
    ];
    for (old, wanted) in rows {
        if old.len() > 10 {
            return Err(Fail::new("few executions"));
        }
        let store = Store::Off(disk_of(alloc, &[1, 2, 3], &[])?);
        expect_refused(tried(alloc, &case, store, old)?, wanted)?;
    }
    Ok(())
}

// How many executions a store has on its tape.
fn entries_of(store: &Store<MemDisk>) -> Option<u32> {
    match store {
        Store::Off(_) => None,
        Store::On(tape) => Some(tape.entries()),
    }
}

// How many executions the store has, each time that one of these calls was answered.
fn counted<N: StoreName<MemDisk>, R: Wait>(
    rt: &R,
    alloc: Global,
    case: &Case,
    parts: Parts,
    store: Store<MemDisk>,
    old: &[TapeEntry],
    calls: &[Call],
) -> Result<Vec<Option<u32>>, Fail>
    requires case { IsCase case.now }
    requires parts { AreOfCase case.now parts.blank parts.sites.items }
    requires cluster { N.cluster ≡ cluster_of case.now old.now }
    requires turn { N.turn ≡ parts.blank }
    requires capacity { N.capacity ≡ 100 }
    requires few_old { length old.now ≤ 1000000 }
    requires first { N.first ≡ Some store }
    requires begins { MayBegin ⟦<MemDisk as Disk>⟧.view old.now store }
{
    let opened = opened::<_, _, N>(alloc, case, parts, 100, store, old, OpenGate);
    let Ok((cluster, mut passes)) = opened else {
        return Err(Fail::new("the cluster is opened"));
    };
    let (sites, atoms) = (case.cover.sites(), case.graph.atoms());
    let mut counts = Vec::new(alloc);
    for call in calls {
        let pass = passes.get_mut(0).ok_or("a session")?;
        if is_in_range(call, sites, atoms) {
            let _ = cluster.call(rt, pass, *call);
        }
        counts.push(cluster.with_store(rt, pass, |store: &Store<MemDisk>| entries_of(store)))?;
    }
    Ok(counts)
}

// An execution is on the tape by the time that it is answered, and a call that is blocked leaves none there.
#[test]
fn each_execution_is_on_the_tape_when_it_is_answered(rt: HostRuntime) -> Result<(), Fail> {
    let alloc = rt.alloc();
    let case = case_of(alloc, HOSPITAL)?;
    let Beginning { store, old, .. } = on_tape(alloc, &case, disk_of(alloc, &[], &[])?)?;
    let parts = parts_of(alloc, &case, 1)?;
    let calls = [
        Call::Exec(SiteId(0), EventId(0)),
        Call::Exec(SiteId(1), EventId(2)),
        Call::Exec(SiteId(0), EventId(1)),
        Call::Accepting,
    ];
    let counts = counted::<Brand, _>(&rt, alloc, &case, parts, store, &old, &calls)?;
    let wanted = [Some(1), Some(1), Some(2), Some(2)];
    expect(
        counts.as_slice() == wanted.as_slice(),
        "an execution is kept when it is answered",
    )
}
