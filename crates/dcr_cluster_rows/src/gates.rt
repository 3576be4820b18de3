// Rows on calls that are held at the gate, where they hold the locks of the sites that they asked.
ghost use Rattle.std.specs.Prelude.{◌≡◌, ◌<◌, ◌≤◌, [], Some, length, IfOk};
ghost use Rattle.dcr_json.specs.Built.{IsCase};
ghost use Rattle.dcr_cell.specs.Stored.{MayBegin};
ghost use Rattle.dcr_cluster_rows.specs.Made.{AreOfCase, IsOfCase, cluster_of};

use crate::making::{Parts, is_in_range, no_tape, opened, parts_of};
use crate::playing::{case_of, expect_valid};
use crate::same::same;
use crate::texts::THREE_SITES;
use dcr_base::Disk;
use dcr_cell::StoreName;
use dcr_cluster::{Cluster, Finished};
use dcr_fakes::{Hold, HoldGate, MemDisk};
use dcr_journal::{Call, Closed};
use dcr_json::Case;
use dcr_set::{EventId, SiteId};
use dcr_tape::Store;
use dcr_turn::Pass;
use std::alloc::Global;
use std::marker::Brand;
use std::process::Abort;
use std::rt::Clock;
use std::sync::Wait;
use std::test::Fail;
use std::thread;
use std::thread::Threads;
use std::time::Duration;

const A: SiteId = SiteId(0);

const B: SiteId = SiteId(1);

const C: SiteId = SiteId(2);

// A session of a row: how many milliseconds it sleeps before its first call, and its calls.
#[derive(Clone, Copy)]
struct Caller<'s> {
    sleeps: u64,
    calls: &'s [Call],
}

// The cluster that the sessions of a row call, each in a thread of its own.
fn ran<R: Threads + Wait + Abort + Clock + Sync>(
    rt: &R,
    alloc: Global,
    case: &Case,
    callers: &[Caller<'_>],
    gate: &HoldGate,
) -> Result<Closed, Fail>
    requires case { IsCase case.now }
    requires some { 0 < length callers.now }
    requires few { length callers.now ≤ 3 }
{
    let parts = parts_of(alloc, case, callers.len() as u32)?;
    let Finished { closed, store: _ } = run::<Brand, _>(
        rt,
        alloc,
        case,
        parts,
        no_tape(alloc),
        callers,
        gate,
    )?;
    expect_valid(alloc, case, &closed)?;
    Ok(closed)
}

fn run<N: StoreName<MemDisk> + Send + Sync, R: Threads + Wait + Abort + Clock + Sync>(
    rt: &R,
    alloc: Global,
    case: &Case,
    parts: Parts,
    store: Store<MemDisk>,
    callers: &[Caller<'_>],
    gate: &HoldGate,
) -> Result<Finished<MemDisk>, Fail>
    requires case { IsCase case.now }
    requires parts { AreOfCase case.now parts.blank parts.sites.items }
    requires cluster { N.cluster ≡ cluster_of case.now [] }
    requires turn { N.turn ≡ parts.blank }
    requires capacity { N.capacity ≡ 100 }
    requires first { N.first ≡ Some store }
    requires begins { MayBegin ⟦<MemDisk as Disk>⟧.view [] store }
    requires some { 0 < length callers.now }
    requires sessions { N.turn.sessions ≡ length callers.now }
    ensures { IfOk result (λ end. IsOfCase case.now end.closed) }
{
    let opened = opened::<_, _, N>(alloc, case, parts, 100, store, &[], gate);
    let Ok((cluster, mut passes)) = opened else {
        return Err(Fail::new("the cluster is opened"));
    };
    let (sites, atoms) = (case.cover.sites(), case.graph.atoms());
    thread::for_each_mut(
        rt,
        passes.as_mut_slice(),
        callers.len(),
        &|number, pass: &mut Pass<N>|
            requires { (sites ≡ length N.cluster.owned) × (atoms ≡ N.cluster.rules.atoms) }
        { work(rt, &cluster, pass, sites, atoms, callers.get(number)) },
    );
    expect_made(rt, &cluster, &mut passes, callers);
    Ok(cluster.close(rt, passes))
}

// That each session has made its calls. The first two learn of each other then.
fn expect_made<N: StoreName<MemDisk>, R: Abort>(
    rt: &R,
    cluster: &Cluster<MemDisk, &HoldGate, N>,
    passes: &mut Vec<Pass<N>>,
    callers: &[Caller<'_>],
) {
    for (pass, caller) in passes.iter().zip(callers) {
        let made = pass.made() as usize;
        same(rt, &made, &caller.calls.len(), "calls of a session");
    }
    if let Some((first, rest)) = passes.split_first_mut() {
        if let Some((second, _)) = rest.split_first_mut() {
            let (one, other) = (first.seen(), second.seen());
            cluster.learn(first, second);
            let more = if one < other { other } else { one };
            same(rt, &first.seen(), &more, "what a session has learned");
            same(rt, &second.seen(), &other, "what another has seen");
        }
    }
}

// The calls of a session, behind its sleep. One that isn't of so many sites and atoms is left out.
fn work<N: StoreName<MemDisk>, R: Wait + Clock>(
    rt: &R,
    cluster: &Cluster<MemDisk, &HoldGate, N>,
    pass: &mut Pass<N>,
    sites: u16,
    atoms: u16,
    caller: Option<&Caller<'_>>,
)
    requires sites { sites ≡ length N.cluster.owned }
    requires atoms { atoms ≡ N.cluster.rules.atoms }
{
    let Some(caller) = caller else {
        return;
    };
    thread::sleep(rt, Duration::from_millis(caller.sleeps));
    for call in caller.calls {
        if is_in_range(call, sites, atoms) {
            let _ = cluster.call(rt, pass, *call);
        }
    }
}

// A must hear of b, which B owns, and b waits for a.
const HEARD_ELSEWHERE: &str =
    r#"{"graph":{"events":[{"name":"a"},{"name":"b"}],"relations":[["condition","a","b"],["response","b","a"]]},"cover":[{"site":"A","events":["a"]},{"site":"B","events":["b"]}]}"#;

// That a first call, which is held at the gate until that of session `until` has come there, isn't held in vain.
fn expect_passed<R: Threads + Wait + Abort + Clock + Sync>(
    rt: &R,
    alloc: Global,
    text: &str,
    callers: &[Caller<'_>],
    until: u32,
) -> Result<(), Fail>
    requires some { 0 < length callers.now }
    requires few { length callers.now ≤ 3 }
{
    let hold = Hold {
        at: (0, 0),
        until: (until, 0),
        turns: 10_000_000,
    };
    let gate = HoldGate::new(hold, None);
    let case = case_of(alloc, text)?;
    let closed = ran(rt, alloc, &case, callers, &gate)?;
    same(rt, &gate.first_spent(), &false, text);
    let entries = closed.history.len() as usize;
    same(rt, &entries, &callers.len(), text);
    Ok(())
}

// The look at A is held with A's lock. B blocks b by its own marks, and wants no other lock for that.
#[test]
fn a_blocked_execution_waits_for_its_own_site_alone(rt: HostRuntime) -> Result<(), Fail> {
    let look = [Call::Look(A)];
    let blocked = [Call::Exec(B, EventId(1))];
    let callers = [
        Caller {
            sleeps: 0,
            calls: &look,
        },
        Caller {
            sleeps: 0,
            calls: &blocked,
        },
    ];
    expect_passed(&rt, rt.alloc(), HEARD_ELSEWHERE, &callers, 1)
}

// The look at B is held with B's lock. Whoever asks all sites waits for that lock, and holds those of the sites before
// B alone: a look at C gets by. It would wait for them, and the held call for it, if the last lock were taken first.
#[test]
fn locks_are_taken_from_the_first_site_on(rt: HostRuntime) -> Result<(), Fail> {
    let first = [Call::Look(B)];
    let second = [Call::Accepting];
    let third = [Call::Look(C)];
    let callers = [
        Caller {
            sleeps: 0,
            calls: &first,
        },
        Caller {
            sleeps: 100,
            calls: &second,
        },
        Caller {
            sleeps: 300,
            calls: &third,
        },
    ];
    expect_passed(&rt, rt.alloc(), THREE_SITES, &callers, 2)
}
