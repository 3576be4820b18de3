// Calls that are made one after the other, as a table says, and what the cluster ends with.
ghost use Rattle.std.specs.Prelude.{◌≡◌, ◌≤◌, List, Some, length, IfOk};
ghost use Rattle.dcr_journal.specs.Run.{IsInRange};
ghost use Rattle.dcr_journal.specs.declared.call.Entry.{Entry};
ghost use Rattle.dcr_json.specs.Built.{IsCase};
ghost use Rattle.dcr_line.specs.Fits.{FitsEntry};
ghost use Rattle.dcr_tape.specs.declared.entry.TapeEntry.{TapeEntry};
ghost use Rattle.dcr_cell.specs.Stored.{MayBegin};
ghost use Rattle.dcr_cluster_rows.specs.Made.{AreOfCase, IsOfCase, cluster_of};

use crate::making::{Parts, no_tape, opened, parts_of, report_of};
use dcr_base::{Disk, OpenGate};
use dcr_cell::StoreName;
use dcr_cluster::{Cluster, Finished, Halt};
use dcr_fakes::MemDisk;
use dcr_journal::{Call, Closed, Entry, Outcome};
use dcr_json::{Case, read_case};
use dcr_line::{Directory, read_call, write_entry};
use dcr_replay::{Verdict, check_report};
use dcr_tape::{Store, TapeEntry};
use dcr_turn::Pass;
use std::alloc::Global;
use std::marker::Brand;
use std::sync::Wait;
use std::test::Fail;

/// The case of a text.
pub fn case_of(alloc: Global, text: &str) -> Result<Case, Fail>
    ensures { IfOk result IsCase }
{
    Ok(read_case(alloc, text.as_bytes())?)
}

/// The number of a session, the call that it makes, and what it is told: the line of the entry, or why the cluster takes
/// no call.
pub type Step<'s> = (usize, &'s str, &'s str);

/// What a cluster begins with beside its case: how many sessions, how many entries at most, its store and the executions
/// from before.
#[derive(Drop)]
pub struct Beginning {
    pub sessions: u32,
    pub capacity: u32,
    pub store: Store<MemDisk>,
    pub old: Vec<TapeEntry>,
}

/// One session, no tape.
pub fn without_tape(alloc: Global, capacity: u32) -> Beginning
    ensures sessions { result.sessions ≡ 1 }
    ensures capacity { result.capacity ≡ capacity }
    ensures few_old { length result.old.items ≤ 1000000 }
    ensures begins { MayBegin ⟦<MemDisk as Disk>⟧.view result.old.items result.store }
{
    Beginning {
        sessions: 1,
        capacity,
        store: no_tape(alloc),
        old: Vec::new(alloc),
    }
}

// That another text came than the one that is wanted.
fn differs(alloc: Global, told: &[u8], wanted: &str) -> Result<Fail, Fail> {
    let told = str::from_utf8(told)?;
    Ok(Fail::new(format!(in alloc; "{told}, where {wanted} is wanted")?))
}

/// What a cluster of the case tells in these steps, one after the other. It fails at the first that is told otherwise.
/// What the cluster ends with comes back.
pub fn played<R: Wait>(
    rt: &R,
    alloc: Global,
    case: &Case,
    beginning: Beginning,
    steps: &[Step<'_>],
) -> Result<Finished<MemDisk>, Fail>
    requires case { IsCase case.now }
    requires sessions { beginning.sessions ≤ 1024 }
    requires most { beginning.capacity ≤ 200000 }
    requires few_old { length beginning.old.items ≤ 1000000 }
    requires begins { MayBegin ⟦<MemDisk as Disk>⟧.view beginning.old.items beginning.store }
    ensures { IfOk result (λ end. IsOfCase case.now end.closed) }
{
    let parts = parts_of(alloc, case, beginning.sessions)?;
    let Beginning {
        sessions: _,
        capacity,
        store,
        old,
    } = beginning;
    play::<Brand, _>(rt, alloc, case, parts, capacity, store, &old, steps)
}

fn play<N: StoreName<MemDisk>, R: Wait>(
    rt: &R,
    alloc: Global,
    case: &Case,
    parts: Parts,
    capacity: u32,
    store: Store<MemDisk>,
    old: &[TapeEntry],
    steps: &[Step<'_>],
) -> Result<Finished<MemDisk>, Fail>
    requires case { IsCase case.now }
    requires parts { AreOfCase case.now parts.blank parts.sites.items }
    requires cluster { N.cluster ≡ cluster_of case.now old.now }
    requires turn { N.turn ≡ parts.blank }
    requires capacity { N.capacity ≡ capacity }
    requires most { capacity ≤ 200000 }
    requires few_old { length old.now ≤ 1000000 }
    requires first { N.first ≡ Some store }
    requires begins { MayBegin ⟦<MemDisk as Disk>⟧.view old.now store }
    ensures { IfOk result (λ end. IsOfCase case.now end.closed) }
{
    let opened = opened::<_, _, N>(alloc, case, parts, capacity, store, old, OpenGate);
    let Ok((cluster, mut passes)) = opened else {
        return Err(Fail::new("the cluster is opened"));
    };
    take_steps(rt, alloc, case, &cluster, &mut passes, steps)?;
    Ok(cluster.close(rt, passes))
}

// Makes the calls of the steps, one after the other, at a cluster of the case. It fails at the first that is told otherwise.
fn take_steps<N: StoreName<MemDisk>, R: Wait>(
    rt: &R,
    alloc: Global,
    case: &Case,
    cluster: &Cluster<MemDisk, OpenGate, N>,
    passes: &mut Vec<Pass<N>>,
    steps: &[Step<'_>],
) -> Result<(), Fail>
    requires case { IsCase case.now }
    requires cluster { (old : List TapeEntry) × (N.cluster ≡ cluster_of case.now old) }
{
    let directory = Directory::new(alloc, &case.graph, &case.cover)?;
    for step in steps {
        take_step(rt, alloc, case, cluster, &directory, passes, step)?;
    }
    Ok(())
}

fn take_step<N: StoreName<MemDisk>, R: Wait>(
    rt: &R,
    alloc: Global,
    case: &Case,
    cluster: &Cluster<MemDisk, OpenGate, N>,
    directory: &Directory<'_>,
    passes: &mut Vec<Pass<N>>,
    step: &Step<'_>,
) -> Result<(), Fail>
    requires case { IsCase case.now }
    requires cluster { (old : List TapeEntry) × (N.cluster ≡ cluster_of case.now old) }
    requires directory { (length directory.now.sites ≡ length case.now.cover.names) × (length directory.now.atoms ≡ length case.now.graph.names) }
{
    let (session, line, wanted) = step;
    let call = read_call(line.as_bytes(), directory).ok_or("a call")?;
    let pass = passes.get_mut(*session).ok_or("a session")?;
    make_call(rt, alloc, case, cluster, pass, call, wanted)
}

fn make_call<N: StoreName<MemDisk>, R: Wait>(
    rt: &R,
    alloc: Global,
    case: &Case,
    cluster: &Cluster<MemDisk, OpenGate, N>,
    pass: &mut Pass<N>,
    call: Call,
    wanted: &str,
) -> Result<(), Fail>
    requires case { IsCase case.now }
    requires cluster { (old : List TapeEntry) × (N.cluster ≡ cluster_of case.now old) }
    requires call { IsInRange (length case.now.cover.names) (length case.now.graph.names) call }
{
    let answer = cluster.call(rt, pass, call);
    let told = told(alloc, case, pass, &call, answer)?;
    if told.as_slice() != wanted.as_bytes() {
        return Err(differs(alloc, &told, wanted)?);
    }
    Ok(())
}

// The line of the entry that a pass has made last, or why none was made.
fn told<N: StoreName<MemDisk>>(
    alloc: Global,
    case: &Case,
    pass: &Pass<N>,
    call: &Call,
    answer: Result<Outcome, Halt>,
) -> Result<Vec<u8>, Fail>
    requires { IfOk answer (λ outcome. (entry : Entry) → entry.call ≡ call.now → entry.outcome ≡ outcome
        → FitsEntry (length case.now.cover.names) (length case.now.graph.names) entry) }
{
    match answer {
        Ok(outcome) => {
            let entry = Entry {
                session: pass.session(),
                seq: pass.made().saturating_sub(1),
                call: *call,
                outcome,
            };
            let mut line = Vec::new(alloc);
            write_entry(
                pass.seen().saturating_sub(1),
                &entry,
                &case.graph,
                &case.cover,
                &mut line,
            )?;
            Ok(line)
        }
        Err(Halt::Full { capacity }) => Ok(format!(in alloc; "full {capacity}")?.into_bytes()),
        Err(Halt::Stopped { at }) => Ok(format!(in alloc; "stopped {at}")?.into_bytes()),
    }
}

/// Fails with these words where it doesn't hold.
pub fn expect(is: bool, what: &str) -> Result<(), Fail> {
    if is { Ok(()) } else { Err(Fail::new(what)) }
}

/// Fails where the report of the run is not one of a legal history, by the plain engine of the whole graph.
pub fn expect_valid(alloc: Global, case: &Case, closed: &Closed) -> Result<(), Fail>
    requires case { IsCase case.now }
    requires run { IsOfCase case.now closed.now }
{
    let entries = closed.history.len();
    let report = report_of(alloc, case, closed)?;
    match check_report(alloc, &report)? {
        Verdict::Valid { entries: found } if found == entries => Ok(()),
        _ => Err(Fail::new("the report of the run is not valid")),
    }
}

/// Fails where the report of the run doesn't end with these lines, those behind the cover.
pub fn expect_report(alloc: Global, case: &Case, closed: &Closed, wanted: &str) -> Result<(), Fail>
    requires case { IsCase case.now }
    requires run { IsOfCase case.now closed.now }
{
    let report = report_of(alloc, case, closed)?;
    if !wanted.starts_with("open ") || !report.ends_with(wanted.as_bytes()) {
        return Err(differs(alloc, &report, wanted)?);
    }
    Ok(())
}
