// The calls of all sessions of a case, made by one worker and by many: each session's calls are made once and in order, those
// of one worker's sessions one session after the other, and the history is legal.
ghost use Rattle.std.specs.Prelude.{◌≤◌, ◌<◌, ◌^◌, IfOk};
ghost use Rattle.dcr_json.specs.Built.{IsCase};

use crate::playing::expect_valid;
use crate::same::same;
use crate::texts::{HOSPITAL, NO_SESSION};
use crate::working::{Ended, worked};
use dcr_journal::Closed;
use dcr_json::{Case, read_case};
use std::alloc::{AllocError, Global};
use std::process::Abort;
use std::sync::Wait;
use std::test::Fail;
use std::thread::Threads;

// The case of a text without sessions, with these.
fn case_with(alloc: Global, text: &str, sessions: &str) -> Result<Case, Fail>
    ensures { IfOk result IsCase }
{
    let graph = text.strip_suffix("}").ok_or("a text")?;
    let whole = format!(in alloc; "{graph},\"sessions\":[{sessions}]}}")?;
    Ok(read_case(alloc, whole.as_bytes())?)
}

// That the passes are those of all sessions, in order, and that each session's entries are the first calls of its list,
// each once and in order, as many as its pass has made.
fn expect_first_calls<R: Abort>(
    rt: &R,
    alloc: Global,
    case: &Case,
    worked: &Ended,
) -> Result<(), Fail> {
    let mut counts = Vec::new(alloc);
    for _ in 0..case.sessions.len() {
        counts.push(0u32)?;
    }
    let history = &worked.closed.history;
    for place in 0..history.len() {
        let entry = history.get(place).ok_or("an entry")?;
        let count = counts.get_mut(entry.session as usize).ok_or("a session")?;
        let calls = case
            .sessions
            .get(entry.session as usize)
            .ok_or("a session")?;
        let call = calls.get(*count as usize).ok_or("a call")?;
        same(rt, &entry.seq, count, "the number of an entry");
        same(rt, &entry.call, call, "the call of an entry");
        *count = count.wrapping_add(1);
    }
    same(rt, &worked.passes.len(), &counts.len(), "passes");
    for ((number, made), (session, count)) in worked.passes.iter().zip((0u32..).zip(&counts)) {
        same(rt, number, &session, "the session of a pass");
        same(rt, made, count, "the calls of a pass");
    }
    Ok(())
}

// That of two sessions of one worker every entry of the earlier one stands before every entry of the later one.
fn expect_worker_order(alloc: Global, workers: u32, closed: &Closed) -> Result<(), Fail> {
    let mut latest = Vec::new(alloc);
    for _ in 0..workers {
        latest.push(0u32)?;
    }
    for place in 0..closed.history.len() {
        let entry = closed.history.get(place).ok_or("an entry")?;
        let worker = entry.session.checked_rem(workers).ok_or("a worker")?;
        let before = latest.get_mut(worker as usize).ok_or("a worker")?;
        if *before > entry.session {
            return Err(Fail::new("a later session of a worker"));
        }
        *before = entry.session;
    }
    Ok(())
}

// What so many workers leave of the case, with room for so many entries: so many.
fn expect_worked<R: Threads + Wait + Abort + Sync>(
    rt: &R,
    alloc: Global,
    case: &Case,
    workers: u32,
    capacity: u32,
    entries: u32,
) -> Result<Ended, Fail>
    requires { IsCase case.now }
{
    let end = worked(rt, alloc, case, workers, capacity)?;
    same(rt, &end.closed.history.len(), &entries, "entries");
    expect_first_calls(rt, alloc, case, &end)?;
    expect_worker_order(alloc, workers, &end.closed)?;
    expect_valid(alloc, case, &end.closed)?;
    Ok(end)
}

// Seven sessions at the hospital, of 19 calls.
const SEVEN_SESSIONS: &str =
    r#"["exec doctor pm","exec doctor s","accepting"],["exec nurse gm","exec nurse dt","look nurse"],["enabled doctor","exec doctor s","exec doctor pm"],["exec nurse dt","exec nurse gm","exec nurse gm","accepting"],["look doctor","exec nurse pm"],[],["exec doctor s","exec nurse gm","enabled nurse","exec doctor pm"]"#;

#[test]
fn sessions_at_the_hospital(rt: HostRuntime) -> Result<(), Fail> {
    let alloc = rt.alloc();
    let case = case_with(alloc, HOSPITAL, SEVEN_SESSIONS)?;
    for workers in [1, 2, 4, 8, 64] {
        expect_worked(&rt, alloc, &case, workers, 200_000, 19)?;
    }
    let sessions = format!(in alloc; "{SEVEN_SESSIONS},")?;
    let mut many = sessions.repeat(alloc, 21)?;
    many.push_str("[]")?;
    let case = case_with(alloc, HOSPITAL, &many)?;
    expect_worked(&rt, alloc, &case, 4, 200_000, 399)?;
    Ok(())
}

// The graph and the cover of so many sites and atoms, each owned by the site of its number and by another one, with so many
// relations.
fn large_text(alloc: Global, sites: u16, atoms: u16, relations: u16) -> Result<String, AllocError>
    requires some_site { 0 < sites }
    requires some_atom { 0 < atoms }
{
    let mut text = String::from_str(alloc, "{\"graph\":{\"events\":[")?;
    let mut comma = "";
    for e in 0..atoms {
        text.push_str(&format!(in alloc; "{comma}{{\"name\":\"e{e}\"}}")?)?;
        comma = ",";
    }
    text.push_str("],\"relations\":[[\"exclude\",\"e0\",\"e0\"]")?;
    for number in 0..relations {
        text.push_str(&relation(alloc, u32::from(number), u32::from(atoms))?)?;
    }
    text.push_str("]},\"cover\":[")?;
    comma = "";
    for site in 0..sites {
        text.push_str(&format!(in alloc;
            "{comma}{{\"site\":\"s{site}\",\"events\":[\"e{site}\""
        )?)?;
        comma = ",";
        for e in 0..atoms {
            if e % sites == site || e / 5 % sites == site {
                text.push_str(&format!(in alloc; ",\"e{e}\"")?)?;
            }
        }
        text.push_str("]}")?;
    }
    text.push_str("]}")?;
    Ok(text)
}

// One relation behind a comma. An event that another one waits for has the smaller number, so that not all are blocked for
// ever, and of two events one is always included by the other, or always excluded.
fn relation(alloc: Global, number: u32, atoms: u32) -> Result<String, AllocError>
    requires number { number < 2 ^ 16 }
    requires atoms { 0 < atoms }
    requires few { atoms < 2 ^ 16 }
{
    let one = (number * 37 + number / 7) % atoms;
    let other = (number * 101 + number / 11 + 5) % atoms;
    let (less, more) = if one < other {
        (one, other)
    } else {
        (other, one)
    };
    match number / 3 % 4 {
        0 if less < more => format!(in alloc; ",[\"condition\",\"e{less}\",\"e{more}\"]"),
        1 if less < more => format!(in alloc; ",[\"milestone\",\"e{less}\",\"e{more}\"]"),
        2 => format!(in alloc; ",[\"response\",\"e{one}\",\"e{other}\"]"),
        _ if (one + other) % 4 == 0 => format!(in alloc; ",[\"exclude\",\"e{one}\",\"e{other}\"]"),
        _ => format!(in alloc; ",[\"include\",\"e{one}\",\"e{other}\"]"),
    }
}

// So many sessions of so many calls: of each eleven one looks, one asks what is enabled, one asks whether all is accepting,
// one asks whatever site to execute an event, and the others ask one that owns it.
fn large_sessions(
    alloc: Global,
    sessions: u32,
    calls: u32,
    sites: u32,
    atoms: u32,
) -> Result<String, AllocError>
    requires sessions { sessions ≤ 100 }
    requires calls { calls ≤ 1000 }
    requires some_site { 0 < sites }
    requires some_atom { 0 < atoms }
{
    let mut text = String::new(alloc);
    for session in 0..sessions {
        text.push_str(if session == 0 {
            "[\"accepting\""
        } else {
            ",[\"accepting\""
        })?;
        for number in 1..calls {
            let event = (session * 5 + number * 7 + number / 3) % atoms;
            let (site, other) = (event % sites, number % sites);
            let call = match (session * 3 + number) % 11 {
                0 => format!(in alloc; ",\"look s{site}\"")?,
                1 => format!(in alloc; ",\"enabled s{site}\"")?,
                2 => String::from_str(alloc, ",\"accepting\"")?,
                3 => format!(in alloc; ",\"exec s{other} e{event}\"")?,
                _ => format!(in alloc; ",\"exec s{site} e{event}\"")?,
            };
            text.push_str(&call)?;
        }
        text.push_str("]")?;
    }
    Ok(text)
}

#[test]
fn many_sessions_at_many_sites(rt: HostRuntime) -> Result<(), Fail> {
    let alloc = rt.alloc();
    let text = large_text(alloc, 64, 1024, 4095)?;
    let case = case_with(alloc, &text, &large_sessions(alloc, 32, 625, 64, 1024)?)?;
    let large = (case.cover.sites(), case.graph.atoms());
    same(&rt, &large, &(64, 1024), "a large case");
    expect_worked(&rt, alloc, &case, 16, 200_000, 20_000)?;
    let text = large_text(alloc, 8, 16, 24)?;
    let case = case_with(alloc, &text, &large_sessions(alloc, 30, 50, 8, 16)?)?;
    for (capacity, entries) in [(200_000, 1_500), (0, 0), (1, 1), (100, 100)] {
        expect_worked(&rt, alloc, &case, 4, capacity, entries)?;
    }
    Ok(())
}

#[test]
fn a_full_history_ends_each_session_of_one_worker(rt: HostRuntime) -> Result<(), Fail> {
    let alloc = rt.alloc();
    let sessions = r#"["exec x a","exec x a"],["exec x a","exec x a"],["exec x a"]"#;
    let case = case_with(alloc, NO_SESSION, sessions)?;
    let rows = [
        (0, 0, [(0, 0), (1, 0), (2, 0)]),
        (1, 1, [(0, 1), (1, 0), (2, 0)]),
        (3, 3, [(0, 2), (1, 1), (2, 0)]),
        (4, 4, [(0, 2), (1, 2), (2, 0)]),
        (5, 5, [(0, 2), (1, 2), (2, 1)]),
        (6, 5, [(0, 2), (1, 2), (2, 1)]),
    ];
    for (capacity, entries, wanted) in rows {
        let end = expect_worked(&rt, alloc, &case, 1, capacity, entries)?;
        same(&rt, &end.passes.as_slice(), &wanted.as_slice(), "passes");
    }
    Ok(())
}
