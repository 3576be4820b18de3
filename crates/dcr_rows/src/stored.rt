// Runs with a store: each call of the disk fails in turn, the run is stopped within each of them, and goes on.
use crate::same::{same, same_bytes};
use crate::whole::{no_door, words_of};
use dcr_app::{Status, dcr};
use dcr_base::{OpenGate, StdSink, StdSource};
use dcr_fakes::{DiskCall, MemDisk};
use dcr_tape::{TapeEntry, open_tape};
use std::alloc::{AllocError, Global};
use std::process::Abort;
use std::sync::Wait;
use std::test::Fail;
use std::thread::Threads;

// The calls of the case, of which five are executions that are done.
static CALLS: &str =
    r#""exec doctor pm","exec nurse gm","exec doctor s","exec nurse dt","accepting","exec nurse gm","exec doctor s","exec nurse gm","accepting""#;

// The five executions as entries of the tape: pm, s, gm and dt are the events 0 to 3, the doctor is site 0, the nurse site 1.
static ENTRIES: [TapeEntry; 5] = [
    TapeEntry { event: 0, site: 0 },
    TapeEntry { event: 1, site: 0 },
    TapeEntry { event: 3, site: 1 },
    TapeEntry { event: 1, site: 0 },
    TapeEntry { event: 2, site: 1 },
];

// The opening marking of a run that goes on from none of them, from the first, and so on, and the rest of the five as calls.
static GOING_ON: [(&str, &str); 6] = [
    (
        "open executed - pending - included pm,s,gm,dt\n",
        r#""exec doctor pm","exec doctor s","exec nurse dt","exec doctor s","exec nurse gm""#,
    ),
    (
        "open executed pm pending s,gm included pm,s,gm,dt\n",
        r#""exec doctor s","exec nurse dt","exec doctor s","exec nurse gm""#,
    ),
    (
        "open executed pm,s pending gm included pm,s,gm,dt\n",
        r#""exec nurse dt","exec doctor s","exec nurse gm""#,
    ),
    (
        "open executed pm,s,dt pending s,gm included pm,s,dt\n",
        r#""exec doctor s","exec nurse gm""#,
    ),
    (
        "open executed pm,s,dt pending gm included pm,s,gm,dt\n",
        r#""exec nurse gm""#,
    ),
    (
        "open executed pm,s,gm,dt pending - included pm,s,gm,dt\n",
        "",
    ),
];

// The case without its sessions.
static GRAPH: &str =
    r#"{"graph":{"events":[{"name":"pm"},{"name":"s"},{"name":"gm"},{"name":"dt"}],"relations":[["condition","pm","s"],["condition","s","gm"],["condition","s","dt"],["response","pm","s"],["response","pm","gm"],["response","dt","s"],["exclude","dt","gm"],["include","s","gm"]]},"cover":[{"site":"doctor","events":["pm","s"]},{"site":"nurse","events":["gm","dt"]}]"#;

// The lines of the report up to the cover.
static HEAD: &str = r#"dcr 1
graph {"events":[{"label":"pm","name":"pm"},{"label":"s","name":"s"},{"label":"gm","name":"gm"},{"label":"dt","name":"dt"}],"relations":[["condition","pm","s"],["condition","s","gm"],["condition","s","dt"],["response","pm","s"],["response","pm","gm"],["response","dt","s"],["exclude","dt","gm"],["include","s","gm"]]}
cover [{"events":["pm","s"],"site":"doctor"},{"events":["gm","dt"],"site":"nurse"}]
"#;

// SHA-256 of the lines of graph, cover and the first opening marking, as Python's hashlib gives it.
const DIGEST: [u8; 32] = [
    0x3e, 0x18, 0x53, 0x41, 0xc1, 0x70, 0xeb, 0x43, 0xd3, 0x92, 0x98, 0x17, 0x63, 0xb1, 0x10, 0x09,
    0xc8, 0x71, 0x46, 0x7a, 0x83, 0x02, 0x19, 0x96, 0xff, 0x2d, 0xb6, 0x47, 0x6e, 0x6c, 0xf1, 0xc5,
];

// How a run ended: whether it is told, and what it left.
#[derive(Drop)]
struct Ran {
    status: Status,
    written: Vec<u8>,
    told: bool,
    disk: MemDisk,
}

// A disk of these bytes, of which the calls of these numbers fail.
fn disk_of(alloc: Global, bytes: &[u8], failing: &[u32]) -> Result<MemDisk, AllocError> {
    Ok(MemDisk::new(alloc, bytes.to_vec(alloc)?, failing.to_vec(alloc)?))
}

// The case of the doctor and the nurse with one session of these calls, run with a store on this disk.
fn run_on<R: Threads + Wait + Sync>(
    rt: &R,
    alloc: Global,
    calls: &str,
    disk: MemDisk,
) -> Result<Ran, Fail> {
    let file = format!(in alloc; "{GRAPH},\"sessions\":[[{calls}]]}}")?;
    let words = words_of(alloc, &["run", "--store"])?;
    let mut input = StdSource::new(file.as_bytes());
    let mut output = StdSink::new(Vec::with_capacity(alloc, 4096)?);
    let door = no_door(alloc);
    let end = dcr(
        rt,
        alloc,
        &words,
        &mut input,
        &mut output,
        door,
        disk,
        OpenGate,
    );
    Ok(Ran {
        status: end.status,
        written: output.into_inner(),
        told: end.closed.is_some(),
        disk: end.disk,
    })
}

// The executions that these bytes stand for, as the tape of the case.
fn entries_on(alloc: Global, bytes: &[u8]) -> Result<Vec<TapeEntry>, Fail> {
    match open_tape(alloc, disk_of(alloc, bytes, &[])?, &DIGEST) {
        Ok((_, entries)) => Ok(entries),
        Err(_) => Err(Fail::from("the bytes are no tape of the case")),
    }
}

// How many of the five executions, from the first on, these bytes stand for; other executions are a failure. A run goes
// on from just these, and one that makes the rest of the five leaves a tape of all.
fn count_on<R: Threads + Wait + Sync + Abort>(
    rt: &R,
    alloc: Global,
    bytes: &[u8],
) -> Result<usize, Fail> {
    let entries = entries_on(alloc, bytes)?;
    let front = ENTRIES.get(..entries.len()).ok_or("at most five")?;
    let (open, rest) = GOING_ON.get(entries.len()).ok_or("at most five")?;
    same(rt, &entries.as_slice(), &front, "the first executions");
    let ran = run_on(rt, alloc, "", disk_of(alloc, bytes, &[])?)?;
    let head = format!(in alloc; "{HEAD}{open}site ")?;
    same(rt, &ran.status, &Status::Done, open);
    let is_open = ran.written.starts_with(head.as_bytes());
    same(rt, &is_open, &true, open);
    let ran = run_on(rt, alloc, rest, ran.disk)?;
    same(rt, &ran.status, &Status::Done, rest);
    let all = entries_on(alloc, ran.disk.bytes())?;
    same(rt, &all.as_slice(), &ENTRIES.as_slice(), rest);
    Ok(entries.len())
}

// The report of a run in which the execution of this number, from 0, can't be kept, from the opening marking on.
static FAULTED: [&str; 5] = [
    "open executed - pending - included pm,s,gm,dt
0 0 0 exec doctor pm faulted
site doctor executed - pending - included pm,s
site nurse executed - pending - included s,gm,dt
verdict accepting
end 1
",
    "open executed - pending - included pm,s,gm,dt
0 0 0 exec doctor pm done
1 0 1 exec nurse gm condition s
2 0 2 exec doctor s faulted
site doctor executed pm pending s included pm,s
site nurse executed - pending gm included s,gm,dt
verdict waits s
end 3
",
    "open executed - pending - included pm,s,gm,dt
0 0 0 exec doctor pm done
1 0 1 exec nurse gm condition s
2 0 2 exec doctor s done
3 0 3 exec nurse dt faulted
site doctor executed pm,s pending - included pm,s
site nurse executed s pending gm included s,gm,dt
verdict waits gm
end 4
",
    "open executed - pending - included pm,s,gm,dt
0 0 0 exec doctor pm done
1 0 1 exec nurse gm condition s
2 0 2 exec doctor s done
3 0 3 exec nurse dt done
4 0 4 accepting waits s
5 0 5 exec nurse gm excluded
6 0 6 exec doctor s faulted
site doctor executed pm,s pending s included pm,s
site nurse executed s,dt pending gm included s,dt
verdict waits s
end 7
",
    "open executed - pending - included pm,s,gm,dt
0 0 0 exec doctor pm done
1 0 1 exec nurse gm condition s
2 0 2 exec doctor s done
3 0 3 exec nurse dt done
4 0 4 accepting waits s
5 0 5 exec nurse gm excluded
6 0 6 exec doctor s done
7 0 7 exec nurse gm faulted
site doctor executed pm,s pending - included pm,s
site nurse executed s,dt pending gm included s,gm,dt
verdict waits gm
end 8
",
];

// That a run of these calls on these bytes whose call of the disk of this number fails ends with it, and that nothing is
// asked of the disk behind it. A report is written, that of the case with these lines, where there are such, and nothing
// else. What the disk is then.
fn expect_fault<R: Threads + Wait + Sync + Abort>(
    rt: &R,
    alloc: Global,
    calls: &str,
    bytes: &[u8],
    call: u32,
    report: Option<&str>,
) -> Result<MemDisk, Fail> {
    let ran = run_on(rt, alloc, calls, disk_of(alloc, bytes, &[call])?)?;
    let wanted = match report {
        Some(rest) => format!(in alloc; "{HEAD}{rest}")?,
        None => String::new(alloc),
    };
    let row = format!(in alloc; "call {call} of the disk")?;
    same(rt, &ran.status, &Status::DiskFault, &row);
    same_bytes(rt, &ran.written, wanted.as_bytes(), &row);
    same(rt, &ran.told, &report.is_some(), &row);
    same(rt, &ran.disk.calls().len(), &(call as usize), &row);
    Ok(ran.disk)
}

// Calls 1 to 4 make the tape; then four calls for each execution.
#[test]
fn each_call_of_the_disk_fails_in_turn(rt: HostRuntime) -> Result<(), Fail> {
    let alloc = rt.alloc();
    for call in 1..=4 {
        expect_fault(&rt, alloc, CALLS, &[], call, None)?;
    }
    for (done, report) in (0u32..).zip(FAULTED) {
        for call in 1..=4u32 {
            let number = done.wrapping_mul(4).wrapping_add(4).wrapping_add(call);
            let disk = expect_fault(&rt, alloc, CALLS, &[], number, Some(report))?;
            // The gate is written by the third call of an append, and is there whether it is durable or not.
            let kept = done.wrapping_add(u32::from(call == 4)) as usize;
            let count = count_on(&rt, alloc, disk.bytes())?;
            same(&rt, &count, &kept, report);
        }
    }
    // A fault behind the last call never comes.
    let ran = run_on(&rt, alloc, CALLS, disk_of(alloc, &[], &[25])?)?;
    same(&rt, &ran.status, &Status::Done, "no fault");
    same(&rt, &ran.told, &true, "no fault");
    same(&rt, &ran.disk.calls().len(), &24, "no fault");
    Ok(())
}

// What a crash makes of the writes that aren't durable: all, nothing, bytes of 1, the first half, and each of these in turn.
static CHOICES: [u64; 5] = [
    0,
    0x5555_5555_5555_5555,
    0xAAAA_AAAA_AAAA_AAAA,
    0xFFFF_FFFF_FFFF_FFFF,
    0xE4E4_E4E4_E4E4_E4E4,
];

// That a crash within this call of the disk leaves as many executions as the gates before this place, or one more where that
// of the next one, at this place of the bytes, is open and may be.
fn expect_left<R: Threads + Wait + Sync + Abort>(
    rt: &R,
    alloc: Global,
    disk: &MemDisk,
    call: u32,
    kept: usize,
    gate: Option<usize>,
) -> Result<(), Fail> {
    for choice in CHOICES {
        let image = disk.image(alloc, call, choice)?;
        let is_open = gate.is_some_and(|at| image.get(at) == Some(&1));
        let wanted = if is_open { kept.wrapping_add(1) } else { kept };
        let row = format!(in alloc; "call {call} of the disk, {choice:x}")?;
        same(rt, &count_on(rt, alloc, &image)?, &wanted, &row);
    }
    Ok(())
}

#[test]
fn a_crash_leaves_what_was_answered_and_at_most_one_more(rt: HostRuntime) -> Result<(), Fail> {
    let alloc = rt.alloc();
    let ran = run_on(&rt, alloc, CALLS, disk_of(alloc, &[], &[])?)?;
    same(&rt, &ran.status, &Status::Done, "the whole run");
    for call in 1..=2 {
        for choice in CHOICES {
            let image = ran.disk.image(alloc, call, choice)?;
            same(&rt, &image.len(), &0, "before the tape is made");
        }
    }
    for done in 0..5u32 {
        let kept = done as usize;
        let before = done.wrapping_mul(4).wrapping_add(4);
        let gate = Some(kept.wrapping_mul(12).wrapping_add(64));
        expect_left(&rt, alloc, &ran.disk, before.wrapping_add(1), kept, None)?;
        expect_left(&rt, alloc, &ran.disk, before.wrapping_add(2), kept, None)?;
        expect_left(&rt, alloc, &ran.disk, before.wrapping_add(3), kept, gate)?;
        expect_left(&rt, alloc, &ran.disk, before.wrapping_add(4), kept, gate)?;
    }
    expect_left(&rt, alloc, &ran.disk, 25, 5, None)
}

// The tape of the five executions, of version 1 or 2.
fn tape_of(alloc: Global, version: u8) -> Result<Vec<u8>, AllocError> {
    let mut bytes = b"DCRTAPE".to_vec(alloc)?;
    bytes.push(version)?;
    bytes.extend_from_slice(&DIGEST)?;
    bytes.extend_from_slice(&[0; 24])?;
    for (number, entry) in (0u32..).zip(ENTRIES) {
        bytes.push(1)?;
        bytes.extend_from_slice(&entry.event.to_be_bytes())?;
        bytes.extend_from_slice(&entry.site.to_be_bytes())?;
        if version == 2 {
            bytes.extend_from_slice(&number.to_be_bytes())?;
        }
        bytes.extend_from_slice(&[0; 3])?;
    }
    bytes.push(0)?;
    Ok(bytes)
}

// The last five calls of the disk of a run without calls are those of the renewal.
#[test]
fn a_renewal_keeps_the_executions(rt: HostRuntime) -> Result<(), Fail> {
    let alloc = rt.alloc();
    let tape = tape_of(alloc, 1)?;
    same(&rt, &tape.len(), &105, "a tape of version 1");
    let ran = run_on(&rt, alloc, "", disk_of(alloc, &tape, &[])?)?;
    let calls = u32::try_from(ran.disk.calls().len())
        .ok()
        .ok_or("few calls")?;
    for before in 0..5 {
        let call = calls.saturating_sub(before);
        expect_left(&rt, alloc, &ran.disk, call, 5, None)?;
        let disk = expect_fault(&rt, alloc, r#""exec nurse dt""#, &tape, call, None)?;
        expect_left(&rt, alloc, &disk, call, 5, None)?;
        let count = count_on(&rt, alloc, disk.bytes())?;
        same(&rt, &count, &5, "a renewal that fails");
    }
    Ok(())
}

#[test]
fn what_executes_nothing_writes_nothing(rt: HostRuntime) -> Result<(), Fail> {
    let alloc = rt.alloc();
    let tape = tape_of(alloc, 2)?;
    same(&rt, &tape.len(), &125, "a tape of version 2");
    let calls = r#""accepting","look nurse","enabled doctor","exec nurse pm""#;
    let ran = run_on(&rt, alloc, calls, disk_of(alloc, &tape, &[])?)?;
    same(&rt, &(ran.status, ran.told), &(Status::Done, true), calls);
    same_bytes(&rt, ran.disk.bytes(), &tape, calls);
    let refused = run_on(&rt, alloc, calls, disk_of(alloc, &[0; 10], &[])?)?;
    let end = (refused.status, refused.told);
    same(&rt, &end, &(Status::TapeRefused, false), "no tape");
    for call in ran.disk.calls().iter().chain(refused.disk.calls()) {
        let is_write = matches!(call, DiskCall::Write { .. });
        same(&rt, &is_write, &false, "calls of the disk");
    }
    Ok(())
}
