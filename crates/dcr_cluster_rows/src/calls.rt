// Calls that are made one after the other, without a tape.
use crate::playing::{Step, case_of, expect_report, played, without_tape};
use crate::texts::{HOSPITAL, HOSPITAL_REPORT, HOSPITAL_STEPS, NO_SESSION, SHARED_EVENT};
use std::alloc::Global;
use std::sync::Wait;
use std::test::Fail;

// Looks and what is enabled, in two sessions of which each counts its own calls.
const TWO_SESSIONS: [Step<'static>; 6] = [
    (0, "enabled doctor", "0 0 0 enabled doctor can pm"),
    (1, "enabled nurse", "1 1 0 enabled nurse can -"),
    (
        1,
        "look doctor",
        "2 1 1 look doctor executed - pending - included pm,s",
    ),
    (0, "exec doctor pm", "3 0 1 exec doctor pm done"),
    (
        1,
        "look doctor",
        "4 1 2 look doctor executed pm pending s included pm,s",
    ),
    (0, "exec nurse pm", "5 0 2 exec nurse pm not-here"),
];

const TWO_SESSIONS_REPORT: &str = "open executed - pending - included pm,s,gm,dt
0 0 0 enabled doctor can pm
1 1 0 enabled nurse can -
2 1 1 look doctor executed - pending - included pm,s
3 0 1 exec doctor pm done
4 1 2 look doctor executed pm pending s included pm,s
5 0 2 exec nurse pm not-here
site doctor executed pm pending s included pm,s
site nurse executed - pending gm included s,gm,dt
verdict waits s
end 6
";

// An event that two sites own.
const SHARED_STEPS: [Step<'static>; 3] = [
    (0, "exec x e", "0 0 0 exec x e done"),
    (0, "exec y e", "1 0 1 exec y e done"),
    (0, "exec z e", "2 0 2 exec z e not-here"),
];

const SHARED_REPORT: &str = "open executed - pending - included e,f
0 0 0 exec x e done
1 0 1 exec y e done
2 0 2 exec z e not-here
site x executed e pending - included e
site y executed e pending - included e
site z executed - pending - included f
verdict accepting
end 3
";

// A history that is full takes no call.
const FULL_STEPS: [Step<'static>; 4] = [
    (0, "exec x a", "0 0 0 exec x a done"),
    (0, "exec x a", "1 0 1 exec x a done"),
    (0, "exec x a", "full 2"),
    (0, "accepting", "full 2"),
];

const FULL_REPORT: &str = "open executed - pending - included a
0 0 0 exec x a done
1 0 1 exec x a done
site x executed a pending - included a
verdict accepting
end 2
";

const NO_ROOM_REPORT: &str = "open executed - pending - included a
site x executed - pending - included a
verdict accepting
end 0
";

// That two sessions with room for so many entries are told so, and leave this report.
fn expect_told<R: Wait>(
    rt: &R,
    alloc: Global,
    text: &str,
    capacity: u32,
    steps: &[Step<'_>],
    report: &str,
) -> Result<(), Fail> {
    if capacity > 200_000 {
        return Err(Fail::new("as much room as there may be"));
    }
    let case = case_of(alloc, text)?;
    let mut beginning = without_tape(alloc, capacity);
    beginning.sessions = 2;
    let end = played(rt, alloc, &case, beginning, steps)?;
    expect_report(alloc, &case, &end.closed, report)
}

#[test]
fn each_call_is_answered(rt: HostRuntime) -> Result<(), Fail> {
    let no_room = [(0, "exec x a", "full 0")];
    let rows: [(&str, u32, &[Step<'_>], &str); 5] = [
        (HOSPITAL, 9, &HOSPITAL_STEPS, HOSPITAL_REPORT),
        (HOSPITAL, 200_000, &TWO_SESSIONS, TWO_SESSIONS_REPORT),
        (SHARED_EVENT, 3, &SHARED_STEPS, SHARED_REPORT),
        (NO_SESSION, 2, &FULL_STEPS, FULL_REPORT),
        (NO_SESSION, 0, &no_room, NO_ROOM_REPORT),
    ];
    for (text, capacity, steps, report) in rows {
        expect_told(&rt, rt.alloc(), text, capacity, steps, report)?;
    }
    Ok(())
}

#[test]
fn a_history_goes_on_in_a_second_block(rt: HostRuntime) -> Result<(), Fail> {
    let alloc = rt.alloc();
    let mut report = String::from_str(alloc, "open executed - pending - included a\n")?;
    let mut told = Vec::new(alloc);
    for place in 0..257 {
        let line = format!(in alloc; "{place} 0 {place} accepting yes")?;
        report.push_str(&line)?;
        report.push_str("\n")?;
        told.push(line)?;
    }
    report.push_str("site x executed - pending - included a\nverdict accepting\nend 257\n")?;
    let mut steps = Vec::new(alloc);
    for line in &told {
        steps.push((0, "accepting", line.as_str()))?;
    }
    steps.push((0, "accepting", "full 257"))?;
    expect_told(&rt, alloc, NO_SESSION, 257, &steps, &report)
}
