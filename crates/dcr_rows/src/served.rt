// Cases that are served, over links in memory: who asks what, and what is answered and written.
use crate::same::{same, same_bytes, same_text};
use crate::whole::{answer, empty_disk, words_of};
use dcr_app::{Status, WorkCause, WorkEnd, dcr};
use dcr_base::{Gate, OpenGate, StdSink, StdSource};
use dcr_cluster::Halt;
use dcr_cluster_rows::{GUARDED, HOSPITAL, NO_SESSION, TWO_SITES};
use dcr_fakes::{Hold, HoldGate, MemDisk};
use dcr_link_rows::{Asking, Told, door_of, ends_of, links_of, whole};
use std::alloc::{AllocError, Global};
use std::process::Abort;
use std::sync::Wait;
use std::test::Fail;
use std::thread::Threads;

// What is served: the case, the words, over which links, and the calls of the door that fail, counted from 1.
#[derive(Clone, Copy)]
struct Serving<'a> {
    file: &'a str,
    words: &'a [&'a str],
    links: &'a [Asking<'a>],
    failing: &'a [u32],
}

// What came of it: how the program ended, what it wrote, how each session has ended that had a link, how many links are left
// at the door, and the disk.
#[derive(Drop)]
struct Came {
    status: Status,
    report: Vec<u8>,
    ends: Vec<Told>,
    left: usize,
    disk: MemDisk,
}

// Serves the sessions, with this disk and gate.
fn served<G: Gate + Drop + Sync, R: Threads + Wait + Sync>(
    rt: &R,
    alloc: Global,
    serving: &Serving<'_>,
    disk: MemDisk,
    gate: G,
) -> Result<Came, Fail> {
    let words = words_of(alloc, serving.words)?;
    let mut input = StdSource::new(serving.file.as_bytes());
    // With its room taken at first, the sink of a small report doesn't fail for want of memory.
    let mut output = StdSink::new(Vec::with_capacity(alloc, 4096)?);
    let door = door_of(alloc, serving.links, serving.failing)?;
    let end = dcr(rt, alloc, &words, &mut input, &mut output, door, disk, gate);
    Ok(Came {
        status: end.status,
        report: output.into_inner(),
        ends: ends_of(alloc, &end.ends)?,
        left: links_of(end.door),
        disk: end.disk,
    })
}

// The first lines of the reports of the doctor and the nurse.
static HEAD: &str = r#"dcr 1
graph {"events":[{"label":"pm","name":"pm"},{"label":"s","name":"s"},{"label":"gm","name":"gm"},{"label":"dt","name":"dt"}],"relations":[["condition","pm","s"],["condition","s","gm"],["condition","s","dt"],["response","pm","s"],["response","pm","gm"],["response","dt","s"],["exclude","dt","gm"],["include","s","gm"]]}
cover [{"events":["pm","s"],"site":"doctor"},{"events":["gm","dt"],"site":"nurse"}]
"#;

// A serving of the doctor and the nurse, and what comes of it.
#[derive(Clone, Copy)]
struct Row<'a> {
    words: &'a [&'a str],
    links: &'a [Asking<'a>],
    // The calls of the door that fail, counted from 1.
    failing: &'a [u32],
    status: Status,
    // The lines of the report from the opening marking on.
    rest: &'a str,
    // What each link has taken, how many calls its session made, and how that has ended.
    ends: &'a [(&'a str, u32, WorkCause)],
    // How many links are left.
    left: usize,
}

// That the row holds. What the disk is then.
fn expect<R: Threads + Wait + Sync + Abort>(
    rt: &R,
    alloc: Global,
    row: &Row<'_>,
    disk: MemDisk,
) -> Result<MemDisk, Fail> {
    let serving = Serving {
        file: HOSPITAL,
        words: row.words,
        links: row.links,
        failing: row.failing,
    };
    let came = served(rt, alloc, &serving, disk, OpenGate)?;
    same(rt, &came.status, &row.status, row.rest);
    let report = format!(in alloc; "{HEAD}{}", row.rest)?;
    same_text(rt, str::from_utf8(&came.report)?, &report, row.rest);
    expect_ends(rt, &came.ends, row.ends);
    same(rt, &came.left, &row.left, row.rest);
    Ok(came.disk)
}

// That the sessions have ended so, in order, each with its number.
fn expect_ends<R: Abort>(rt: &R, told: &[Told], ends: &[(&str, u32, WorkCause)]) {
    same(rt, &told.len(), &ends.len(), "sessions with a link");
    for (session, (told, (taken, calls, cause))) in (0u32..).zip(told.iter().zip(ends)) {
        let end = WorkEnd {
            calls: *calls,
            cause: *cause,
        };
        same(rt, &told.session, &session, taken);
        same_bytes(rt, &told.taken, taken.as_bytes(), taken);
        same(rt, &told.end, &end, taken);
    }
}

// Nobody asks.
static NONE: Row<'static> = Row {
    words: &["serve", "--sessions", "1", "--workers", "1"],
    links: &[],
    failing: &[],
    status: Status::Done,
    rest: "open executed - pending - included pm,s,gm,dt
site doctor executed - pending - included pm,s
site nurse executed - pending - included s,gm,dt
verdict accepting
end 0
",
    ends: &[],
    left: 0,
};

#[test]
fn sessions_are_answered_line_by_line(rt: HostRuntime) -> Result<(), Fail> {
    let asked_once = "open executed - pending - included pm,s,gm,dt
0 0 0 accepting yes
site doctor executed - pending - included pm,s
site nurse executed - pending - included s,gm,dt
verdict accepting
end 1
";
    let rows = [
        Row {
            links: &[whole(b"look doctor\nexec doctor pm\r\nfoo\naccepting")],
            rest: "open executed - pending - included pm,s,gm,dt
0 0 0 look doctor executed - pending - included pm,s
1 0 1 exec doctor pm done
site doctor executed pm pending s included pm,s
site nurse executed - pending gm included s,gm,dt
verdict waits s
end 2
",
            ends: &[(
                "0 0 0 look doctor executed - pending - included pm,s\n1 0 1 exec doctor pm done\nbad-line\n",
                2,
                WorkCause::Ended,
            )],
            ..NONE
        },
        // A line that is too long ends its session alone.
        Row {
            words: &["serve", "--sessions", "2", "--workers", "1"],
            links: &[whole(&[b'a'; 201]), whole(b"accepting\n")],
            rest: "open executed - pending - included pm,s,gm,dt
0 1 0 accepting yes
site doctor executed - pending - included pm,s
site nurse executed - pending - included s,gm,dt
verdict accepting
end 1
",
            ends: &[
                ("long-line\n", 0, WorkCause::LongLine),
                ("0 1 0 accepting yes\n", 1, WorkCause::Ended),
            ],
            ..NONE
        },
        // And so does a link that takes no more.
        Row {
            links: &[Asking {
                room: 20,
                ..whole(b"look doctor\nexec doctor pm\n")
            }],
            rest: "open executed - pending - included pm,s,gm,dt
0 0 0 look doctor executed - pending - included pm,s
site doctor executed - pending - included pm,s
site nurse executed - pending - included s,gm,dt
verdict accepting
end 1
",
            ends: &[("0 0 0 look doctor ex", 1, WorkCause::LinkFault)],
            ..NONE
        },
        // A door that fails is told.
        Row {
            links: &[whole(b"accepting\n")],
            failing: &[1],
            status: Status::DoorFault,
            left: 1,
            ..NONE
        },
        Row {
            words: &["serve", "--sessions", "3", "--workers", "1"],
            links: &[whole(b"accepting\n")],
            failing: &[2],
            status: Status::DoorFault,
            rest: asked_once,
            ends: &[("0 0 0 accepting yes\n", 1, WorkCause::Ended)],
            ..NONE
        },
        // Links that no session wants are left.
        Row {
            links: &[whole(b""), whole(b"accepting\n"), whole(b"")],
            ends: &[("", 0, WorkCause::Ended)],
            left: 2,
            ..NONE
        },
        // A door that has shut ends the serving of as many sessions as there may be, by as many workers.
        NONE,
        Row {
            words: &["serve", "--sessions", "1024", "--workers", "1"],
            ..NONE
        },
        Row {
            words: &["serve", "--sessions", "1024", "--workers", "2"],
            ..NONE
        },
        Row {
            words: &["serve", "--sessions", "1024", "--workers", "64"],
            ..NONE
        },
        Row {
            words: &["serve", "--sessions", "1", "--workers", "64"],
            ..NONE
        },
        Row {
            words: &["serve", "--sessions", "1000", "--workers", "10"],
            ..NONE
        },
    ];
    for row in rows {
        let disk = expect(&rt, rt.alloc(), &row, empty_disk(rt.alloc()))?;
        // Without `--store` the disk isn't called.
        same(&rt, &disk.calls().len(), &0, row.rest);
    }
    Ok(())
}

// The report of the doctor's calls in the case in which events ask for roles; of the one that is denied nothing stands there.
static GUARDED_REPORT: &str = r#"dcr 2
graph {"events":[{"label":"pm","name":"pm"},{"label":"s","name":"s"},{"label":"gm","name":"gm"},{"label":"dt","name":"dt"}],"relations":[["condition","pm","s"],["condition","s","gm"],["condition","s","dt"],["response","pm","s"],["response","pm","gm"],["response","dt","s"],["exclude","dt","gm"],["include","s","gm"]]}
cover [{"events":["pm","s"],"site":"doctor"},{"events":["gm","dt"],"site":"nurse"}]
open executed - pending - included pm,s,gm,dt
0 0 0 exec doctor pm done
1 0 1 look nurse executed - pending gm included s,gm,dt
site doctor executed pm pending s included pm,s
site nurse executed - pending gm included s,gm,dt
verdict waits s
end 2
"#;

#[test]
fn a_call_that_is_denied_makes_no_entry(rt: HostRuntime) -> Result<(), Fail> {
    let alloc = rt.alloc();
    let serving = Serving {
        file: GUARDED,
        words: NONE.words,
        links: &[whole(b"exec nurse gm\nexec doctor pm\nlook nurse\n")],
        failing: &[],
    };
    let came = served(&rt, alloc, &serving, empty_disk(alloc), OpenGate)?;
    same(&rt, &came.status, &Status::Done, "a denied call");
    same_text(
        &rt,
        str::from_utf8(&came.report)?,
        GUARDED_REPORT,
        "the report",
    );
    let taken = "denied nur
0 0 0 exec doctor pm done
1 0 1 look nurse executed - pending gm included s,gm,dt
";
    expect_ends(&rt, &came.ends, &[(taken, 2, WorkCause::Ended)]);
    Ok(())
}

// So many copies of a text. No clause says which, since a proof would spell out so many of a number that is written.
fn copies(alloc: Global, text: &str, count: usize) -> Result<String, AllocError> {
    text.repeat(alloc, count)
}

#[test]
fn a_link_of_more_than_200_000_lines_ends_its_session(rt: HostRuntime) -> Result<(), Fail> {
    let alloc = rt.alloc();
    let mut asked = copies(alloc, "x\n", 200_000)?;
    asked.push_str("x")?;
    let mut replies = copies(alloc, "bad-line\n", 200_000)?;
    replies.push_str("many-lines\n")?;
    let row = Row {
        links: &[whole(asked.as_bytes())],
        ends: &[(replies.as_str(), 0, WorkCause::ManyLines)],
        ..NONE
    };
    expect(&rt, alloc, &row, empty_disk(alloc))?;
    Ok(())
}

#[test]
fn a_serving_with_a_store_goes_on_and_ends_where_its_disk_fails(
    rt: HostRuntime,
) -> Result<(), Fail> {
    let alloc = rt.alloc();
    let first = Row {
        words: &["serve", "--sessions", "1", "--workers", "1", "--store"],
        links: &[whole(b"exec doctor pm\n")],
        rest: "open executed - pending - included pm,s,gm,dt
0 0 0 exec doctor pm done
site doctor executed pm pending s included pm,s
site nurse executed - pending gm included s,gm,dt
verdict waits s
end 1
",
        ends: &[("0 0 0 exec doctor pm done\n", 1, WorkCause::Ended)],
        ..NONE
    };
    let second = Row {
        links: &[whole(b"exec doctor s\n")],
        rest: "open executed pm pending s,gm included pm,s,gm,dt
0 0 0 exec doctor s done
site doctor executed pm,s pending - included pm,s
site nurse executed s pending gm included s,gm,dt
verdict waits gm
end 1
",
        ends: &[("0 0 0 exec doctor s done\n", 1, WorkCause::Ended)],
        ..first
    };
    let faulted = Row {
        links: &[whole(b"exec doctor pm\nexec nurse gm\nexec doctor s\naccepting\n")],
        status: Status::DiskFault,
        rest: "open executed - pending - included pm,s,gm,dt
0 0 0 exec doctor pm done
1 0 1 exec nurse gm condition s
2 0 2 exec doctor s faulted
site doctor executed pm pending s included pm,s
site nurse executed - pending gm included s,gm,dt
verdict waits s
end 3
",
        ends: &[(
            "0 0 0 exec doctor pm done\n1 0 1 exec nurse gm condition s\n2 0 2 exec doctor s faulted\nstopped 2\n",
            3,
            WorkCause::Halted(Halt::Stopped { at: 2 }),
        )],
        ..first
    };
    let disk = expect(&rt, alloc, &first, empty_disk(alloc))?;
    expect(&rt, alloc, &second, disk)?;
    // Opening makes four calls, and the first execution four more.
    let failing = MemDisk::new(alloc, Vec::new(alloc), Vec::from_slice(alloc, &[9])?);
    expect(&rt, alloc, &faulted, failing)?;
    Ok(())
}

#[test]
fn two_sessions_are_served_at_once(rt: HostRuntime) -> Result<(), Fail> {
    let alloc = rt.alloc();
    let hold = |at, until| Hold {
        at: (at, 0),
        until: (until, 0),
        turns: 10_000_000,
    };
    // Either call waits at the gate for the other one.
    let gate = HoldGate::new(hold(0, 1), Some(hold(1, 0)));
    let serving = Serving {
        file: TWO_SITES,
        words: &["serve", "--sessions", "2", "--workers", "2"],
        links: &[whole(b"exec A a\n"), whole(b"exec B b\n")],
        failing: &[],
    };
    let came = served(&rt, alloc, &serving, empty_disk(alloc), &gate)?;
    same(&rt, &came.status, &Status::Done, "the status");
    let spent = (gate.first_spent(), gate.second_spent());
    same(&rt, &spent, &(false, false), "calls that were held in vain");
    same(&rt, &came.ends.len(), &2, "sessions with a link");
    for told in &came.ends {
        let end = WorkEnd {
            calls: 1,
            cause: WorkCause::Ended,
        };
        same(&rt, &told.end, &end, "the end of a session");
    }
    Ok(())
}

#[test]
fn a_worker_goes_on_with_the_next_link_while_another_one_is_served(
    rt: HostRuntime,
) -> Result<(), Fail> {
    let alloc = rt.alloc();
    // The second call of the second session waits at the gate for the first one of the third.
    let hold = Hold {
        at: (1, 1),
        until: (2, 0),
        turns: 10_000_000,
    };
    let gate = HoldGate::new(hold, None);
    let serving = Serving {
        file: TWO_SITES,
        words: &["serve", "--sessions", "3", "--workers", "2"],
        links: &[
            whole(b"exec A a\n"),
            whole(b"exec B b\nexec B b\n"),
            whole(b"exec A a\n"),
        ],
        failing: &[],
    };
    let came = served(&rt, alloc, &serving, empty_disk(alloc), &gate)?;
    same(&rt, &came.status, &Status::Done, "the status");
    same(
        &rt,
        &gate.first_spent(),
        &false,
        "a call that was held in vain",
    );
    same(&rt, &came.ends.len(), &3, "sessions with a link");
    Ok(())
}

#[test]
fn many_sessions_give_a_valid_report(rt: HostRuntime) -> Result<(), Fail> {
    let alloc = rt.alloc();
    let asked =
        b"exec doctor pm\nexec doctor s\nexec nurse gm\nlook nurse\nenabled doctor\nexec nurse dt\n";
    let serving = Serving {
        file: HOSPITAL,
        words: &["serve", "--sessions", "50", "--workers", "8"],
        links: &[whole(asked); 40],
        failing: &[],
    };
    let came = served(&rt, alloc, &serving, empty_disk(alloc), OpenGate)?;
    same(&rt, &came.status, &Status::Done, "the status");
    same(&rt, &came.ends.len(), &40, "sessions with a link");
    let (_, verdict) = answer(&rt, alloc, &["replay"], &came.report)?;
    same_bytes(&rt, &verdict, b"valid 240\n", "the report");
    Ok(())
}

// That of two sessions the second one asks so much, where the first one has asked 100,000 times, and ends so, and so does
// the program.
fn expect_full<R: Threads + Wait + Sync + Abort>(
    rt: &R,
    alloc: Global,
    asked: usize,
    status: Status,
    end: WorkEnd,
) -> Result<(), Fail> {
    let first = copies(alloc, "accepting\n", 100_000)?;
    let second = copies(alloc, "accepting\n", asked)?;
    let serving = Serving {
        file: NO_SESSION,
        words: &["serve", "--sessions", "2", "--workers", "1"],
        links: &[
            Asking {
                step: 4096,
                ..whole(first.as_bytes())
            },
            Asking {
                step: 4096,
                ..whole(second.as_bytes())
            },
        ],
        failing: &[],
    };
    let came = served(rt, alloc, &serving, empty_disk(alloc), OpenGate)?;
    same(rt, &came.status, &status, "the status");
    let told = came.ends.get(1).ok_or("an end")?;
    same(rt, &told.end, &end, "the end of the second session");
    let is_told = told.taken.ends_with(b"full 200000\n");
    let is_full = end.cause != WorkCause::Ended;
    same(rt, &is_told, &is_full, "what the second session is told");
    let last = format!(in alloc; "\nend {}\n", 100_000 + u64::from(end.calls))?;
    let is_last = came.report.ends_with(last.as_bytes());
    same(rt, &is_last, &true, "the last line");
    Ok(())
}

#[test]
fn a_full_history_is_told_though_no_further_call_came(rt: HostRuntime) -> Result<(), Fail> {
    let halted = WorkCause::Halted(Halt::Full { capacity: 200_000 });
    // How much is asked by the second session, how the program ends, and how that session.
    let rows = [
        (99_999, Status::Done, 99_999, WorkCause::Ended),
        (100_000, Status::Full, 100_000, WorkCause::Ended),
        (100_001, Status::Full, 100_000, halted),
    ];
    for (asked, status, calls, cause) in rows {
        expect_full(&rt, rt.alloc(), asked, status, WorkEnd { calls, cause })?;
    }
    Ok(())
}
