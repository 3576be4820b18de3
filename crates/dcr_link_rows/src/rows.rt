// The rows: links that somebody asks over, and what comes of them.
use crate::links::{Asking, whole};
use crate::same::same;
use crate::serving::{Serving, served};
use dcr_cluster::Halt;
use dcr_cluster_rows::{GUARDED, HOSPITAL, NO_SESSION};
use dcr_link::{WorkCause, WorkEnd};
use std::alloc::Global;
use std::process::Abort;
use std::sync::Wait;
use std::test::Fail;
use std::thread::Threads;

// How a session ended: how many calls it made, why it ended, and what its link has taken; none where the order of the
// calls is open.
type End<'a> = (u32, WorkCause, Option<&'a str>);

// That the sessions end so, in order, each with its number, that the others make no call, that so many links are left, and
// whether the door has failed.
fn expect<R: Threads + Wait + Abort + Sync>(
    rt: &R,
    alloc: Global,
    serving: &Serving<'_>,
    ends: &[End<'_>],
    left: usize,
    door_failed: bool,
) -> Result<(), Fail> {
    let came = served(rt, alloc, serving)?;
    same(rt, &came.ends.len(), &ends.len(), "sessions with a link");
    for (session, (told, (calls, cause, taken))) in (0u32..).zip(came.ends.iter().zip(ends)) {
        let end = WorkEnd {
            calls: *calls,
            cause: *cause,
        };
        same(rt, &told.session, &session, "the number of a session");
        same(rt, &told.end, &end, "the end of a session");
        if let Some(text) = taken {
            same(rt, &told.taken.as_slice(), &text.as_bytes(), text);
        }
    }
    same(rt, &came.made.len(), &(serving.sessions as usize), "passes");
    for (session, made) in came.made.iter().enumerate() {
        let calls = ends.get(session).map_or(0, |end| end.0);
        same(rt, made, &calls, "the calls of a pass");
    }
    same(rt, &came.left, &left, "links that are left");
    same(rt, &came.door_failed, &door_failed, "a door that fails");
    Ok(())
}

// What a nurse or a doctor asks first, a word that is no call, and a rest without a line end.
const ROW: &[u8] = b"look doctor\nexec doctor pm\r\nfoo\naccepting";

const ROW_REPLIES: &str = "0 0 0 look doctor executed - pending - included pm,s
1 0 1 exec doctor pm done
bad-line
";

// What the doctor asks of the case in which events ask for roles.
const ASKED: &[u8] = b"exec nurse gm\nexec doctor pm\nlook nurse\n";

const DENIED: &str = "denied nur
0 0 0 exec doctor pm done
1 0 1 look nurse executed - pending gm included s,gm,dt
";

// What comes over a link in pieces of so many bytes.
fn in_pieces(bytes: &[u8], step: usize) -> Asking<'_> {
    Asking {
        step,
        ..whole(bytes)
    }
}

// Over a link that takes so many bytes.
fn with_room(bytes: &[u8], room: usize) -> Asking<'_> {
    Asking {
        room,
        ..whole(bytes)
    }
}

const ENDED: WorkCause = WorkCause::Ended;

const LONG: WorkCause = WorkCause::LongLine;

const FAULT: WorkCause = WorkCause::LinkFault;

const BAD: &str = "bad-line\n";

#[test]
fn one_session_is_answered_line_by_line(rt: HostRuntime) -> Result<(), Fail> {
    let full = WorkCause::Halted(Halt::Full { capacity: 2 });
    // The case, for how many entries there is room, what is asked, how many calls are made, why the session ends, and what
    // is answered.
    let rows: [(&str, u32, Asking<'_>, u32, WorkCause, &str); 29] = [
        // However the bytes come.
        (HOSPITAL, 100, in_pieces(ROW, 1), 2, ENDED, ROW_REPLIES),
        (HOSPITAL, 100, in_pieces(ROW, 2), 2, ENDED, ROW_REPLIES),
        (HOSPITAL, 100, in_pieces(ROW, 5), 2, ENDED, ROW_REPLIES),
        (HOSPITAL, 100, in_pieces(ROW, 13), 2, ENDED, ROW_REPLIES),
        (HOSPITAL, 100, in_pieces(ROW, 4096), 2, ENDED, ROW_REPLIES),
        // Lines that are no calls.
        (HOSPITAL, 100, whole(b"\n"), 0, ENDED, BAD),
        (HOSPITAL, 100, whole(b"\r\n"), 0, ENDED, BAD),
        (HOSPITAL, 100, whole(b"exec doctor\n"), 0, ENDED, BAD),
        (HOSPITAL, 100, whole(b"exec nobody pm\n"), 0, ENDED, BAD),
        (HOSPITAL, 100, whole(b"look  doctor\n"), 0, ENDED, BAD),
        (HOSPITAL, 100, whole(b"accepting \n"), 0, ENDED, BAD),
        (HOSPITAL, 100, whole(b"accepting\r\r\n"), 0, ENDED, BAD),
        (HOSPITAL, 100, whole(b"\xff\xfe\n"), 0, ENDED, BAD),
        (HOSPITAL, 100, whole(b""), 0, ENDED, ""),
        // A line has 200 bytes at most, without its end.
        (
            HOSPITAL,
            100,
            whole(
                b"aaaaaaaaaaaaaaaaaaaaaaaaaaaaaaaaaaaaaaaaaaaaaaaaaaaaaaaaaaaaaaaaaaaaaaaaaaaaaaaaaaaaaaaaaaaaaaaaaaaaaaaaaaaaaaaaaaaaaaaaaaaaaaaaaaaaaaaaaaaaaaaaaaaaaaaaaaaaaaaaaaaaaaaaaaaaaaaaaaaaaaaaaaaaaaaaaaaaaaaa\n",
            ),
            0,
            ENDED,
            BAD,
        ),
        (
            HOSPITAL,
            100,
            whole(
                b"aaaaaaaaaaaaaaaaaaaaaaaaaaaaaaaaaaaaaaaaaaaaaaaaaaaaaaaaaaaaaaaaaaaaaaaaaaaaaaaaaaaaaaaaaaaaaaaaaaaaaaaaaaaaaaaaaaaaaaaaaaaaaaaaaaaaaaaaaaaaaaaaaaaaaaaaaaaaaaaaaaaaaaaaaaaaaaaaaaaaaaaaaaaaaaaaaaaaaaa\r\n",
            ),
            0,
            ENDED,
            BAD,
        ),
        (
            HOSPITAL,
            100,
            whole(
                b"aaaaaaaaaaaaaaaaaaaaaaaaaaaaaaaaaaaaaaaaaaaaaaaaaaaaaaaaaaaaaaaaaaaaaaaaaaaaaaaaaaaaaaaaaaaaaaaaaaaaaaaaaaaaaaaaaaaaaaaaaaaaaaaaaaaaaaaaaaaaaaaaaaaaaaaaaaaaaaaaaaaaaaaaaaaaaaaaaaaaaaaaaaaaaaaaaaaaaaaa\r\n",
            ),
            0,
            LONG,
            "long-line\n",
        ),
        (HOSPITAL, 100, whole(&[b'a'; 201]), 0, LONG, "long-line\n"),
        (HOSPITAL, 100, whole(&[b'a'; 200]), 0, ENDED, ""),
        (
            NO_SESSION,
            100,
            whole(
                b"accepting\naaaaaaaaaaaaaaaaaaaaaaaaaaaaaaaaaaaaaaaaaaaaaaaaaaaaaaaaaaaaaaaaaaaaaaaaaaaaaaaaaaaaaaaaaaaaaaaaaaaaaaaaaaaaaaaaaaaaaaaaaaaaaaaaaaaaaaaaaaaaaaaaaaaaaaaaaaaaaaaaaaaaaaaaaaaaaaaaaaaaaaaaaaaaaaaaaaaaaaaaa",
            ),
            1,
            LONG,
            "0 0 0 accepting yes\nlong-line\n",
        ),
        // A history that is full.
        (
            HOSPITAL,
            2,
            whole(b"exec doctor pm\nfoo\nlook nurse\naccepting\nlook nurse\n"),
            2,
            full,
            "0 0 0 exec doctor pm done
bad-line
1 0 1 look nurse executed - pending gm included s,gm,dt
full 2
",
        ),
        // Calls that are denied: no entry is made, whatever the marks, the site and the room say.
        (GUARDED, 100, whole(ASKED), 2, ENDED, DENIED),
        (
            GUARDED,
            100,
            whole(b"exec doctor gm\nexec nurse pm\nlook doctor\naccepting\n"),
            3,
            ENDED,
            "denied nur
0 0 0 exec nurse pm not-here
1 0 1 look doctor executed - pending - included pm,s
2 0 2 accepting yes
",
        ),
        (
            GUARDED,
            1,
            whole(b"exec doctor pm\nexec nurse gm\nexec doctor s\n"),
            1,
            WorkCause::Halted(Halt::Full { capacity: 1 }),
            "0 0 0 exec doctor pm done\ndenied nur\nfull 1\n",
        ),
        (
            GUARDED,
            0,
            whole(b"exec nurse gm\nexec nurse gm\n"),
            0,
            ENDED,
            "denied nur\ndenied nur\n",
        ),
        (GUARDED, 100, with_room(ASKED, 4), 0, FAULT, "deni"),
        // A link that takes no more, one that gives no more, and one that cuts off the last words.
        (
            HOSPITAL,
            100,
            with_room(b"look doctor\nexec doctor pm\n", 20),
            1,
            FAULT,
            "0 0 0 look doctor ex",
        ),
        (
            HOSPITAL,
            100,
            Asking {
                failing: &[2],
                ..in_pieces(b"look doctor\nexec doctor pm\n", 12)
            },
            1,
            FAULT,
            "0 0 0 look doctor executed - pending - included pm,s\n",
        ),
        (HOSPITAL, 100, with_room(&[b'a'; 201], 4), 0, LONG, "long"),
    ];
    for (text, capacity, asking, calls, cause, taken) in rows {
        let serving = Serving {
            text,
            capacity,
            sessions: 1,
            workers: 1,
            links: &[asking],
            failing: &[],
        };
        let end = (calls, cause, Some(taken));
        expect(&rt, rt.alloc(), &serving, &[end], 0, false)?;
    }
    Ok(())
}

// That these lines are answered by these, and then the session ends for this cause.
fn expect_many<R: Threads + Wait + Abort + Sync>(
    rt: &R,
    alloc: Global,
    asked: &str,
    replies: &str,
    cause: WorkCause,
) -> Result<(), Fail> {
    let serving = Serving {
        text: HOSPITAL,
        capacity: 100,
        sessions: 1,
        workers: 1,
        links: &[in_pieces(asked.as_bytes(), 4096)],
        failing: &[],
    };
    expect(rt, alloc, &serving, &[(0, cause, Some(replies))], 0, false)
}

#[test]
fn two_hundred_thousand_lines_are_answered(rt: HostRuntime) -> Result<(), Fail> {
    let alloc = rt.alloc();
    for line in ["x\n", "\n"] {
        let mut asked = line.repeat(alloc, 200_000)?;
        let mut replies = BAD.repeat(alloc, 200_000)?;
        expect_many(&rt, alloc, &asked, &replies, ENDED)?;
        asked.push_str("x")?;
        replies.push_str("many-lines\n")?;
        expect_many(&rt, alloc, &asked, &replies, WorkCause::ManyLines)?;
    }
    Ok(())
}

// So many sessions of the one site, by one worker.
fn at_one_site<'a>(sessions: u32, links: &'a [Asking<'a>], failing: &'a [u32]) -> Serving<'a> {
    Serving {
        text: NO_SESSION,
        capacity: 20_000,
        sessions,
        workers: 1,
        links,
        failing,
    }
}

#[test]
fn a_session_without_a_user_has_no_role(rt: HostRuntime) -> Result<(), Fail> {
    let two = [
        whole(b"exec doctor pm\n"),
        whole(b"exec doctor pm\nexec nurse dt\n"),
    ];
    let serving = Serving {
        text: GUARDED,
        ..at_one_site(2, &two, &[])
    };
    let ends = [
        (1, ENDED, Some("0 0 0 exec doctor pm done\n")),
        (
            1,
            ENDED,
            Some("denied doc\n1 1 0 exec nurse dt condition s\n"),
        ),
    ];
    expect(&rt, rt.alloc(), &serving, &ends, 0, false)
}

#[test]
fn each_session_has_the_link_of_its_number(rt: HostRuntime) -> Result<(), Fail> {
    let three = [
        whole(b"exec doctor pm\n"),
        whole(b"exec doctor s\nexec nurse gm\n"),
        whole(b"accepting\nfoo\n"),
    ];
    let serving = Serving {
        text: HOSPITAL,
        ..at_one_site(3, &three, &[])
    };
    let ends = [
        (1, ENDED, Some("0 0 0 exec doctor pm done\n")),
        (
            2,
            ENDED,
            Some("1 1 0 exec doctor s done\n2 1 1 exec nurse gm done\n"),
        ),
        (1, ENDED, Some("3 2 0 accepting yes\nbad-line\n")),
    ];
    expect(&rt, rt.alloc(), &serving, &ends, 0, false)
}

#[test]
fn bad_links_end_alone_and_a_door_shuts_fails_or_has_links_left(
    rt: HostRuntime,
) -> Result<(), Fail> {
    // A link that fails, one whose line is too long and one that says nothing, and those behind them.
    let mixed = [
        Asking {
            failing: &[1],
            ..whole(b"accepting\n")
        },
        whole(&[b'x'; 201]),
        whole(b""),
        with_room(b"accepting\naccepting\n", 20),
        whole(b"accepting\n"),
    ];
    let mixed_ends = [
        (0, FAULT, Some("")),
        (0, LONG, Some("long-line\n")),
        (0, ENDED, Some("")),
        (2, FAULT, None),
        (1, ENDED, None),
    ];
    // Links that ask one call each.
    let four = [whole(b"accepting\n"); 4];
    let ends = [(1, ENDED, None); 4];
    // What is served, how the sessions end, how many links are left, and whether the door has failed.
    let rows: [(Serving<'_>, &[End<'_>], usize, bool); 7] = [
        (at_one_site(5, &mixed, &[]), &mixed_ends, 0, false),
        (at_one_site(6, &four, &[]), &ends, 0, false),
        (at_one_site(4, &four, &[]), &ends, 0, false),
        (at_one_site(3, &four, &[]), &ends[..3], 1, false),
        (at_one_site(0, &four, &[]), &[], 4, false),
        (at_one_site(4, &four, &[1]), &[], 4, true),
        (at_one_site(6, &four, &[3]), &ends[..2], 2, true),
    ];
    for (serving, ends, left, door_failed) in rows {
        for workers in [1, 2, 3, 5] {
            let serving = Serving { workers, ..serving };
            expect(&rt, rt.alloc(), &serving, ends, left, door_failed)?;
        }
    }
    Ok(())
}

#[test]
fn eight_workers_serve_300_links(rt: HostRuntime) -> Result<(), Fail> {
    let asked =
        b"exec doctor pm\nexec doctor s\nexec nurse gm\nlook nurse\nenabled doctor\nexec nurse dt\n";
    let links = [whole(asked); 300];
    let serving = Serving {
        text: HOSPITAL,
        workers: 8,
        ..at_one_site(300, &links, &[])
    };
    expect(
        &rt,
        rt.alloc(),
        &serving,
        &[(6, ENDED, None); 300],
        0,
        false,
    )
}
