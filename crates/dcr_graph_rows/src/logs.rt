// Event logs: the lines of their traces over the graph of the hospital, or the first record that is bad.
ghost use Rattle.std.specs.Prelude.{◌≡◌, length};

use crate::build::{HOSPITAL, graph_of, opening};
use crate::same::{same, same_bytes};
use dcr_conform::{Judged, LogStop, judge, judge_all, read_log, write_judged};
use dcr_fakes::MemSink;
use dcr_graph::Graph;
use std::alloc::Global;
use std::test::Fail;
use std::thread::Threads;

const LOG: &str =
    "case,event\nc1,pm\nc2,pm\nc1,s\nc3,pm\nc1,dt\nc2,gm\nc1,s\nc4,pm\nc1,gm\nc4,xx\n";

// The lines of the log's traces.
fn lines_of<R: Threads + Sync>(
    rt: &R,
    alloc: Global,
    graph: &Graph,
    log: &[u8],
) -> Result<Vec<u8>, Fail>
    requires { length graph.now.names ≡ 4 }
{
    if log.len() > 1_000_000 {
        return Ok(Vec::new(alloc));
    }
    let traces = read_log(alloc, log)?;
    let judged = judge_all(rt, alloc, graph, &opening(), &traces)?;
    let mut sink = MemSink::new(alloc, 1_000_000);
    write_judged(alloc, graph, &traces, &judged, &mut sink)?;
    Ok(sink.taken().to_vec(alloc)?)
}

// The answers for the log's traces, at once and one by one.
fn answers_of<R: Threads + Sync>(
    rt: &R,
    alloc: Global,
    graph: &Graph,
    log: &[u8],
) -> Result<(Vec<Judged>, Vec<Judged>), Fail>
    requires { length graph.now.names ≡ 4 }
{
    let mut answers = Vec::new(alloc);
    if log.len() > 1_000_000 {
        return Ok((Vec::new(alloc), answers));
    }
    let traces = read_log(alloc, log)?;
    for i in 0..traces.len() {
        answers.push(judge(alloc, graph, &opening(), &traces[i])?)?;
    }
    Ok((judge_all(rt, alloc, graph, &opening(), &traces)?, answers))
}

// The number of the log's first bad record.
fn bad_row(alloc: Global, log: &[u8]) -> Result<Option<u32>, Fail> {
    if log.len() > 1_000_000 {
        return Ok(None);
    }
    match read_log(alloc, log) {
        Err(LogStop::Bad { row }) => Ok(Some(row)),
        Err(stop) => Err(stop)?,
        Ok(_) => Ok(None),
    }
}

#[test]
fn logs_and_their_lines(rt: HostRuntime) -> Result<(), Fail> {
    let graph = graph_of(rt.alloc(), &HOSPITAL)?;
    let long = "c".repeat(rt.alloc(), 64)?;
    let long_log = format!(in rt.alloc(); "case,event\n{long},s\n")?;
    let long_line = format!(in rt.alloc(); "{long} refused 0 condition pm\ntraces 1\n")?;
    for (log, lines, row) in [
        (
            LOG.as_bytes(),
            "c1 accepting 5\nc2 refused 1 condition s\nc3 waits s 1\nc4 unknown 1\ntraces 4\n",
            "one event after the other",
        ),
        (b"case,event", "traces 0\n", "a header alone"),
        (
            b"case,event\n1.A-b_,pm\n",
            "1.A-b_ waits s 1\ntraces 1\n",
            "a name that begins with a digit",
        ),
        (
            long_log.as_bytes(),
            long_line.as_str(),
            "a name of 64 bytes",
        ),
        (
            b"case,event\nc1,\nc2, pm\n",
            "c1 unknown 0\nc2 unknown 0\ntraces 2\n",
            "no text, and a text with a space",
        ),
        (
            b"\xef\xbb\xbfcase,event\r\n\r\nc1,pm\r\n\r\n",
            "c1 waits s 1\ntraces 1\n",
            "a mark at the start, and empty lines",
        ),
        (
            b"case,event\rc1,pm\r",
            "c1 waits s 1\ntraces 1\n",
            "carriage returns",
        ),
        (
            b"\"case\",event,a\nc1,\"pm\",\"x\ny\"\nc2,pm,\xff\nc1,s,\"",
            "c1 waits gm 2\nc2 waits s 1\ntraces 2\n",
            "quotes, and further fields",
        ),
    ] {
        let told = lines_of(&rt, rt.alloc(), &graph, log)?;
        same_bytes(&rt, &told, lines.as_bytes(), row);
    }
    Ok(())
}

#[test]
fn logs_that_are_bad(rt: HostRuntime) -> Result<(), Fail> {
    let long = "c".repeat(rt.alloc(), 65)?;
    let long_log = format!(in rt.alloc(); "case,event\n{long},s\n")?;
    for (log, bad, row) in [
        (long_log.as_bytes(), 1, "a name of 65 bytes"),
        (b"", 0, "no record"),
        (b"\n\r\n", 0, "empty lines alone"),
        (b"case", 0, "a header of one field"),
        (b"Case,event", 0, "another word in the header"),
        (b"case, event", 0, "a space in the header"),
        (b"case;event", 0, "no comma in the header"),
        (b"case,event\nc1", 1, "a field too few"),
        (b"case,event\nc1,pm,x", 1, "a field too many"),
        (b"case,event\n,pm", 1, "no name"),
        (b"case,event\nc 1,pm", 1, "a space in a name"),
        (b"case,event\nc1,pm\nc1,\xff", 2, "a text of other bytes"),
        (
            b"case,event,a\nc1,pm,\"x\ny\"\nc1",
            2,
            "a record over two lines counts once",
        ),
    ] {
        same(&rt, &bad_row(rt.alloc(), log)?, &Some(bad), row);
    }
    Ok(())
}

// A log in which each of so many traces has the events pm, s and dt, each event of all before the next.
fn log_of(alloc: Global, count: u32) -> Result<Vec<u8>, Fail> {
    let mut log = b"case,event\n".to_vec(alloc)?;
    for event in ["pm", "s", "dt"] {
        for i in 0..count {
            let line = format!(in alloc; "c{i},{event}\n")?;
            log.extend_from_slice(line.as_bytes())?;
        }
    }
    Ok(log)
}

// The lines of these traces.
fn lines_wanted(alloc: Global, count: u32) -> Result<Vec<u8>, Fail> {
    let mut lines = Vec::new(alloc);
    for i in 0..count {
        let line = format!(in alloc; "c{i} waits s 3\n")?;
        lines.extend_from_slice(line.as_bytes())?;
    }
    let line = format!(in alloc; "traces {count}\n")?;
    lines.extend_from_slice(line.as_bytes())?;
    Ok(lines)
}

#[test]
fn three_thousand_traces(rt: HostRuntime) -> Result<(), Fail> {
    let graph = graph_of(rt.alloc(), &HOSPITAL)?;
    let log = log_of(rt.alloc(), 3000)?;
    let told = lines_of(&rt, rt.alloc(), &graph, &log)?;
    same_bytes(&rt, &told, &lines_wanted(rt.alloc(), 3000)?, "3,000 traces");
    let (at_once, one_by_one) = answers_of(&rt, rt.alloc(), &graph, LOG.as_bytes())?;
    same(&rt, &at_once, &one_by_one, "as one by one");
    Ok(())
}
