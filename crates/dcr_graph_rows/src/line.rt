// Lines of entries that no whole report has: numbers up to the largest, and lines that don't begin with one.
use crate::build::{cover_of, graph_of};
use crate::same::{same, same_bytes};
use dcr_graph::Graph;
use dcr_line::{Directory, read_entry, write_entry};
use dcr_proj::Cover;
use std::alloc::Global;
use std::test::Fail;

// The place, the session and the count that a line is read as, and the line that the entry is written as; empty where it
// is no entry.
fn rewritten(
    alloc: Global,
    graph: &Graph,
    cover: &Cover,
    line: &str,
) -> Result<([u32; 3], Vec<u8>), Fail> {
    let directory = Directory::new(alloc, graph, cover)?;
    let mut out = Vec::new(alloc);
    match read_entry(line.as_bytes(), &directory) {
        Some((place, entry)) => {
            write_entry(place, &entry, graph, cover, &mut out)?;
            Ok(([place, entry.session, entry.seq], out))
        }
        None => Ok(([0; 3], out)),
    }
}

#[test]
fn entries_and_their_lines(rt: HostRuntime) -> Result<(), Fail> {
    let graph = graph_of(rt.alloc(), &[])?;
    let cover = cover_of(rt.alloc())?;
    for (line, numbers) in [
        ("2 0 2 exec doctor s faulted", [2, 0, 2]),
        ("4 1 0 exec nurse dt milestone pm", [4, 1, 0]),
        ("10 7 2 enabled nurse can gm,dt", [10, 7, 2]),
        (
            "7 3 4 look nurse executed s,gm,dt pending gm included -",
            [7, 3, 4],
        ),
        (
            "199999 1023 12 exec doctor gm not-here",
            [199_999, 1023, 12],
        ),
        (
            "4294967295 4294967295 4294967295 accepting waits dt",
            [u32::MAX; 3],
        ),
    ] {
        let (found, written) = rewritten(rt.alloc(), &graph, &cover, line)?;
        same(&rt, &found, &numbers, line);
        same_bytes(&rt, written.as_slice(), line.as_bytes(), line);
    }
    for line in ["", "accepting yes", " 0 0 0 accepting yes"] {
        let (_, written) = rewritten(rt.alloc(), &graph, &cover, line)?;
        same_bytes(&rt, written.as_slice(), b"", line);
    }
    Ok(())
}
