// One fault at each place: of the source, and of the sink.
use crate::apart::apart_report;
use crate::same::{same, same_bytes};
use crate::stages::stages;
use crate::whole::{called, hospital};
use dcr_app::Status;
use dcr_base::OpenGate;
use dcr_fakes::{MemSink, MemSource};
use std::alloc::Global;
use std::sync::Wait;
use std::test::Fail;
use std::thread::Threads;

// What the program is called with, and what it writes where nothing fails.
#[derive(Clone, Copy)]
struct Row {
    name: &'static str,
    words: &'static [&'static str],
    input: &'static str,
    // The number of the first read that is not made any more.
    spared: u32,
    whole: &'static str,
}

// How the program ends on a row, and what it writes: the source gives 100 bytes at a time and fails at the read of this
// number, and the sink has room for so many bytes.
fn ended<R: Threads + Wait + Sync>(
    rt: &R,
    alloc: Global,
    row: &Row,
    failing: u32,
    room: usize,
) -> Result<(Status, Vec<u8>), Fail> {
    let bytes = Vec::from_slice(alloc, row.input.as_bytes())?;
    let failing = Vec::from_slice(alloc, &[failing])?;
    let mut input = MemSource::new(bytes, 100, failing);
    let mut output = MemSink::new(alloc, room);
    let (status, _) = called(rt, alloc, row.words, &mut input, &mut output, OpenGate)?;
    Ok((status, Vec::from_slice(alloc, output.taken())?))
}

// The case of the doctor and the nurse, and a log behind it.
static LOG: &str =
    r#"{"graph":{"events":[{"name":"pm"},{"name":"s"},{"name":"gm"},{"name":"dt"}],"relations":[["condition","pm","s"],["condition","s","gm"],["condition","s","dt"],["response","pm","s"],["response","pm","gm"],["response","dt","s"],["exclude","dt","gm"],["include","s","gm"]]},"cover":[{"site":"doctor","events":["pm","s"]},{"site":"nurse","events":["gm","dt"]}],"sessions":[["exec doctor pm","exec nurse gm","exec doctor s","exec nurse dt","accepting","exec nurse gm","exec doctor s","exec nurse gm","accepting"]]}
case,event
c1,pm
c2,pm
c1,s
c3,pm
c1,dt
c2,gm
c1,s
c4,pm
c1,gm
c4,xx
"#;

// The file has 508 bytes: six reads, and one that tells the end. Its report has 814.
fn rows() -> [Row; 5] {
    [
        Row {
            name: "run",
            words: &["run"],
            input: hospital().file,
            spared: 8,
            whole: hospital().report,
        },
        Row {
            name: "nodes",
            words: &["nodes", "5"],
            input: hospital().file,
            spared: 8,
            whole: apart_report(),
        },
        Row {
            name: "replay",
            words: &["replay"],
            input: hospital().report,
            spared: 11,
            whole: "valid 9\n",
        },
        Row {
            name: "adapt",
            words: &["adapt"],
            input: stages().file,
            spared: 11,
            whole: stages().report,
        },
        Row {
            name: "conform",
            words: &["conform"],
            input: LOG,
            spared: 8,
            whole: "c1 accepting 5\nc2 refused 1 condition s\nc3 waits s 1\nc4 unknown 1\ntraces 4\n",
        },
    ]
}

#[test]
fn each_read_that_fails_is_told(rt: HostRuntime) -> Result<(), Fail> {
    for row in rows() {
        for place in 1..row.spared {
            let (status, written) = ended(&rt, rt.alloc(), &row, place, 4096)?;
            same(&rt, &status, &Status::ReadFault, row.name);
            same_bytes(&rt, &written, b"", row.name);
        }
        let (status, written) = ended(&rt, rt.alloc(), &row, row.spared, 4096)?;
        same(&rt, &status, &Status::Done, row.name);
        same_bytes(&rt, &written, row.whole.as_bytes(), row.name);
    }
    Ok(())
}

#[test]
fn each_write_that_fails_is_told(rt: HostRuntime) -> Result<(), Fail> {
    for row in rows() {
        let whole = row.whole.as_bytes();
        for room in 0..whole.len() {
            let (status, written) = ended(&rt, rt.alloc(), &row, 0, room)?;
            same(&rt, &status, &Status::WriteFault, row.name);
            same_bytes(&rt, &written, &whole[..room], row.name);
        }
        let (status, written) = ended(&rt, rt.alloc(), &row, 0, whole.len())?;
        same(&rt, &status, &Status::Done, row.name);
        same_bytes(&rt, &written, whole, row.name);
    }
    Ok(())
}
