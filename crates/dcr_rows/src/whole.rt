// A whole case and its whole report, and how the program is called on it.
use crate::apart::apart_report;
use crate::same::{same, same_bytes};
use dcr_app::{End, Status, dcr};
use dcr_base::{Gate, OpenGate, Sink, Source, StdSink, StdSource};
use dcr_fakes::{MemDisk, MemDoor};
use std::alloc::{AllocError, Global};
use std::sync::Wait;
use std::test::Fail;
use std::thread::Threads;

// A case file and the report that it gives.
pub(crate) struct Whole {
    pub(crate) file: &'static str,
    pub(crate) report: &'static str,
}

static HOSPITAL: Whole = Whole {
    file: r#"{"graph":{"events":[{"name":"pm"},{"name":"s"},{"name":"gm"},{"name":"dt"}],"relations":[["condition","pm","s"],["condition","s","gm"],["condition","s","dt"],["response","pm","s"],["response","pm","gm"],["response","dt","s"],["exclude","dt","gm"],["include","s","gm"]]},"cover":[{"site":"doctor","events":["pm","s"]},{"site":"nurse","events":["gm","dt"]}],"sessions":[["exec doctor pm","exec nurse gm","exec doctor s","exec nurse dt","accepting","exec nurse gm","exec doctor s","exec nurse gm","accepting"]]}"#,
    report: r#"dcr 1
graph {"events":[{"label":"pm","name":"pm"},{"label":"s","name":"s"},{"label":"gm","name":"gm"},{"label":"dt","name":"dt"}],"relations":[["condition","pm","s"],["condition","s","gm"],["condition","s","dt"],["response","pm","s"],["response","pm","gm"],["response","dt","s"],["exclude","dt","gm"],["include","s","gm"]]}
cover [{"events":["pm","s"],"site":"doctor"},{"events":["gm","dt"],"site":"nurse"}]
open executed - pending - included pm,s,gm,dt
0 0 0 exec doctor pm done
1 0 1 exec nurse gm condition s
2 0 2 exec doctor s done
3 0 3 exec nurse dt done
4 0 4 accepting waits s
5 0 5 exec nurse gm excluded
6 0 6 exec doctor s done
7 0 7 exec nurse gm done
8 0 8 accepting yes
site doctor executed pm,s pending - included pm,s
site nurse executed s,gm,dt pending - included s,gm,dt
verdict accepting
end 9
"#,
};

// The doctor and the nurse.
pub(crate) fn hospital() -> &'static Whole {
    &HOSPITAL
}

// The words of a command line.
pub(crate) fn words_of(alloc: Global, words: &[&str]) -> Result<Vec<String>, AllocError> {
    let mut all = Vec::new(alloc);
    for word in words {
        all.push(String::from_str(alloc, *word)?)?;
    }
    Ok(all)
}

// A door without links.
pub(crate) fn no_door(alloc: Global) -> MemDoor {
    MemDoor::new(Vec::new(alloc), Vec::new(alloc))
}

// An empty disk, of which no call fails.
pub(crate) fn empty_disk(alloc: Global) -> MemDisk {
    MemDisk::new(alloc, Vec::new(alloc), Vec::new(alloc))
}

// How the program ends on these words and bytes, and what it writes. That it calls the disk is a failure.
pub(crate) fn answer<R: Threads + Wait + Sync>(
    rt: &R,
    alloc: Global,
    words: &[&str],
    bytes: &[u8],
) -> Result<(Status, Vec<u8>), Fail> {
    answer_at(rt, alloc, words, bytes, OpenGate)
}

// The same, where the calls pass this gate.
pub(crate) fn answer_at<G: Gate + Drop + Sync, R: Threads + Wait + Sync>(
    rt: &R,
    alloc: Global,
    words: &[&str],
    bytes: &[u8],
    gate: G,
) -> Result<(Status, Vec<u8>), Fail> {
    let mut input = StdSource::new(bytes);
    // With its room taken at first, the sink of a small report doesn't fail for want of memory.
    let mut output = StdSink::new(Vec::with_capacity(alloc, 4096)?);
    let (status, _) = called(rt, alloc, words, &mut input, &mut output, gate)?;
    Ok((status, output.into_inner()))
}

// How the program ends on these words over this source and this sink, and how many messages its nodes have sent, where it
// tells of nodes. That it calls the disk is a failure.
pub(crate) fn called<I: Source, O: Sink, G: Gate + Drop + Sync, R: Threads + Wait + Sync>(
    rt: &R,
    alloc: Global,
    words: &[&str],
    input: &mut I,
    output: &mut O,
    gate: G,
) -> Result<(Status, Option<u64>), Fail> {
    let words = words_of(alloc, words)?;
    let (door, disk) = (no_door(alloc), empty_disk(alloc));
    let end = dcr(rt, alloc, &words, input, output, door, disk, gate);
    told_by(&end)
}

// The same of this end.
fn told_by(end: &End<MemDoor, MemDisk>) -> Result<(Status, Option<u64>), Fail> {
    if !end.disk.calls().is_empty() {
        return Err(Fail::from("the disk was called"));
    }
    let sent = match &end.world {
        Some(world) => Some(world.sent()),
        None => None,
    };
    Ok((end.status, sent))
}

#[test]
fn want_of_memory_leaves_a_front_of_the_report(rt: HostRuntime) -> Result<(), Fail> {
    for (name, words, report) in [
        ("run", ["run"].as_slice(), HOSPITAL.report),
        ("nodes", &["nodes", "5"], apart_report()),
    ] {
        let (status, written) = answer(&rt, rt.alloc(), words, HOSPITAL.file.as_bytes())?;
        if status == Status::Done {
            same_bytes(&rt, &written, report.as_bytes(), name);
        } else {
            // Where an allocation was made to fail.
            same(&rt, &status, &Status::NoMemory, name);
            let is_front = report.as_bytes().starts_with(&written);
            same(&rt, &is_front, &true, name);
        }
    }
    Ok(())
}
