// Worked rows of the stand-ins: that each call can succeed, and what it answers at known values.
ghost use Rattle.std.specs.Prelude.{IfOk};
ghost use Rattle.dcr_fakes.specs.LinkState.{IsFresh};

use crate::same::{same, same_bytes};
use dcr_base::{Door, Failed, Link, Sink, Source, WriteFault, write_all};
use dcr_fakes::{MemDoor, MemLink, MemSink, MemSource};
use std::alloc::{AllocError, Global};
use std::process::Abort;
use std::test::Fail;

// The step, the room of the buffer, which read fails, and what the reads give: `!` for a failure.
type Pieces = (usize, usize, u32, [&'static str; 4]);

static PIECES: [Pieces; 8] = [
    (1, 4, 0, ["a", "b", "c", "d"]),
    (3, 4, 0, ["abc", "def", "ghi", "j"]),
    (3, 2, 0, ["ab", "cd", "ef", "gh"]),
    (4, 0, 0, ["", "", "", ""]),
    (7, 9, 0, ["abcdefg", "hij", "", ""]),
    (100, 4, 0, ["abcd", "efgh", "ij", ""]),
    (100, 10, 0, ["abcdefghij", "", "", ""]),
    (3, 4, 2, ["abc", "!", "def", "ghi"]),
];

// A source of ten letters, which gives so many a read, one at least, and fails at the read of this number.
fn letters(alloc: Global, step: usize, failing: u32) -> Result<MemSource, AllocError> {
    let bytes = Vec::from_slice(alloc, b"abcdefghij".as_slice())?;
    let failing = Vec::from_slice(alloc, [failing].as_slice())?;
    Ok(MemSource::new(bytes, step.max(1), failing))
}

// That a read into so much room, ten bytes at most, gives this piece, and leaves what is behind it as it was.
fn assert_read(rt: &impl Abort, source: &mut MemSource, room: usize, piece: &str) {
    let (told, front) = if piece == "!" {
        (Err(Failed), "")
    } else {
        (Ok(piece.len()), piece)
    };
    let mut buf = [b'-'; 10];
    same(rt, &source.read(&mut buf[..room.min(10)]), &told, piece);
    let (given, behind) = buf.split_at(front.len().min(10));
    same_bytes(rt, given, front.as_bytes(), piece);
    let is_left = b"----------".ends_with(behind);
    same(rt, &is_left, &true, piece);
}

#[test]
fn a_source_gives_its_bytes_in_pieces(rt: HostRuntime) -> Result<(), Fail> {
    for (step, room, failing, pieces) in &PIECES {
        let mut source = letters(rt.alloc(), *step, *failing)?;
        for piece in pieces {
            assert_read(&rt, &mut source, *room, piece);
        }
    }
    Ok(())
}

// How much room there is, and what comes of writing the letters.
static ROOMS: [(usize, Result<(), WriteFault>); 3] = [
    (26, Ok(())),
    (20, Err(WriteFault { written: 20 })),
    (0, Err(WriteFault { written: 0 })),
];

// That a sink with so much room takes the front of the letters.
fn assert_room(rt: &impl Abort, alloc: Global, room: usize, told: &Result<(), WriteFault>) {
    let text = b"abcdefghijklmnopqrstuvwxyz";
    let mut sink = MemSink::new(alloc, room);
    same(rt, &write_all(&mut sink, text), told, "a room");
    same(rt, &sink.write(b""), &Ok(0), "a write of nothing");
    same(rt, &Some(sink.taken()), &text.get(..room), "a room");
}

// What is written to a sink with room for five bytes whose second write fails, and what comes of it.
static WRITES: [(&[u8], Result<usize, Failed>); 4] = [
    (b"abc", Ok(3)),
    (b"def", Err(Failed)),
    (b"ghi", Ok(2)),
    (b"jkl", Err(Failed)),
];

#[test]
fn a_sink_takes_the_front_and_fails(rt: HostRuntime) -> Result<(), Fail> {
    for (room, told) in &ROOMS {
        assert_room(&rt, rt.alloc(), *room, told);
    }
    let failing = Vec::from_slice(rt.alloc(), [2, 9].as_slice())?;
    let mut sink = MemSink::failing(rt.alloc(), 5, failing);
    for (text, told) in &WRITES {
        same(&rt, &sink.write(text), told, "a write");
    }
    same_bytes(&rt, sink.taken(), b"abcgh", "what was taken");
    Ok(())
}

// A link that asks this, three bytes a read, and takes a hundred bytes.
fn asking(alloc: Global, text: &[u8]) -> Result<MemLink, Fail>
    ensures { IfOk result (λ link. IsFresh link) }
{
    let source = MemSource::new(Vec::from_slice(alloc, text)?, 3, Vec::new(alloc));
    Ok(MemLink::new(source, MemSink::new(alloc, 100)))
}

#[test]
fn a_door_gives_two_links_and_is_shut(rt: HostRuntime) -> Result<(), Fail> {
    let mut links = Vec::new(rt.alloc());
    links.push(asking(rt.alloc(), b"look")?)?;
    links.push(asking(rt.alloc(), b"two")?)?;
    let mut door = MemDoor::new(links, Vec::from_slice(rt.alloc(), [2].as_slice())?);
    let mut buf = [b'-'; 8];
    let Ok(Some(mut link)) = door.next() else {
        return Err(Fail::from("the first link is missing"));
    };
    same(&rt, &link.read(&mut buf), &Ok(3), "a link is read");
    same_bytes(&rt, buf.as_slice(), b"loo-----", "a link is read");
    same(&rt, &link.write(b"yes\n"), &Ok(4), "a link is answered");
    let mut rest = link.finish();
    same_bytes(&rt, rest.taken(), b"yes\n", "what a link took");
    same(&rt, &rest.read(&mut buf), &Ok(1), "the rest of a link");
    same_bytes(&rt, buf.as_slice(), b"koo-----", "the rest of a link");
    assert!(rt; matches!(door.next(), Err(Failed)));
    match door.next() {
        Ok(Some(mut link)) => same(&rt, &link.read(&mut buf), &Ok(3), "the second link"),
        _ => assert!(rt; false, "the second link is missing"),
    }
    same_bytes(&rt, buf.as_slice(), b"two-----", "the second link");
    assert!(rt; matches!(door.next(), Ok(None)) && matches!(door.next(), Ok(None)));
    Ok(())
}
