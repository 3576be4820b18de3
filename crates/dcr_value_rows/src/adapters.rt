// Worked rows: what the adapters make of each answer of a reader and a writer of std, and how often they ask for one.
use crate::same::{same, same_bytes};
use dcr_base::{Failed, Sink, Source, StdSink, StdSource, WriteFault, read_all, write_all};
use std::io;
use std::io::{Cursor, Error, ErrorKind, Read, Write};
use std::test::Fail;

// One answer of a reader or a writer: so many bytes, or an error of this kind.
#[derive(Clone, Copy)]
enum Answer {
    Moves(usize),
    Fails(ErrorKind),
}

use Answer::{Fails, Moves};

const INTERRUPTED: Answer = Fails(ErrorKind::Interrupted);

const BROKEN: Answer = Fails(ErrorKind::BrokenPipe);

// Gives these answers in order, and counts how often it was asked. From then on it moves one byte a call.
#[derive(Drop)]
struct Script<'a> {
    answers: &'a [Answer],
    asked: usize,
}

impl<'a> Script<'a> {
    fn of(answers: &'a [Answer]) -> Script<'a> {
        Script { answers, asked: 0 }
    }

    fn answer(&mut self) -> io::Result<usize> {
        let answer = self.answers.get(self.asked).copied();
        self.asked = self.asked.saturating_add(1);
        match answer {
            Some(Moves(count)) => Ok(count),
            Some(Fails(kind)) => Err(Error::from(kind)),
            None => Ok(1),
        }
    }
}

impl Read for Script<'_> {
    fn read(&mut self, buf: &mut [u8]) -> io::Result<usize> {
        let count = self.answer()?.min(buf.len());
        buf[..count].fill(b'x');
        Ok(count)
    }
}

impl Write for Script<'_> {
    fn write(&mut self, buf: &[u8]) -> io::Result<usize> {
        Ok(self.answer()?.min(buf.len()))
    }

    fn flush(&mut self) -> io::Result<()> {
        Ok(())
    }
}

// What a reader or a writer answers, what the adapter makes of it, and how often it asked.
struct Row<'a> {
    name: &'a str,
    answers: &'a [Answer],
    told: Result<usize, Failed>,
    asked: usize,
}

const ROWS: [Row<'static>; 13] = [
    Row {
        name: "two bytes",
        answers: &[Moves(2)],
        told: Ok(2),
        asked: 1,
    },
    Row {
        name: "a broken pipe",
        answers: &[BROKEN],
        told: Err(Failed),
        asked: 1,
    },
    Row {
        name: "no leave",
        answers: &[Fails(ErrorKind::PermissionDenied)],
        told: Err(Failed),
        asked: 1,
    },
    Row {
        name: "it would block",
        answers: &[Fails(ErrorKind::WouldBlock)],
        told: Err(Failed),
        asked: 1,
    },
    Row {
        name: "no time left",
        answers: &[Fails(ErrorKind::TimedOut)],
        told: Err(Failed),
        asked: 1,
    },
    Row {
        name: "no memory",
        answers: &[Fails(ErrorKind::OutOfMemory)],
        told: Err(Failed),
        asked: 1,
    },
    Row {
        name: "it ended in the middle",
        answers: &[Fails(ErrorKind::UnexpectedEof)],
        told: Err(Failed),
        asked: 1,
    },
    Row {
        name: "a full device",
        answers: &[Fails(ErrorKind::StorageFull)],
        told: Err(Failed),
        asked: 1,
    },
    Row {
        name: "another failure",
        answers: &[Fails(ErrorKind::Other)],
        told: Err(Failed),
        asked: 1,
    },
    Row {
        name: "one interruption, and bytes",
        answers: &[INTERRUPTED, Moves(2)],
        told: Ok(2),
        asked: 2,
    },
    Row {
        name: "five interruptions, and bytes",
        answers: &[
            INTERRUPTED,
            INTERRUPTED,
            INTERRUPTED,
            INTERRUPTED,
            INTERRUPTED,
            Moves(3),
        ],
        told: Ok(3),
        asked: 6,
    },
    Row {
        name: "an interruption, and it would block",
        answers: &[INTERRUPTED, Fails(ErrorKind::WouldBlock)],
        told: Err(Failed),
        asked: 2,
    },
    Row {
        name: "five interruptions, and a failure",
        answers: &[
            INTERRUPTED,
            INTERRUPTED,
            INTERRUPTED,
            INTERRUPTED,
            INTERRUPTED,
            BROKEN,
        ],
        told: Err(Failed),
        asked: 6,
    },
];

#[test]
fn a_call_asks_until_it_is_not_interrupted(rt: HostRuntime) {
    for row in &ROWS {
        let mut source = StdSource::new(Script::of(row.answers));
        same(&rt, &source.read(&mut [b'-'; 4]), &row.told, row.name);
        same(&rt, &source.into_inner().asked, &row.asked, row.name);
        let mut sink = StdSink::new(Script::of(row.answers));
        same(&rt, &sink.write(b"abcd"), &row.told, row.name);
        same(&rt, &sink.into_inner().asked, &row.asked, row.name);
    }
}

// What a reader answers, how much room each read has, what is told of it, and how often the reader was asked.
struct Reads<'a> {
    name: &'a str,
    answers: &'a [Answer],
    told: &'a [(usize, Result<usize, Failed>)],
    asked: usize,
}

const READS: [Reads<'static>; 4] = [
    // As a terminal does: it ends, and gives bytes again.
    Reads {
        name: "a reader that has ended is asked no more",
        answers: &[Moves(3), Moves(2), Moves(0), Moves(1), Moves(0)],
        told: &[(4, Ok(3)), (4, Ok(2)), (4, Ok(0)), (4, Ok(0)), (0, Ok(0))],
        asked: 3,
    },
    Reads {
        name: "a failure behind the end isn't seen",
        answers: &[Moves(0), BROKEN],
        told: &[(4, Ok(0)), (4, Ok(0))],
        asked: 1,
    },
    Reads {
        name: "a read into no room is not the end",
        answers: &[Moves(2), Moves(2), Moves(0)],
        told: &[(0, Ok(0)), (4, Ok(2)), (4, Ok(0))],
        asked: 3,
    },
    Reads {
        name: "an interruption in the middle is tried again, and a failure stays one",
        answers: &[Moves(1), INTERRUPTED, Moves(1), BROKEN, INTERRUPTED, BROKEN],
        told: &[(2, Ok(1)), (2, Ok(1)), (2, Err(Failed)), (2, Err(Failed))],
        asked: 6,
    },
];

#[test]
fn reads_one_after_the_other(rt: HostRuntime) {
    for row in &READS {
        let mut source = StdSource::new(Script::of(row.answers));
        for (room, told) in row.told {
            let mut buf = [b'-'; 4];
            assert!(rt; *room <= 4);
            same(&rt, &source.read(&mut buf[..*room]), told, row.name);
        }
        same(&rt, &source.into_inner().asked, &row.asked, row.name);
    }
}

// What a writer answers, what is written all, what is told of it, and how often the writer was asked.
type Writes = (
    &'static [Answer],
    &'static [u8],
    Result<(), WriteFault>,
    usize,
);

const WRITES: [Writes; 10] = [
    (&[], b"abcdef", Ok(()), 6),
    (&[Moves(4), Moves(4)], b"abcdef", Ok(()), 2),
    (
        &[Moves(4), Moves(1), Moves(0)],
        b"abcdef",
        Err(WriteFault { written: 5 }),
        3,
    ),
    (
        &[Moves(3), Moves(0)],
        b"abcdef",
        Err(WriteFault { written: 3 }),
        2,
    ),
    (&[Moves(0)], b"abcdef", Err(WriteFault { written: 0 }), 1),
    (&[Moves(0)], b"", Ok(()), 0),
    // Behind each failure this writer would go on.
    (
        &[Moves(2), Moves(0), Moves(4)],
        b"abcd",
        Err(WriteFault { written: 2 }),
        2,
    ),
    (
        &[
            Moves(1),
            INTERRUPTED,
            Moves(1),
            INTERRUPTED,
            Moves(1),
            BROKEN,
        ],
        b"abcde",
        Err(WriteFault { written: 3 }),
        6,
    ),
    (
        &[Moves(3), INTERRUPTED, Moves(2), BROKEN, Moves(0)],
        b"abcdefghij",
        Err(WriteFault { written: 5 }),
        4,
    ),
    (
        &[
            Moves(3),
            INTERRUPTED,
            Moves(2),
            Fails(ErrorKind::WouldBlock),
            Moves(0),
        ],
        b"abcdefghij",
        Err(WriteFault { written: 5 }),
        4,
    ),
];

#[test]
fn all_is_written_or_so_much(rt: HostRuntime) {
    for (answers, bytes, told, asked) in WRITES {
        let mut sink = StdSink::new(Script::of(answers));
        same(&rt, &write_all(&mut sink, bytes), &told, "write_all");
        same(&rt, &sink.into_inner().asked, &asked, "write_all asked");
    }
}

// Behind the failure this reader would go on.
#[test]
fn readers_and_writers_of_std_are_taken(rt: HostRuntime) -> Result<(), Fail> {
    for kind in [ErrorKind::BrokenPipe, ErrorKind::WouldBlock] {
        let answers = [Moves(3), INTERRUPTED, Moves(2), Fails(kind), Moves(0)];
        let mut source = StdSource::new(Script::of(&answers));
        assert!(rt; read_all(rt.alloc(), &mut source, 100).is_err());
        same(&rt, &source.into_inner().asked, &4, "read_all asked");
    }
    let mut source = StdSource::new(Cursor::new(b"some text".as_slice()));
    let read = read_all(rt.alloc(), &mut source, 9)?;
    same_bytes(&rt, read.as_slice(), b"some text", "a cursor");
    same(&rt, &source.into_inner().position(), &9, "a cursor");
    let mut sink = StdSink::new(Vec::new(rt.alloc()));
    assert!(rt; write_all(&mut sink, b"some ").is_ok() && write_all(&mut sink, b"text").is_ok());
    same_bytes(&rt, sink.into_inner().as_slice(), b"some text", "a vector");
    let mut room = [0; 4];
    let mut sink = StdSink::new(room.as_mut_slice());
    let told = write_all(&mut sink, b"abcdef");
    same(
        &rt,
        &told,
        &Err(WriteFault { written: 4 }),
        "a slice that is full",
    );
    assert!(rt; sink.write(b"") == Ok(0) && sink.write(b"g") == Err(Failed));
    same_bytes(&rt, room.as_slice(), b"abcd", "a slice that is full");
    Ok(())
}
