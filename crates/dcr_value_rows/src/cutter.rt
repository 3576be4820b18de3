// Lines cut from bytes, however the bytes come.
use crate::same::{same, same_bytes};
use dcr_text::{Cut, LineCutter};
use std::alloc::{AllocError, Global};
use std::process::Abort;
use std::test::Fail;

// Two lines, the second with a carriage return, an empty one, and what has no line end.
const TEXT: &[u8] = b"look doctor\nexec doctor pm\r\n\nfoo";

// Gives pieces to a new cutter. Answers the lines that are cut off, a bar behind each, and what came of the last piece.
fn cut(alloc: Global, pieces: &[&[u8]]) -> Result<(Vec<u8>, Cut), Fail> {
    let mut cutter = LineCutter::new(alloc, 200)?;
    let mut lines = Vec::new(alloc);
    let last = cut_pieces(&mut cutter, pieces, &mut lines)?;
    Ok((lines, last))
}

// Adds the lines that these pieces end, and answers what came of the last piece.
fn cut_pieces(
    cutter: &mut LineCutter,
    pieces: &[&[u8]],
    lines: &mut Vec<u8>,
) -> Result<Cut, AllocError> {
    let mut last = Cut::More;
    for piece in pieces {
        last = cut_piece(cutter, piece, lines)?;
    }
    Ok(last)
}

// Adds the lines that this piece ends, and answers what came of what is behind them.
fn cut_piece(
    cutter: &mut LineCutter,
    piece: &[u8],
    lines: &mut Vec<u8>,
) -> Result<Cut, AllocError> {
    let mut left = piece;
    // Each byte ends one line at most.
    for _ in 0..piece.len() {
        let (used, cut) = cutter.take(left);
        match cut {
            Cut::Line => {}
            Cut::More | Cut::TooLong => return Ok(cut),
        }
        lines.extend_from_slice(cutter.line())?;
        lines.push(b'|')?;
        left = left.get(used..).unwrap_or(b"");
    }
    Ok(cutter.take(left).1)
}

// That these pieces have these lines, of which none is too long.
fn assert_lines(
    rt: &impl Abort,
    alloc: Global,
    pieces: &[&[u8]],
    lines: &[u8],
    row: &str,
) -> Result<(), Fail> {
    let (found, last) = cut(alloc, pieces)?;
    same_bytes(rt, found.as_slice(), lines, row);
    same(rt, &last, &Cut::More, row);
    Ok(())
}

// That a line of 199 bytes and these is read, however it comes, as so many bytes with what ends it.
fn assert_long(rt: &impl Abort, alloc: Global, behind: &[u8; 2], len: usize) -> Result<(), Fail> {
    let long = [b'a'; 199];
    for at in [0, 1, 100, 199] {
        let (found, last) = cut(alloc, &[&long[..at], &long[at..], behind])?;
        same(rt, &(found.len(), last), &(len, Cut::More), "200 bytes");
    }
    let (found, last) = cut(alloc, &[&long, &behind[..1], &behind[1..], b""])?;
    same(rt, &(found.len(), last), &(len, Cut::More), "200 bytes");
    Ok(())
}

// The text, one byte a piece.
fn bytes_of_text(alloc: Global) -> Result<Vec<&'static [u8]>, AllocError> {
    let mut bytes = Vec::new(alloc);
    for byte in TEXT.chunks(1) {
        bytes.push(byte)?;
    }
    Ok(bytes)
}

#[test]
fn a_text_in_pieces_has_the_same_lines(rt: HostRuntime) -> Result<(), Fail> {
    let lines = b"look doctor|exec doctor pm||foo|";
    for at in 0..TEXT.len() {
        let (front, rest) = TEXT.split_at(at);
        assert_lines(&rt, rt.alloc(), &[front, rest, b"", b"\n"], lines, "pieces")?;
    }
    assert_lines(&rt, rt.alloc(), &[TEXT, b"", b"\n"], lines, "one piece")?;
    let bytes = bytes_of_text(rt.alloc())?;
    let lines = b"look doctor|exec doctor pm||";
    assert_lines(&rt, rt.alloc(), &bytes, lines, "byte by byte")
}

// One carriage return is dropped. A line may have 200 bytes, of which that is one.
#[test]
fn a_carriage_return_is_dropped_and_counted(rt: HostRuntime) -> Result<(), Fail> {
    let rows: [(&[&[u8]], &[u8]); 7] = [
        (&[b"\n"], b"|"),
        (&[b"\r\n"], b"|"),
        (&[b"\r\r\n"], b"\r|"),
        (&[b"a\r\n"], b"a|"),
        (&[b"a\r\r\n"], b"a\r|"),
        (&[b"a\rb\n"], b"a\rb|"),
        (&[b"a\r", b"\nb", b"\r", b"\r\n"], b"a|b\r|"),
    ];
    for (pieces, lines) in rows {
        assert_lines(&rt, rt.alloc(), pieces, lines, "a carriage return")?;
    }
    assert_long(&rt, rt.alloc(), b"a\n", 201)?;
    assert_long(&rt, rt.alloc(), b"\r\n", 200)?;
    Ok(())
}

// What is used of a piece, and what comes of it.
type Taken<'a> = (&'a [u8], (usize, Cut));

// That a cutter takes these pieces so, one after the other.
fn assert_taken(rt: &impl Abort, cutter: &mut LineCutter, pieces: &[Taken<'_>]) {
    for (piece, told) in pieces {
        same(rt, &cutter.take(piece), told, "a line end");
    }
}

static ENDS: [Taken<'static>; 5] = [
    (b"look", (4, Cut::More)),
    (b" pm\r\n\nfoo", (5, Cut::Line)),
    (b"\nfoo", (1, Cut::Line)),
    (b"foo", (3, Cut::More)),
    (b"", (0, Cut::More)),
];

// What comes behind a line that is too long.
static BEHIND: [Taken<'static>; 4] = [
    (b"\n", (0, Cut::TooLong)),
    (b"", (0, Cut::TooLong)),
    (b"a\n", (0, Cut::TooLong)),
    (b"\na", (0, Cut::TooLong)),
];

// That one byte more than there may be is too long, and stays so, where the bytes come in these two pieces.
fn assert_too_long(rt: &impl Abort, alloc: Global, front: &[u8], rest: &[u8]) -> Result<(), Fail> {
    let mut cutter = LineCutter::new(alloc, 200)?;
    let pieces = [
        (front, (front.len(), Cut::More)),
        (rest, (rest.len(), Cut::TooLong)),
    ];
    assert_taken(rt, &mut cutter, &pieces);
    assert_taken(rt, &mut cutter, &BEHIND);
    Ok(())
}

#[test]
fn a_line_end_is_used_and_no_byte_behind_it(rt: HostRuntime) -> Result<(), Fail> {
    let mut cutter = LineCutter::new(rt.alloc(), 200)?;
    assert_taken(&rt, &mut cutter, &ENDS);
    let bytes = [b'a'; 201];
    for at in [0, 1, 100, 200] {
        let (front, rest) = bytes.split_at(at);
        assert_too_long(&rt, rt.alloc(), front, rest)?;
    }
    Ok(())
}
