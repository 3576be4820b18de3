// Many lines: runs of them are made into text by several threads, and handed on in their order.
ghost use Rattle.std.specs.Prelude.{◌≡◌, ℕ, ◌+◌, ◌*◌, ◌^◌, ◌<◌, ◌≤◌, [], false, length, min, vec_len, slice_index_or, IsTrue, OnOk, OnErr, IfSome, IfErr};
ghost use Rattle.dcr_base.specs.Side.{Adds, Stopped};
ghost use Rattle.dcr_report.specs.Report.{lines_text, text_between};
ghost use Rattle.dcr_report.specs.ReportLines.{has_lines, lines_of};
ghost use Rattle.dcr_report.specs.Writing.{CountsStop, Puts};
ghost use Rattle.dcr_report.specs.declared.pieces.Piece.{Piece};

use crate::lines::ReportLines;
use crate::writer::{Writer, add_lines, write_lines};
use crate::{Lines, ReportStop};
use dcr_base::Sink;
use dcr_graph::Graph;
use dcr_set::EventId;
use std::alloc::Global;
use std::thread::Threads;
use std::{mem, thread};

// So many bytes of text are made at a time at most, beside the lines before the entries.
const ROUND: usize = 16_777_216;

// Threads pay where a round is as much work as the copying of so many bytes.
const WORTH: usize = 524_288;

// So many bytes at most are in an entry's line beside the names in its sets. To write a short line is as much work as to
// copy so many bytes.
const SHORT: usize = 256;

// How many lines are looked at, to tell how long they are, and how far apart they stand at least.
const SEEN: usize = 64;

const APART: usize = 16;

// How many threads there are at most.
const MOST_THREADS: usize = 16;

/// The text of a run of lines.
#[derive(Drop)]
struct Piece {
    text: Vec<u8>,
    // Whether there was memory for all of it.
    is_whole: bool,
}

/// How many lines of entries make a round: they are no longer than 16 MiB.
pub(crate) fn round_of(graph: &Graph) -> usize
    ensures { result ≤ 2 ^ 24 }
{
    let names = graph.names_from(EventId(0), graph.atoms()).len();
    let longest = names.saturating_mul(3).saturating_add(SHORT);
    ROUND / longest
}

/// Writes the lines as `write_lines` does. They are made by as many threads as there are processors where that pays: where
/// they are a round or more, and some that are looked at are long enough. One round of them is made at a time. How many
/// threads there are, and how much each has, decides no byte.
pub(crate) fn write_by_threads<O: Sink, R: Threads + Sync>(
    rt: &R,
    alloc: Global,
    lines: &ReportLines<'_>,
    round: usize,
    sink: &mut O,
) -> Result<(), ReportStop>
    requires fits { has_lines lines.now }
    requires round { round ≤ 2 ^ 24 }
    ensures all { OnOk result (Adds (lines_text (lines_of lines.now)) (O.takes sink.old) (O.takes sink.new)) }
    ensures not_all { OnErr result (Stopped (lines_text (lines_of lines.now)) (O.takes sink.old) (O.takes sink.new)) }
    ensures counts { IfErr result (λ stop. CountsStop stop (O.takes sink.old).faults (O.takes sink.new).faults) }
{
    let pieces = if pays(alloc, lines, round) {
        new_pieces(rt, alloc)
    } else {
        None
    };
    let Some(mut pieces) = pieces else {
        return write_lines(alloc, lines, sink);
    };
    let run = (round / pieces.len()).max(1);
    let mut writer = Writer::new(alloc, sink);
    let told = writer.put_rounds(rt, lines, run, pieces.as_mut_slice());
    let Writer { held: _held, sink } = writer;
    let _ = &*sink;
    told
}

impl<O: Sink> Writer<'_, O> {
    // Puts the lines: so many in each piece, round after round.
    fn put_rounds<R: Threads + Sync>(
        &mut self,
        rt: &R,
        lines: &ReportLines<'_>,
        run: usize,
        pieces: &mut [Piece],
    ) -> Result<(), ReportStop>
        requires fits { has_lines lines.now }
        requires some { 0 < length pieces.old }
        requires run { 0 < run }
        requires short { length pieces.old * run < 2 ^ 32 }
        ensures same_sink { self.new.sink.ghost_name ≡ self.old.sink.ghost_name }
        ensures put { Puts O.takes result (lines_text (lines_of lines.now)) self.old self.new }
        ensures emptied { OnOk result (self.new.held.items ≡ []) }
    {
        let end = lines.count();
        let mut from = 0;
        while from < end {
            let to = (from + pieces.len() * run).min(end);
            self.put_round(rt, lines, from, to, run, pieces)?;
            from = to;
        }
        self.pass()
    }

    // Puts the lines of a round, between two places, piece by piece.
    fn put_round<R: Threads + Sync>(
        &mut self,
        rt: &R,
        lines: &ReportLines<'_>,
        from: usize,
        to: usize,
        run: usize,
        pieces: &mut [Piece],
    ) -> Result<(), ReportStop>
        requires fits { has_lines lines.now }
        requires order { from ≤ to }
        requires within { to ≤ length (lines_of lines.now) }
        requires some { 0 < length pieces.old }
        requires room { from + length pieces.old * run < 2 ^ 64 }
        requires reach { to ≤ from + length pieces.old * run }
        ensures as_many { length pieces.new ≡ length pieces.old }
        ensures put { Puts O.takes result (text_between (lines_of lines.now) from to) self.old self.new }
    {
        make_pieces(rt, lines, from, to, run, pieces);
        for piece in pieces.iter() {
            if !piece.is_whole {
                return Err(ReportStop::NoMemory);
            }
            self.put_text(&piece.text)?;
        }
        Ok(())
    }
}

// Whether the lines are made into text by several threads, so many in a round.
fn pays(alloc: Global, lines: &ReportLines<'_>, round: usize) -> bool
    requires { has_lines lines.now }
{
    if lines.count() < round {
        return false;
    }
    let mean = mean_line(alloc, lines);
    mean > 0 && mean.saturating_add(SHORT).saturating_mul(round) >= WORTH
}

// How many bytes a line has, by some of them; none where memory for them could not be had. It stands by itself, since room
// for a line is cleared where it begins, which short reports need not wait for.
#[inline(never)]
fn mean_line(alloc: Global, lines: &ReportLines<'_>) -> usize
    requires { has_lines lines.now }
{
    let step = (lines.count() / SEEN).max(APART);
    let mut line = Vec::new(alloc);
    let mut room = lines.room();
    let mut bytes: usize = 0;
    let mut place = 0;
    for seen in 0..SEEN {
        if place >= lines.count() {
            return bytes / seen.max(1);
        }
        line.clear();
        if lines.put(place, &mut room, &mut line).is_err() {
            return 0;
        }
        bytes = bytes.saturating_add(line.len());
        place = place.saturating_add(step);
    }
    bytes / SEEN
}

// The pieces of a round, one for each processor, each with room for its part. None where there is one processor alone, or
// where memory for them could not be had.
fn new_pieces<R: Threads>(rt: &R, alloc: Global) -> Option<Vec<Piece>>
    ensures some { IfSome result (λ pieces. 0 < vec_len pieces) }
    ensures few { IfSome result (λ pieces. vec_len pieces ≤ 16) }
{
    let count = match thread::available_parallelism(rt) {
        Ok(count) => count.get().min(MOST_THREADS),
        Err(_) => 1,
    };
    if count == 1 {
        return None;
    }
    let mut pieces = Vec::new(alloc);
    for _ in 0..count {
        let text = Vec::with_capacity(alloc, ROUND / count).ok()?;
        let piece = Piece {
            text,
            is_whole: false,
        };
        pieces.push(piece).ok()?;
    }
    Some(pieces)
}

// Makes the texts of a round, each by a thread of its own.
fn make_pieces<R: Threads + Sync>(
    rt: &R,
    lines: &ReportLines<'_>,
    from: usize,
    to: usize,
    run: usize,
    pieces: &mut [Piece],
)
    requires fits { has_lines lines.now }
    requires order { from ≤ to }
    requires within { to ≤ length (lines_of lines.now) }
    requires some { 0 < length pieces.old }
    requires room { from + length pieces.old * run < 2 ^ 64 }
    ensures as_many { length pieces.new ≡ length pieces.old }
    ensures whole { (i : ℕ) (d : Piece) → i < length pieces.old → IsTrue (slice_index_or pieces.new i d).is_whole → (slice_index_or pieces.new i d).text.items
        ≡ text_between (lines_of lines.now) (min (from + i * run) to) (min (from + i * run + run) to) }
    ensures cut { (i : ℕ) (d : Piece) → i < length pieces.old → (slice_index_or pieces.new i d).is_whole ≡ false → min (from + i * run) to < min (from + i * run + run) to }
{
    let threads = pieces.len();
    thread::for_each_mut(
        rt,
        pieces,
        threads,
        &|i: usize, piece: &mut Piece|
            requires { has_lines lines.now × (from ≤ to) × (to ≤ length (lines_of lines.now)) × (from + i * run + run < 2 ^ 64) }
            ensures whole { IsTrue piece.exit.now.is_whole → piece.exit.now.text.items
                ≡ text_between (lines_of lines.entry.now) (min (from + i * run) to) (min (from + i * run + run) to) }
            ensures cut { piece.exit.now.is_whole ≡ false → min (from + i * run) to < min (from + i * run + run) to }
        {
            let start = from + i * run;
            piece.fill(lines, start.min(to), (start + run).min(to))
        },
    );
}

impl Piece {
    // Makes it the text of the lines between two places.
    fn fill<L: Lines>(&mut self, lines: &L, from: usize, to: usize)
        requires fits { L.fits lines.now }
        requires order { from ≤ to }
        requires within { to ≤ length (L.lines lines.now) }
        ensures whole { IsTrue self.new.is_whole → self.new.text.items ≡ text_between (L.lines lines.now) from to }
        ensures cut { self.new.is_whole ≡ false → from < to }
    {
        // Where each thread has a place of its own for it: those of the pieces lie side by side, and would go from one
        // processor to the other with each word of a line.
        let alloc = *self.text.allocator();
        let mut text = mem::replace(&mut self.text, Vec::new(alloc));
        text.clear();
        self.is_whole = add_lines(lines, from, to, &mut text).is_ok();
        self.text = text;
    }
}
