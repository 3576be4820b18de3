// Lines on their way to a sink, held back and handed on.
ghost use Rattle.std.specs.Prelude.{◌≡◌, ◌^◌, ◌<◌, ◌≤◌, ◌++◌, ℕ, List, [], length, get_or, OnOk, OnErr, IfErr};
ghost use Rattle.dcr_base.specs.Side.{Adds, Stopped};
ghost use Rattle.dcr_report.specs.Report.{line, lines_text, text_between};
ghost use Rattle.dcr_report.specs.Writing.{CountsStop, Puts};

use crate::ReportStop;
use dcr_base::{Sink, write_all};
use dcr_set::NoMemory;
use std::alloc::Global;

// How many bytes are held back at most before the sink gets them, but for one line.
const FULL: usize = 8192;

/// Lines that are made into text one by one.
pub trait Lines {
    /// What a line is read into. Room for it is made once for many lines.
    type Room: Drop;

    /// The lines, each without its end.
    ghost lines: { Self → List (List ℕ) };

    /// Holds of what has lines.
    ghost fits: { Self → Type 0 };

    /// Room for the first line.
    fn room(&self) -> Self::Room;

    /// How many lines there are.
    fn count(&self) -> usize
        requires { fits self.now }
        ensures all { result ≡ length (lines self.now) }
        ensures few { result ≤ 2 ^ 63 };

    /// Adds the line at a place, from 0, to `text`, with its end. Where memory runs out, some of it may have been added.
    fn put(&self, place: usize, room: &mut Self::Room, text: &mut Vec<u8>) -> Result<(), NoMemory>
        requires fits { fits self.now }
        requires within { place < length (lines self.now) }
        ensures { OnOk result (text.new.items ≡ text.old.items ++ line (get_or (lines self.now) place [])) };
}

/// Writes the lines to the sink, each with its end. They are held back and handed on by some KiB at a time.
///
/// `WriteFault` comes exactly where a write failed; the sink then has less than the lines, from their front. `NoMemory` comes
/// where memory for a line, or for what is held back, could not be had; the sink then has less than the lines too, from their
/// front.
pub fn write_lines<L: Lines, O: Sink>(
    alloc: Global,
    lines: &L,
    sink: &mut O,
) -> Result<(), ReportStop>
    requires { L.fits lines.now }
    ensures all { OnOk result (Adds (lines_text (L.lines lines.now)) (O.takes sink.old) (O.takes sink.new)) }
    ensures not_all { OnErr result (Stopped (lines_text (L.lines lines.now)) (O.takes sink.old) (O.takes sink.new)) }
    ensures counts { IfErr result (λ stop. CountsStop stop (O.takes sink.old).faults (O.takes sink.new).faults) }
{
    let mut writer = Writer::new(alloc, sink);
    let told = writer.put_lines(lines);
    // No effect at run time: the proof reads what the sink has taken from this use of it.
    let Writer { held: _held, sink } = writer;
    let _ = &*sink;
    told
}

/// Adds the lines from a place on, up to another, to `text`, each with its end.
pub(crate) fn add_lines<L: Lines>(
    lines: &L,
    from: usize,
    to: usize,
    text: &mut Vec<u8>,
) -> Result<(), NoMemory>
    requires fits { L.fits lines.now }
    requires order { from ≤ to }
    requires within { to ≤ length (L.lines lines.now) }
    ensures added { OnOk result (text.new.items ≡ text.old.items ++ text_between (L.lines lines.now) from to) }
    ensures some { OnErr result (from < to) }
{
    let mut room = lines.room();
    for place in from..to {
        lines.put(place, &mut room, text)?;
    }
    Ok(())
}

/// A text on its way to a sink. What was put into it is what the sink took since, and then what is held.
#[derive(Drop)]
pub(crate) struct Writer<'a, O> {
    pub(crate) held: Vec<u8>,
    pub(crate) sink: &'a mut O,
}

impl<'a, O: Sink> Writer<'a, O> {
    /// Of a sink, with nothing put.
    pub(crate) fn new(alloc: Global, sink: &'a mut O) -> Writer<'a, O>
        ensures same_sink { result.sink.ghost_name ≡ sink.entry.ghost_name }
        ensures now { result.sink.now ≡ sink.old }
        ensures nothing_held { result.held.items ≡ [] }
    {
        Writer {
            held: Vec::new(alloc),
            sink,
        }
    }

    /// Puts the lines, each with its end, and hands on all that is held.
    fn put_lines<L: Lines>(&mut self, lines: &L) -> Result<(), ReportStop>
        requires { L.fits lines.now }
        ensures same_sink { self.new.sink.ghost_name ≡ self.old.sink.ghost_name }
        ensures put { Puts O.takes result (lines_text (L.lines lines.now)) self.old self.new }
        ensures emptied { OnOk result (self.new.held.items ≡ []) }
    {
        let mut room = lines.room();
        for place in 0..lines.count() {
            lines.put(place, &mut room, &mut self.held)?;
            self.pass_full()?;
        }
        self.pass()
    }

    /// Puts a text that goes to the sink behind what is held, with no copy of it.
    pub(crate) fn put_text(&mut self, text: &[u8]) -> Result<(), ReportStop>
        ensures { Puts O.takes result text.now self.old self.new }
    {
        self.pass()?;
        write_all(self.sink, text)?;
        Ok(())
    }

    // Hands on what is held, once there is much of it.
    fn pass_full(&mut self) -> Result<(), ReportStop>
        ensures { Puts O.takes result [] self.old self.new }
    {
        if self.held.len() <= FULL {
            return Ok(());
        }
        self.pass()
    }

    /// Hands on what is held.
    pub(crate) fn pass(&mut self) -> Result<(), ReportStop>
        ensures passed { Puts O.takes result [] self.old self.new }
        ensures emptied { OnOk result (self.new.held.items ≡ []) }
    {
        write_all(self.sink, &self.held)?;
        self.held.clear();
        Ok(())
    }
}
