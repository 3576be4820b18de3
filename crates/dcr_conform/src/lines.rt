// The lines that tell how traces are judged.
ghost use Rattle.std.specs.Prelude.{◌≡◌, ◌<◌, ◌∷◌, [], ◌++◌, codes, decimal, length, Some, OnOk, IfErr, OnErr};
ghost use Rattle.std.specs.List.{All};
ghost use Rattle.dcr_base.specs.Side.{Adds, Stopped};
ghost use Rattle.dcr_journal.specs.Answer.{outcome_of};
ghost use Rattle.dcr_line.specs.Fits.{FitsOutcome};
ghost use Rattle.dcr_line.specs.Line.{name_of, outcome_text, spaced};
ghost use Rattle.dcr_report.specs.Report.{line};
ghost use Rattle.dcr_report.specs.Writing.{CountsStop};
ghost use Rattle.dcr_conform.specs.Judge.{FitsJudged};
ghost use Rattle.dcr_conform.specs.Lines.{count_line, judged_line, judged_lines, judged_text, judged_words};

use crate::Judged;
use dcr_base::Sink;
use dcr_graph::{Cause, Graph};
use dcr_line::write_event;
use dcr_log::Trace;
use dcr_report::{Lines, ReportStop, write_lines};
use dcr_set::{EventId, NoMemory};
use dcr_text::decimal;
use std::alloc::Global;

/// Writes a line for each trace, with its name and how it is judged, and then how many traces there are. The lines are held
/// back and handed on by some KiB at a time.
///
/// The traces have one answer each, in order, and the atoms that an answer names are of the graph. `WriteFault` comes
/// exactly where a write failed; the sink then has less than the lines, from their front. `NoMemory` comes where memory
/// for what is held back could not be had; the sink then has less than the lines too, from their front.
pub fn write_judged<O: Sink>(
    alloc: Global,
    graph: &Graph,
    traces: &[Trace],
    judged: &[Judged],
    sink: &mut O,
) -> Result<(), ReportStop>
    requires as_many { length judged.now ≡ length traces.now }
    requires fit { All (FitsJudged (length graph.now.names)) judged.now }
    ensures all { OnOk result (Adds (judged_text graph.now.names traces.now judged.now) (O.takes sink.old) (O.takes sink.new)) }
    ensures not_all { OnErr result (Stopped (judged_text graph.now.names traces.now judged.now) (O.takes sink.old) (O.takes sink.new)) }
    ensures counts { IfErr result (λ stop. CountsStop stop (O.takes sink.old).faults (O.takes sink.new).faults) }
{
    let lines = JudgedLines {
        graph,
        traces,
        judged,
    };
    write_lines(alloc, &lines, sink)
}

// A line for each trace, and the last one.
#[derive(Drop)]
struct JudgedLines<'a> {
    graph: &'a Graph,
    traces: &'a [Trace],
    judged: &'a [Judged],
}

impl Lines for JudgedLines<'_> {
    type Room = ();

    ghost lines = { λ all. judged_lines all.graph.now.names all.traces.now all.judged.now ++ count_line (length all.traces.now) ∷ [] };

    ghost fits = { λ all. (length all.judged.now ≡ length all.traces.now) × All (FitsJudged (length all.graph.now.names)) all.judged.now };

    fn room(&self) {}

    fn count(&self) -> usize {
        self.traces.len() + 1
    }

    fn put(&self, place: usize, _: &mut (), text: &mut Vec<u8>) -> Result<(), NoMemory> {
        if place < self.traces.len() {
            return put_trace(self.graph, &self.traces[place], self.judged[place], text);
        }
        put_count(self.traces.len(), text)
    }
}

// Adds the line of a trace.
fn put_trace(
    graph: &Graph,
    trace: &Trace,
    judged: Judged,
    text: &mut Vec<u8>,
) -> Result<(), NoMemory>
    requires { FitsJudged (length graph.now.names) judged }
    ensures { OnOk result (text.new.items
        ≡ text.old.items ++ line (judged_line graph.now.names trace.now judged)) }
{
    put(trace.name.text().as_bytes(), text)?;
    put_answer(graph, judged, text)?;
    put(b"\n", text)
}

// Adds what stands behind the name of a trace.
fn put_answer(graph: &Graph, judged: Judged, text: &mut Vec<u8>) -> Result<(), NoMemory>
    requires { FitsJudged (length graph.now.names) judged }
    ensures { OnOk result (text.new.items
        ≡ text.old.items ++ (codes " " ++ spaced (judged_words graph.now.names judged))) }
{
    match judged {
        Judged::Unknown(place) => put_number(b" unknown ", place, text),
        Judged::Refused(place, why) => {
            put_number(b" refused ", place, text)?;
            put_cause(graph, why, text)
        }
        Judged::Waits(e, count) => {
            put_event(b" waits ", graph, e, text)?;
            put_number(b" ", count, text)
        }
        Judged::Accepting(count) => put_number(b" accepting ", count, text),
    }
}

// Adds a cause, as an entry of a report tells it.
fn put_cause(graph: &Graph, why: Cause, text: &mut Vec<u8>) -> Result<(), NoMemory>
    requires { FitsOutcome (length graph.now.names) (outcome_of (Some why)) }
    ensures { OnOk result (text.new.items
        ≡ text.old.items ++ (codes " " ++ outcome_text graph.now.names (outcome_of (Some why)))) }
{
    match why {
        Cause::Excluded => put(b" excluded", text),
        Cause::Condition(e) => put_event(b" condition ", graph, e, text),
        Cause::Milestone(e) => put_event(b" milestone ", graph, e, text),
    }
}

// Adds a word, and the name of an atom behind it.
fn put_event(word: &[u8], graph: &Graph, e: EventId, text: &mut Vec<u8>) -> Result<(), NoMemory>
    requires { e < length graph.now.names }
    ensures { OnOk result (text.new.items
        ≡ text.old.items ++ (word.now ++ name_of graph.now.names e)) }
{
    put(word, text)?;
    write_event(e, graph, text)
}

// Adds a word, and a number behind it.
fn put_number(word: &[u8], n: u32, text: &mut Vec<u8>) -> Result<(), NoMemory>
    ensures { OnOk result (text.new.items ≡ text.old.items ++ (word.now ++ decimal n)) }
{
    put(word, text)?;
    decimal(u64::from(n), text)
}

// Adds the last line.
fn put_count(count: usize, text: &mut Vec<u8>) -> Result<(), NoMemory>
    ensures { OnOk result (text.new.items ≡ text.old.items ++ line (count_line count)) }
{
    put(b"traces ", text)?;
    decimal(count as u64, text)?;
    put(b"\n", text)
}

// Adds these bytes.
fn put(bytes: &[u8], text: &mut Vec<u8>) -> Result<(), NoMemory>
    ensures { OnOk result (text.new.items ≡ text.old.items ++ bytes.now) }
{
    text.extend_from_slice(bytes)?;
    Ok(())
}
