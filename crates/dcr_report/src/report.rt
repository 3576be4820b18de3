ghost use Rattle.std.specs.Prelude.{◌≡◌, length, Some, OnOk, IfErr, OnErr};
ghost use Rattle.std.specs.List.{All};
ghost use Rattle.dcr_base.specs.Side.{Adds, Stopped};
ghost use Rattle.dcr_graph.specs.Cause.{waits};
ghost use Rattle.dcr_graph.specs.GraphValue.{rules_of};
ghost use Rattle.dcr_graph.specs.Projection.{HasRoom};
ghost use Rattle.dcr_nest.specs.FlatRelation.{IsFlattening};
ghost use Rattle.dcr_journal.specs.Run.{IsLegal, after, marks_at};
ghost use Rattle.dcr_report.specs.FitsClosed.{FitsTold};
ghost use Rattle.dcr_report.specs.Report.{report_text, told_text};
ghost use Rattle.dcr_report.specs.Stop.{message_of};
ghost use Rattle.dcr_report.specs.Writing.{CountsStop};

use crate::lines::ReportLines;
use crate::pieces::{round_of, write_by_threads};
use crate::writer::write_lines;
use dcr_base::Sink;
use dcr_graph::Graph;
use dcr_journal::Closed;
use dcr_nest::Nested;
use dcr_proj::Cover;
use dcr_set::NoMemory;
use std::alloc::Global;
use std::error::Error;
use std::fmt;
use std::thread::Threads;

/// Why a report was not written to its end.
#[derive(Clone, Copy, Debug, PartialEq, Eq)]
pub enum ReportStop {
    /// A write failed. The sink has not taken all.
    WriteFault,
    /// Memory was wanted and could not be had.
    NoMemory,
}

impl fmt::Display for ReportStop {
    ghost output = { λ stop. Some (message_of stop) };

    fn fmt<W: fmt::Write>(&self, f: &mut fmt::Formatter<W>) -> fmt::Result {
        f.write_str(match self {
            ReportStop::WriteFault => "the output failed",
            ReportStop::NoMemory => "out of memory",
        })
    }
}

impl Error for ReportStop {}

impl From<NoMemory> for ReportStop {
    ghost use Rattle.dcr_report.specs.declared.report.ReportStop.TheVariants.{NoMemory as no_memory};

    ghost from_gives = { λ _ stop. stop ≡ no_memory };

    fn from(_: NoMemory) -> ReportStop {
        ReportStop::NoMemory
    }
}

impl From<dcr_base::WriteFault> for ReportStop {
    ghost use Rattle.dcr_report.specs.declared.report.ReportStop.TheVariants.{WriteFault as write_fault};

    ghost from_gives = { λ _ stop. stop ≡ write_fault };

    fn from(_: dcr_base::WriteFault) -> ReportStop {
        ReportStop::WriteFault
    }
}

/// Writes the report of a closed run. Its text is held back and handed on by some KiB at a time.
///
/// The graph is the flattening of the nested graph, and the cover is one of its atoms. The history of the
/// run is legal from its opening marking, and its marks and its verdict are those after the history.
/// `WriteFault` comes exactly where a write failed; the sink then has less than the report, from its front.
/// `NoMemory` comes where memory for the texts of the graph and the cover, or for the text held back, could
/// not be had; the sink then has less than the report too, from its front.
pub fn write_report<O: Sink>(
    alloc: Global,
    nested: &Nested,
    graph: &Graph,
    cover: &Cover,
    closed: &Closed,
    sink: &mut O,
) -> Result<(), ReportStop>
    requires flattening { IsFlattening nested.now graph.now }
    requires rooms { All (λ set. length set ≡ length graph.now.names) cover.now.owned }
    requires opening { HasRoom (length graph.now.names) closed.now.opening }
    requires legal { IsLegal (rules_of graph.now) cover.now.owned
        closed.now.opening closed.now.history.entries }
    requires marks { closed.now.marks ≡ marks_at (rules_of graph.now) cover.now.owned
        (after (rules_of graph.now) closed.now.opening closed.now.history.entries) }
    requires verdict { closed.now.waits ≡ waits (length graph.now.names)
        (after (rules_of graph.now) closed.now.opening closed.now.history.entries) }
    ensures all { OnOk result (Adds (report_text nested.now cover.now closed.now.opening closed.now.history.entries) (O.takes sink.old) (O.takes sink.new)) }
    ensures not_all { OnErr result (Stopped (report_text nested.now cover.now closed.now.opening closed.now.history.entries) (O.takes sink.old) (O.takes sink.new)) }
    ensures counts { IfErr result (λ stop. CountsStop stop (O.takes sink.old).faults (O.takes sink.new).faults) }
{
    let lines = ReportLines {
        alloc,
        nested,
        graph,
        cover,
        sites: cover.site_names(),
        closed,
    };
    write_lines(alloc, &lines, sink)
}

/// Writes the report of a closed run as `write_report` does, by the same clauses. Where it is long, its lines are made by as
/// many threads as there are processors, 16 at most, and beside its head 16 MiB of them are held at most.
pub fn write_report_by_threads<O: Sink, R: Threads + Sync>(
    rt: &R,
    alloc: Global,
    nested: &Nested,
    graph: &Graph,
    cover: &Cover,
    closed: &Closed,
    sink: &mut O,
) -> Result<(), ReportStop>
    requires flattening { IsFlattening nested.now graph.now }
    requires rooms { All (λ set. length set ≡ length graph.now.names) cover.now.owned }
    requires opening { HasRoom (length graph.now.names) closed.now.opening }
    requires legal { IsLegal (rules_of graph.now) cover.now.owned
        closed.now.opening closed.now.history.entries }
    requires marks { closed.now.marks ≡ marks_at (rules_of graph.now) cover.now.owned
        (after (rules_of graph.now) closed.now.opening closed.now.history.entries) }
    requires verdict { closed.now.waits ≡ waits (length graph.now.names)
        (after (rules_of graph.now) closed.now.opening closed.now.history.entries) }
    ensures all { OnOk result (Adds (report_text nested.now cover.now closed.now.opening closed.now.history.entries) (O.takes sink.old) (O.takes sink.new)) }
    ensures not_all { OnErr result (Stopped (report_text nested.now cover.now closed.now.opening closed.now.history.entries) (O.takes sink.old) (O.takes sink.new)) }
    ensures counts { IfErr result (λ stop. CountsStop stop (O.takes sink.old).faults (O.takes sink.new).faults) }
{
    write_told_by_threads(rt, alloc, nested, graph, cover, closed, sink)
}

/// Writes what a closed run tells, in the lines of a report: its own marks and its own verdict, whether or not the graph
/// allows its history. Where it does, and marks and verdict are those after the history, that is the report. Where it is long,
/// its lines are made by as many threads as there are processors, 16 at most, and beside its head 16 MiB of them are held at most.
///
/// The graph is the flattening of the nested graph, and the cover is one of its atoms. Each entry names sites
/// and atoms that there are, there are marks for each site, and these and the verdict name atoms.
/// `WriteFault` comes exactly where a write failed; the sink then has less than this text, from its front.
/// `NoMemory` comes where memory for the texts of the graph and the cover, or for the lines held, could
/// not be had; the sink then has less than this text too, from its front.
pub fn write_told_by_threads<O: Sink, R: Threads + Sync>(
    rt: &R,
    alloc: Global,
    nested: &Nested,
    graph: &Graph,
    cover: &Cover,
    closed: &Closed,
    sink: &mut O,
) -> Result<(), ReportStop>
    requires flattening { IsFlattening nested.now graph.now }
    requires rooms { All (λ set. length set ≡ length graph.now.names) cover.now.owned }
    requires told { FitsTold (length graph.now.names) cover.now closed.now }
    ensures all { OnOk result (Adds (told_text nested.now cover.now closed.now) (O.takes sink.old) (O.takes sink.new)) }
    ensures not_all { OnErr result (Stopped (told_text nested.now cover.now closed.now) (O.takes sink.old) (O.takes sink.new)) }
    ensures counts { IfErr result (λ stop. CountsStop stop (O.takes sink.old).faults (O.takes sink.new).faults) }
{
    let lines = ReportLines {
        alloc,
        nested,
        graph,
        cover,
        sites: cover.site_names(),
        closed,
    };
    write_by_threads(rt, alloc, &lines, round_of(graph), sink)
}
