// The lines behind the entries.
ghost use Rattle.std.specs.Prelude.{◌≡◌, ◌+◌, ◌++◌, ◌<◌, [], List, codes, decimal, Decides, length, drop, IfOk, slice_index_or, slice_get, Some, true};
ghost use Rattle.std.specs.Option.{ForSome};
ghost use Rattle.dcr_graph.specs.GraphValue.{rules_of};
ghost use Rattle.dcr_graph.specs.Projection.{project, FitsAtoms};
ghost use Rattle.dcr_graph.specs.Rows.{row};
ghost use Rattle.dcr_report.specs.Report.{site_text, verdict_text};
ghost use Rattle.dcr_text.specs.Lines.{Line, line_of};
ghost use Rattle.dcr_replay.specs.ReportLines.{ended};
ghost use Rattle.dcr_replay.specs.Stands.{IsSound, TellsEnds, sites_of};
ghost use Rattle.dcr_replay.specs.declared.verdict.Verdict.TheVariants.{Invalid};

use crate::entries::Run;
use crate::lines::Lines;
use crate::tracked::cut;
use crate::verdict::{Verdict, Wrong};
use dcr_graph::{Graph, Name, SiteMark};
use dcr_report::{write_end, write_site, write_verdict};
use dcr_set::{EventId, NoMemory};
use std::alloc::Global;

/// The verdict over the lines behind the entries of the run.
pub(crate) fn check_ends(
    alloc: Global,
    run: &Run<'_, '_>,
    lines: &mut Lines<'_>,
) -> Result<Verdict, NoMemory>
    requires { IsSound run.now }
    ensures { IfOk result (TellsEnds run.now lines.old) }
{
    let first = run.len + 5;
    let sites = run.cover.site_names().len();
    for i in 0..sites {
        if !takes(lines, &line_of_site(alloc, run, i)?) {
            return Ok(wrong(first + i as u32, Wrong::Site));
        }
    }
    check_last(alloc, run, first + sites as u32, lines)
}

// The line of the site with this number, without its end.
fn line_of_site(alloc: Global, run: &Run<'_, '_>, i: usize) -> Result<Vec<u8>, NoMemory>
    requires sound { IsSound run.now }
    requires site { i < length run.now.cover.now.names }
    ensures { let G = rules_of run.now.graph.now in IfOk result (λ text. text.items
        ≡ site_text run.now.graph.now.names (slice_index_or run.now.cover.now.names i [])
        (project G (row run.now.cover.now.owned i) run.now.plain.marking)) }
{
    let mark = cut(&run.tracked[i], run.plain.marking());
    site_line(alloc, &run.cover.site_names()[i], &mark, run.graph)
}

// The verdict over the lines behind those of the sites, the first of this number.
fn check_last(
    alloc: Global,
    run: &Run<'_, '_>,
    number: u32,
    lines: &mut Lines<'_>,
) -> Result<Verdict, NoMemory>
    requires sound { IsSound run.now }
    requires number { number < 200100 }
    ensures { IfOk result (λ verdict. (all : List Line) → all ≡ ended (sites_of run.now) ++ lines.old
        → number ≡ 5 + run.now.len + length run.now.cover.now.names → TellsEnds run.now all verdict) }
{
    if !takes(lines, &verdict_line(alloc, run.plain.waits(), run.graph)?) {
        return Ok(wrong(number, Wrong::Verdict));
    }
    if !takes(lines, &end_line(alloc, run.len)?) {
        return Ok(wrong(number + 1, Wrong::End));
    }
    if lines.first().is_some() {
        return Ok(wrong(number + 2, Wrong::Extra));
    }
    Ok(Verdict::Valid { entries: run.len })
}

fn wrong(line: u32, kind: Wrong) -> Verdict
    ensures { result ≡ Invalid line kind }
{
    Verdict::Invalid { line, kind }
}

// Takes the first line, and tells whether there was one that has its end and is this text.
fn takes(lines: &mut Lines<'_>, text: &[u8]) -> bool
    ensures says { Decides result (slice_get lines.old 0 ≡ Some (line_of text.now true)) }
    ensures taken { lines.new ≡ drop 1 lines.old }
{
    let Some(line) = lines.first() else {
        return false;
    };
    lines.pass();
    line.says(text)
}

// The line of a site, without its end.
fn site_line(
    alloc: Global,
    site: &Name,
    mark: &SiteMark,
    graph: &Graph,
) -> Result<Vec<u8>, NoMemory>
    requires { FitsAtoms (length graph.now.names)
        mark.now.executed mark.now.pending mark.now.included }
    ensures { IfOk result (λ text. text.items ≡ site_text graph.now.names site.now mark.now) }
{
    let mut text = Vec::new(alloc);
    write_site(site, mark, graph, &mut text)?;
    Ok(text)
}

// The line of the verdict, without its end.
fn verdict_line(alloc: Global, waits: Option<EventId>, graph: &Graph) -> Result<Vec<u8>, NoMemory>
    requires { ForSome waits (λ e. e < length graph.now.names) }
    ensures { IfOk result (λ text. text.items ≡ verdict_text graph.now.names waits) }
{
    let mut text = Vec::new(alloc);
    write_verdict(waits, graph, &mut text)?;
    Ok(text)
}

// The line of the end, without its end.
fn end_line(alloc: Global, count: u32) -> Result<Vec<u8>, NoMemory>
    ensures { IfOk result (λ text. text.items ≡ codes "end " ++ decimal count) }
{
    let mut text = Vec::new(alloc);
    write_end(count, &mut text)?;
    Ok(text)
}
