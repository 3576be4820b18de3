ghost use Rattle.std.specs.Prelude.{◌≡◌, [], ◌∷◌, codes, drop, length, IfOk, None, Some, Ok};
ghost use Rattle.std.specs.List.{All};
ghost use Rattle.dcr_graph.specs.Projection.{HasRoom};
ghost use Rattle.dcr_nest.specs.FlatRelation.{IsFlattening};
ghost use Rattle.dcr_nest.specs.Nest.{Nest};
ghost use Rattle.dcr_line.specs.DirectoryModel.{named};
ghost use Rattle.dcr_graph_json.specs.Accepted.{IsAcceptedGraph};
ghost use Rattle.dcr_report.specs.Report.{version_text};
ghost use Rattle.dcr_text.specs.Lines.{lines_of};
ghost use Rattle.dcr_replay.specs.HeadLines.{TellsNoText, case_head, graph_line, opening_at, version_at};
ghost use Rattle.dcr_replay.specs.declared.verdict.Verdict.TheVariants.{Invalid};
ghost use Rattle.dcr_replay.specs.declared.verdict.Wrong.TheVariants as wrong;
ghost use Rattle.dcr_replay.specs.EntryLines.{Setting};
ghost use Rattle.dcr_replay.specs.FirstWrong.{IsVerdict};
ghost use Rattle.dcr_replay.specs.ReportLines.{head_of};
ghost use Rattle.dcr_replay.specs.Stands.{IsAcceptedCase, IsOver, TellsOf};
ghost use Rattle.dcr_proj.specs.CoverValue.{IsCover};

use crate::canonical::canonical_texts;
use crate::ends::check_ends;
use crate::entries::Run;
use crate::head::{read_cover, read_graph, read_opening, read_version};
use crate::lines::Lines;
use crate::verdict::{Verdict, Wrong};
use dcr_graph::{Graph, Marking};
use dcr_line::Directory;
use dcr_nest::{Nested, Version};
use dcr_proj::Cover;
use dcr_set::NoMemory;
use std::alloc::Global;

/// Whether the text is the report of a legal history: valid with the number of its entries, or the first line
/// that is wrong, counted from 1, with the kind of what is expected there. The history is checked by the plain
/// engine of the whole graph. `NoMemory` where memory could not be had; a wrong first line takes none, nor does a
/// second one that tells no text of a graph, or a longer one than each canonical text.
pub fn check_report(alloc: Global, bytes: &[u8]) -> Result<Verdict, NoMemory>
    ensures verdict { IfOk result (IsVerdict bytes.now) }
    ensures head { version_at (lines_of bytes.now) ≡ None → result ≡ Ok (Invalid 1 wrong.Head) }
    ensures no_text { (version : Version) → version_at (lines_of bytes.now) ≡ Some version
        → TellsNoText (codes "graph ") (drop 1 (lines_of bytes.now)) → result ≡ Ok (Invalid 2 wrong.Graph) }
{
    canonical_texts();
    let mut lines = Lines::of(bytes);
    let Some(version) = read_version(&lines) else {
        return Ok(Verdict::Invalid {
            line: 1,
            kind: Wrong::Head,
        });
    };
    lines.pass();
    check_graph(alloc, version, &mut lines)
}

// The verdict from the line of the graph on.
fn check_graph(alloc: Global, version: Version, lines: &mut Lines<'_>) -> Result<Verdict, NoMemory>
    ensures verdict { IfOk result (TellsOf (version_text version ∷ []) lines.old) }
    ensures no_text { TellsNoText (codes "graph ") lines.old → result ≡ Ok (Invalid 2 wrong.Graph) }
{
    let Some(built) = read_graph(alloc, lines, version)? else {
        return Ok(Verdict::Invalid {
            line: 2,
            kind: Wrong::Graph,
        });
    };
    lines.pass();
    check_cover(alloc, &built.nested, &built.graph, lines)
}

// The verdict from the line of the cover on.
fn check_cover(
    alloc: Global,
    nested: &Nested,
    graph: &Graph,
    lines: &mut Lines<'_>,
) -> Result<Verdict, NoMemory>
    requires flat { IsFlattening nested.now graph.now }
    requires accepted { IsAcceptedGraph nested.now.version nested.now }
    ensures verdict { IfOk result (TellsOf (version_text nested.now.version ∷ graph_line nested.now ∷ []) lines.old) }
    ensures no_text { TellsNoText (codes "cover ") lines.old → result ≡ Ok (Invalid 3 wrong.Cover) }
{
    let Some(cover) = read_cover(alloc, lines, nested, graph)? else {
        return Ok(Verdict::Invalid {
            line: 3,
            kind: Wrong::Cover,
        });
    };
    lines.pass();
    check_history(alloc, graph, &cover, lines)
}

// The verdict from the line of the opening marking on. The names of the sites and the atoms are put into a directory
// first, for all the lines behind.
fn check_history(
    alloc: Global,
    graph: &Graph,
    cover: &Cover,
    lines: &mut Lines<'_>,
) -> Result<Verdict, NoMemory>
    requires rooms { All (λ set. length set ≡ length graph.now.names) cover.now.owned }
    requires cover { IsCover cover.now }
    ensures { IfOk result (λ verdict. (N : Nest) → IsAcceptedCase N graph.now cover.now
        → TellsOf (case_head N cover.now) lines.old verdict) }
{
    let directory = Directory::new(alloc, graph, cover)?;
    check_opening(alloc, graph, cover, &directory, lines)
}

// The verdict from the line of the opening marking on.
fn check_opening(
    alloc: Global,
    graph: &Graph,
    cover: &Cover,
    directory: &Directory<'_>,
    lines: &mut Lines<'_>,
) -> Result<Verdict, NoMemory>
    requires directory { directory.now ≡ named cover.now.names graph.now.names }
    requires rooms { All (λ set. length set ≡ length graph.now.names) cover.now.owned }
    requires cover { IsCover cover.now }
    ensures verdict { IfOk result (λ verdict. (N : Nest) → IsAcceptedCase N graph.now cover.now
        → TellsOf (case_head N cover.now) lines.old verdict) }
    ensures no_marking { opening_at graph.now.names lines.old ≡ None → result ≡ Ok (Invalid 4 wrong.Opening) }
{
    let Some(opening) = read_opening(lines, directory) else {
        return Ok(Verdict::Invalid {
            line: 4,
            kind: Wrong::Opening,
        });
    };
    lines.pass();
    check_run(alloc, graph, cover, directory, &opening, lines)
}

// The verdict from the first entry on.
fn check_run<'g>(
    alloc: Global,
    graph: &'g Graph,
    cover: &'g Cover,
    directory: &'g Directory<'_>,
    opening: &Marking,
    lines: &mut Lines<'_>,
) -> Result<Verdict, NoMemory>
    requires directory { directory.now ≡ named cover.now.names graph.now.names }
    requires rooms { All (λ set. length set ≡ length graph.now.names) cover.now.owned }
    requires cover { IsCover cover.now }
    requires opening { HasRoom (length graph.now.names) opening.now }
    ensures { IfOk result (λ verdict. (S : Setting) → IsOver S graph.now cover.now → opening.now ≡ S.opening
        → TellsOf (head_of S) lines.old verdict) }
{
    let mut run = Run::open(alloc, graph, cover, directory, opening)?;
    let mut room = Vec::new(alloc);
    while let Some(line) = lines.first() {
        if !line.begins_with_digit() {
            break;
        }
        if let Some(kind) = run.take(line, &mut room)? {
            return Ok(Verdict::Invalid {
                line: run.len + 5,
                kind,
            });
        }
        lines.pass();
    }
    check_ends(alloc, &run, lines)
}
