// The four lines before the entries.
ghost use Rattle.std.specs.Prelude.{◌≡◌, codes, length, option_map, None, Ok, IfOk, IfSome};
ghost use Rattle.dcr_graph.specs.Projection.{HasRoom};
ghost use Rattle.dcr_nest.specs.FlatRelation.{IsFlattening};
ghost use Rattle.dcr_replay.specs.HeadLines.{first_text, first_behind, version_at, IsGraphAt, IsCoverAt, TellsNoText, opening_at};

use crate::lines::{Lines, behind};
use dcr_cover_json::read_cover_text;
use dcr_graph::{Graph, Marking};
use dcr_graph_json::{Flattened, read_graph_text};
use dcr_line::{Directory, read_mark};
use dcr_nest::{Nested, Version};
use dcr_proj::Cover;
use dcr_set::NoMemory;
use std::alloc::Global;

/// The version that the first line tells. None exactly where it tells none.
pub(crate) fn read_version(lines: &Lines<'_>) -> Option<Version>
    ensures { result ≡ version_at lines.now }
{
    let text = first_text(lines)?;
    if text == b"dcr 1".as_slice() {
        return Some(Version::V1);
    }
    if text == b"dcr 2".as_slice() {
        return Some(Version::V2);
    }
    None
}

/// The graph of this version that the first line tells, with its flattening. None exactly where it tells none that is
/// accepted. A line that tells no text, or a longer one than each canonical text, is refused without memory.
pub(crate) fn read_graph(
    alloc: Global,
    lines: &Lines<'_>,
    version: Version,
) -> Result<Option<Flattened>, NoMemory>
    ensures found { IfOk result (λ found. IsGraphAt version lines.now (option_map (λ built. built.nested) found)) }
    ensures flat { IfOk result (λ found. IfSome found (λ built. IsFlattening built.nested built.graph)) }
    ensures no_text { TellsNoText (codes "graph ") lines.now → result ≡ Ok None }
{
    let Some(text) = first_behind(lines, b"graph ") else {
        return Ok(None);
    };
    read_graph_text(alloc, text, version)
}

/// The cover of the graph that the first line tells. None exactly where it tells none that is accepted, without memory
/// as for a graph.
pub(crate) fn read_cover(
    alloc: Global,
    lines: &Lines<'_>,
    nested: &Nested,
    graph: &Graph,
) -> Result<Option<Cover>, NoMemory>
    requires { IsFlattening nested.now graph.now }
    ensures found { IfOk result (λ found. IsCoverAt nested.now lines.now found) }
    ensures no_text { TellsNoText (codes "cover ") lines.now → result ≡ Ok None }
{
    let Some(text) = first_behind(lines, b"cover ") else {
        return Ok(None);
    };
    read_cover_text(alloc, text, nested, graph)
}

/// The marking of the atoms that the first line tells. None exactly where it tells none.
pub(crate) fn read_opening(lines: &Lines<'_>, directory: &Directory<'_>) -> Option<Marking>
    ensures opening { result ≡ opening_at directory.now.atoms lines.now }
    ensures room { IfSome result (HasRoom (length directory.now.atoms)) }
{
    let text = first_behind(lines, b"open ")?;
    let mark = read_mark(text, directory)?;
    Some(Marking {
        executed: mark.executed,
        pending: mark.pending,
        included: mark.included,
    })
}

// The text of the first line, where there is one and it has its end.
fn first_text<'a>(lines: &Lines<'a>) -> Option<&'a [u8]>
    ensures { option_map (λ text. text.now) result ≡ first_text lines.now }
{
    lines.first()?.whole()
}

// What the first line says behind a word.
fn first_behind<'a>(lines: &Lines<'a>, word: &[u8]) -> Option<&'a [u8]>
    ensures { option_map (λ text. text.now) result ≡ first_behind word.now lines.now }
{
    behind(first_text(lines)?, word)
}
