ghost use Rattle.std.specs.Prelude.{◌≡◌, ◌≢◌, ◌<◌, ◌^◌, length, None, Some, Ok, Err, IfOk, IfSome, MatchBool};
ghost use Rattle.serde_json.specs.View.{view};
ghost use Rattle.dcr_format.specs.Size.{size};
ghost use Rattle.dcr_nest.specs.FlatRelation.{IsFlattening};
ghost use Rattle.dcr_nest.specs.Nest.{names_of};
ghost use Rattle.dcr_proj.specs.CoverValue.{atoms_of};
ghost use Rattle.dcr_format.specs.Facts.{Judges, first};
ghost use Rattle.dcr_format.specs.Texts.{AreAllNames};
ghost use Rattle.dcr_format.specs.declared.json_value.TheConstants.{MAX_BYTES};
ghost use Rattle.dcr_cover_json.specs.Accepted.{IsAcceptedCover, IsCoverIn, cover_facts};
ghost use Rattle.dcr_cover_json.specs.Shape.{shape_facts, sites_in};
ghost use Rattle.dcr_cover_json.specs.Sites.{cover_in};
ghost use Rattle.dcr_cover_json.specs.Text.{cover_text as text_of};

use crate::{CoverText, cover_text};
use dcr_format::{CaseStop, MAX_BYTES, read_json};
use dcr_graph::Graph;
use dcr_nest::{Nested, Node};
use dcr_proj::Cover;
use dcr_set::NoMemory;
use serde_json::Value;
use std::alloc::Global;

/// The cover of a nested graph, with this flattening, whose canonical text the bytes are. None exactly where they
/// are the text of no cover that is accepted: one of 1 to 64 sites, whose names are names and distinct, and which
/// own each atom. `NoMemory` where memory could not be had; none is taken for a text of more than `MAX_BYTES` bytes.
pub fn read_cover_text(
    alloc: Global,
    bytes: &[u8],
    nested: &Nested,
    graph: &Graph,
) -> Result<Option<Cover>, NoMemory>
    requires { IsFlattening nested.now graph.now }
    ensures found { IfOk result (λ found. IsCoverIn nested.now bytes.now found) }
    ensures too_long { MAX_BYTES < length bytes.now → result ≡ Ok None }
{
    see_names(nested.nodes());
    if bytes.len() > MAX_BYTES {
        return Ok(None);
    }
    let Some(value) = read_json(alloc, bytes)? else {
        return Ok(None);
    };
    let Some(cover) = read_value(alloc, nested, graph, value)? else {
        return Ok(None);
    };
    if !is_cover_text(alloc, graph, &cover, bytes)? {
        return Ok(None);
    }
    Ok(Some(cover))
}

// The names of nodes are names: each is looked at once, which says so.
fn see_names(nodes: &[Node])
    ensures { AreAllNames (names_of nodes.now) }
{
    for node in nodes {
        let _name = node.name.text();
    }
}

// The cover that a JSON value writes. None exactly where one of the facts of a cover fails. Memory is not wanted where it
// is not of the right shape. The value is let go here, before the text is written again.
fn read_value(
    alloc: Global,
    nested: &Nested,
    graph: &Graph,
    value: Value,
) -> Result<Option<Cover>, NoMemory>
    requires size { size (view value) < 2 ^ 32 }
    requires flat { IsFlattening nested.now graph.now }
    ensures fails { IfOk result (λ found. found ≡ None → first (cover_facts nested.now (Some (view value))) ≢ None) }
    ensures cover { IfOk result (λ found. IfSome found (λ cover. cover ≡ cover_in nested.now (sites_in (Some (view value))))) }
    ensures accepted { IfOk result (λ found. IfSome found (λ cover. IsAcceptedCover nested.now cover)) }
    ensures misshapen { IfSome (first (shape_facts (Some (view value)))) (λ _. result ≡ Ok None) }
{
    match try_value(alloc, nested, graph, &value) {
        Ok(cover) => Ok(Some(cover)),
        Err(CaseStop::NoMemory) => Err(NoMemory),
        Err(_) => Ok(None),
    }
}

// The same, or the first refusal.
fn try_value(
    alloc: Global,
    nested: &Nested,
    graph: &Graph,
    value: &Value,
) -> Result<Cover, CaseStop>
    requires size { size (view value.now) < 2 ^ 32 }
    requires flat { IsFlattening nested.now graph.now }
    ensures facts { Judges (first (cover_facts nested.now (Some (view value.now)))) result }
    ensures cover { IfOk result (λ cover. cover ≡ cover_in nested.now (sites_in (Some (view value.now)))) }
    ensures accepted { IfOk result (λ cover. IsAcceptedCover nested.now cover) }
    ensures misshapen { IfSome (first (shape_facts (Some (view value.now)))) (λ stop. result ≡ Err stop) }
{
    let cover = CoverText::shape(Some(value))?;
    cover.limits()?;
    let built = cover.build(alloc, nested, graph)?;
    Ok(built)
}

// Whether the bytes are the canonical text of the cover.
fn is_cover_text(
    alloc: Global,
    graph: &Graph,
    cover: &Cover,
    bytes: &[u8],
) -> Result<bool, NoMemory>
    requires { atoms_of cover.now.owned ≡ length graph.now.names }
    ensures { IfOk result (λ is. MatchBool is (bytes.now ≡ text_of graph.now.names cover.now) (bytes.now ≢ text_of graph.now.names cover.now)) }
{
    let text = cover_text(alloc, graph, cover)?;
    Ok(text.as_slice() == bytes)
}
