ghost use Rattle.std.specs.Prelude.{◌≡◌, length, IfOk};
ghost use Rattle.std.specs.List.{All};
ghost use Rattle.dcr_graph.specs.Projection.{HasRoom};
ghost use Rattle.dcr_nest.specs.FlatRelation.{IsFlattening};
ghost use Rattle.dcr_report.specs.Report.{digested_text};
ghost use Rattle.sha2.specs.Sha256.{sha256};

use crate::head::{HEAD, HeadLines};
use crate::writer::add_lines;
use dcr_graph::{Graph, Marking};
use dcr_nest::Nested;
use dcr_proj::Cover;
use dcr_set::NoMemory;
use sha2::{Digest, Sha256};
use std::alloc::Global;

/// The digest that names a case: SHA-256 of the lines of its graph, its cover and its opening marking, as a report has
/// them, each with its line end. The graph is the flattening of the nested graph, and the cover is one of its atoms.
pub fn case_digest(
    alloc: Global,
    nested: &Nested,
    graph: &Graph,
    cover: &Cover,
    opening: &Marking,
) -> Result<[u8; 32], NoMemory>
    requires flattening { IsFlattening nested.now graph.now }
    requires rooms { All (λ set. length set ≡ length graph.now.names) cover.now.owned }
    requires opening { HasRoom (length graph.now.names) opening.now }
    ensures { IfOk result (λ digest. digest ≡ sha256 (digested_text nested.now cover.now opening.now)) }
{
    let _sites = cover.site_names();
    let head = HeadLines {
        alloc,
        nested,
        graph,
        cover,
        opening,
    };
    let mut text = Vec::new(alloc);
    add_lines(&head, 1, HEAD, &mut text)?;
    let mut hasher = Sha256::new();
    hasher.update(text.as_slice());
    Ok(hasher.finalize())
}
