// The lines of a report before its entries: its version, and the case.
ghost use Rattle.std.specs.Prelude.{◌≡◌, ◌++◌, codes, length, OnOk};
ghost use Rattle.dcr_graph.specs.Projection.{FitsAtoms};
ghost use Rattle.dcr_line.specs.Line.{mark_text};
ghost use Rattle.dcr_report.specs.Report.{head_lines, line, version_text};
ghost use Rattle.dcr_report.specs.FitsClosed.{FitsCase};

use crate::Lines;
use dcr_cover_json::cover_text;
use dcr_graph::{Graph, Marking};
use dcr_graph_json::graph_text;
use dcr_line::write_marking;
use dcr_nest::{Nested, Version};
use dcr_proj::Cover;
use dcr_set::NoMemory;
use std::alloc::Global;

/// The first line of a report, and those of its case: of the graph, the cover and the opening marking.
#[derive(Drop)]
pub(crate) struct HeadLines<'a> {
    pub(crate) alloc: Global,
    pub(crate) nested: &'a Nested,
    pub(crate) graph: &'a Graph,
    pub(crate) cover: &'a Cover,
    pub(crate) opening: &'a Marking,
}

/// How many they are.
pub(crate) const HEAD: usize = 4;

impl Lines for HeadLines<'_> {
    type Room = ();

    ghost lines = { λ head. head_lines head.nested.now head.cover.now head.graph.now.names head.opening.now };

    ghost fits = { λ head. FitsCase (length head.graph.now.names) head.cover.now head.opening.now };

    fn room(&self) {}

    fn count(&self) -> usize {
        HEAD
    }

    fn put(&self, place: usize, _: &mut (), text: &mut Vec<u8>) -> Result<(), NoMemory> {
        match place {
            0 => put_line(b"dcr ", version(self.nested.version()), text),
            1 => put_line(b"graph ", &graph_text(self.alloc, self.nested)?, text),
            2 => {
                let cover = cover_text(self.alloc, self.graph, self.cover)?;
                put_line(b"cover ", &cover, text)
            }
            _ => put_opening(self.opening, self.graph, text),
        }
    }
}

// The number of the version.
fn version(version: Version) -> &'static [u8]
    ensures { codes "dcr " ++ result.now ≡ version_text version }
{
    match version {
        Version::V1 => b"1",
        Version::V2 => b"2",
    }
}

// Adds the line of the opening marking.
fn put_opening(opening: &Marking, graph: &Graph, text: &mut Vec<u8>) -> Result<(), NoMemory>
    requires { FitsAtoms (length graph.now.names)
        opening.now.executed opening.now.pending opening.now.included }
    ensures { OnOk result (text.new.items ≡ text.old.items
        ++ line (codes "open " ++ mark_text graph.now.names opening.now.executed opening.now.pending opening.now.included)) }
{
    text.extend_from_slice(b"open ")?;
    write_marking(opening, graph, text)?;
    end_line(text)
}

// Adds a line: a word, and a text behind it.
fn put_line(word: &[u8], rest: &[u8], text: &mut Vec<u8>) -> Result<(), NoMemory>
    ensures { OnOk result (text.new.items ≡ text.old.items ++ line (word.now ++ rest.now)) }
{
    text.extend_from_slice(word)?;
    text.extend_from_slice(rest)?;
    end_line(text)
}

/// Adds a line end: one byte, without a copy of a slice.
pub(crate) fn end_line(text: &mut Vec<u8>) -> Result<(), NoMemory>
    ensures { OnOk result (text.new.items ≡ text.old.items ++ codes "\n") }
{
    text.push(b'\n')?;
    Ok(())
}
