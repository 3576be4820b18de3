// All lines of a report.
ghost use Rattle.std.specs.Prelude.{◌≡◌, ◌<◌, ◌++◌, [], length, get_or, OnOk};
ghost use Rattle.std.specs.List.{All};
ghost use Rattle.dcr_graph.specs.Projection.{FitsAtoms};
ghost use Rattle.dcr_graph.specs.declared.marking.SiteMark.{SiteMark};
ghost use Rattle.dcr_report.specs.Report.{line, site_lines};

use crate::Lines;
use crate::head::{HEAD, HeadLines, end_line};
use crate::write::{write_end, write_site, write_verdict};
use dcr_graph::{Graph, Name};
use dcr_journal::{Call, Closed, Entry, Outcome};
use dcr_line::write_entry;
use dcr_nest::Nested;
use dcr_proj::Cover;
use dcr_set::NoMemory;
use std::alloc::Global;

/// The lines of the report of a closed run.
#[derive(Drop)]
pub(crate) struct ReportLines<'a> {
    pub(crate) alloc: Global,
    pub(crate) nested: &'a Nested,
    pub(crate) graph: &'a Graph,
    pub(crate) cover: &'a Cover,
    pub(crate) sites: &'a [Name],
    pub(crate) closed: &'a Closed,
}

impl Lines for ReportLines<'_> {
    ghost use Rattle.dcr_report.specs.ReportLines.{has_lines, lines_of};

    type Room = Entry;

    ghost lines = { lines_of };

    ghost fits = { has_lines };

    // Room for one entry, into which each is read in turn.
    fn room(&self) -> Entry {
        Entry {
            session: 0,
            seq: 0,
            call: Call::Accepting,
            outcome: Outcome::AllDone,
        }
    }

    fn count(&self) -> usize {
        HEAD + self.closed.history.len() as usize + self.sites.len() + 2
    }

    fn put(&self, place: usize, entry: &mut Entry, text: &mut Vec<u8>) -> Result<(), NoMemory> {
        if place < HEAD {
            let head = HeadLines {
                alloc: self.alloc,
                nested: self.nested,
                graph: self.graph,
                cover: self.cover,
                opening: &self.closed.opening,
            };
            return head.put(place, &mut (), text);
        }
        let entries = self.closed.history.len();
        if place - HEAD < entries as usize {
            let number = (place - HEAD) as u32;
            self.closed.history.read(number, entry);
            write_entry(number, entry, self.graph, self.cover, text)?;
            return end_line(text);
        }
        let behind = place - HEAD - entries as usize;
        if behind < self.sites.len() {
            return self.put_site(behind, text);
        }
        if behind == self.sites.len() {
            write_verdict(self.closed.waits, self.graph, text)?;
            return end_line(text);
        }
        write_end(entries, text)?;
        end_line(text)
    }
}

impl ReportLines<'_> {
    // Adds the line of a site.
    fn put_site(&self, i: usize, text: &mut Vec<u8>) -> Result<(), NoMemory>
        requires within { i < length self.now.sites.now }
        requires as_many { length self.now.closed.now.marks ≡ length self.now.sites.now }
        requires fit { All (λ (mark : SiteMark). FitsAtoms (length self.now.graph.now.names) mark.executed mark.pending mark.included) self.now.closed.now.marks }
        ensures { OnOk result (text.new.items ≡ text.old.items
            ++ line (get_or (site_lines self.now.graph.now.names self.now.sites.now self.now.closed.now.marks) i [])) }
    {
        let mark = self.closed.marks.get(i).unwrap();
        write_site(&self.sites[i], mark, self.graph, text)?;
        end_line(text)
    }
}
