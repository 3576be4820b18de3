ghost use Rattle.std.specs.Prelude.{◌≡◌, ◌≤◌, vec_len, map, IfOk};
ghost use Rattle.dcr_line.specs.Known.{AreNames};

use dcr_graph::{Graph, NameIndex};
use dcr_proj::Cover;
use dcr_set::{EventId, NoMemory, SiteId};
use std::alloc::Global;
use std::marker::Model;

/// The sites of a cover and the atoms of a graph by name, made once for all the lines of a case or a report,
/// so that a name is found without a walk over all of them. Contracts see the two lists of names.
#[derive(Drop)]
pub struct Directory<'n> {
    graph: &'n Graph,
    sites: NameIndex<'n>,
    atoms: NameIndex<'n>,
}

impl<'n> Model for Directory<'n> {
    ghost use Rattle.dcr_line.specs.DirectoryModel.{Named, names_of, IsDirectory};

    ghost Value = { Named };

    ghost view = { names_of };

    ghost invariant = { IsDirectory };
}

impl<'n> Directory<'n> {
    ghost use Rattle.std.specs.Prelude.{◌≡◌, ◌≤◌, length, IfOk};
    ghost use Rattle.dcr_graph.specs.Names.{AreDistinct, number_of};
    ghost use Rattle.dcr_line.specs.DirectoryModel.{named};
    ghost use Rattle.dcr_line.specs.Known.{AreNames};
    ghost use Rattle.dcr_line.specs.MarkLine.{from_low};

    /// Of a graph and a cover. `NoMemory` where memory could not be had.
    pub fn new(alloc: Global, graph: &'n Graph, cover: &'n Cover) -> Result<Directory<'n>, NoMemory>
        ensures { IfOk result (λ directory. directory ≡ named cover.now.names graph.now.names) }
    {
        let sites = NameIndex::new(alloc, site_texts(alloc, cover)?)?;
        let atoms = NameIndex::new(alloc, atom_texts(alloc, graph)?)?;
        Ok(Directory {
            graph,
            sites,
            atoms,
        })
    }

    /// The names of the sites and those of the atoms are names and distinct.
    pub(crate) fn names_are_known(&self)
        ensures sites { AreNames self.now.sites }
        ensures atoms { AreNames self.now.atoms }
    {
        let _graph = self.graph;
    }

    /// How many atoms there are.
    pub(crate) fn atoms(&self) -> u16
        ensures atoms { result ≡ length self.now.atoms }
        ensures most { length self.now.atoms ≤ 1024 }
    {
        self.graph.atoms()
    }

    /// The site with this name. None exactly where none has it.
    pub(crate) fn site(&self, name: &[u8]) -> Option<SiteId>
        ensures { result ≡ number_of self.now.sites name.now }
    {
        Some(SiteId(self.sites.find(name)?))
    }

    /// The atom with this name. None exactly where none has it.
    pub(crate) fn atom(&self, name: &[u8]) -> Option<EventId>
        ensures { result ≡ number_of self.now.atoms name.now }
    {
        Some(EventId(self.atoms.find(name)?))
    }

    /// The atom with this name, where its number is at least `low`. The one at `low` is tried first: in a list
    /// of many it's the next one mostly.
    pub(crate) fn atom_from(&self, low: u16, name: &[u8]) -> Option<EventId>
        ensures { result ≡ from_low low (number_of self.now.atoms name.now) }
    {
        if low < self.graph.atoms() && self.graph.name(EventId(low)).text().as_bytes() == name {
            return Some(EventId(low));
        }
        let e = self.atom(name)?;
        if e.0 < low {
            return None;
        }
        Some(e)
    }
}

// The names of the sites, in order.
fn site_texts(alloc: Global, cover: &Cover) -> Result<Vec<&[u8]>, NoMemory>
    ensures names { IfOk result (λ texts. map (λ text. text.now) texts.items ≡ cover.now.names) }
    ensures known { IfOk result (λ _. AreNames cover.now.names) }
    ensures most { IfOk result (λ texts. vec_len texts ≤ 2048) }
{
    let mut texts = Vec::with_capacity(alloc, usize::from(cover.sites()))?;
    for number in 0..cover.sites() {
        texts.push(cover.name(SiteId(number)).text().as_bytes())?;
    }
    Ok(texts)
}

// The names of the atoms, in order.
fn atom_texts(alloc: Global, graph: &Graph) -> Result<Vec<&[u8]>, NoMemory>
    ensures names { IfOk result (λ texts. map (λ text. text.now) texts.items ≡ graph.now.names) }
    ensures known { IfOk result (λ _. AreNames graph.now.names) }
    ensures most { IfOk result (λ texts. vec_len texts ≤ 2048) }
{
    let mut texts = Vec::with_capacity(alloc, usize::from(graph.atoms()))?;
    for number in 0..graph.atoms() {
        texts.push(graph.name(EventId(number)).text().as_bytes())?;
    }
    Ok(texts)
}
