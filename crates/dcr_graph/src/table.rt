ghost use Rattle.std.specs.Prelude.{◌≡◌, ℕ, ◌<◌, ◌≤◌, ◌&&◌, ◌||◌, ◌==◌, [], length, vec_len, IfOk, replicate, slice_set, slice_index_or};
ghost use Rattle.dcr_set.specs.EventSet.{no_event, those, with_event};
ghost use Rattle.dcr_set.specs.declared.id.TheConstants.{MAX_ATOMS};
ghost use Rattle.dcr_graph.specs.Rows.{row, leads};

use dcr_set::{EventId, EventSet, NoMemory};
use std::alloc::Global;
use std::marker::Model;

/// The pairs of one kind of relation between atoms. Contracts see the set of targets of each atom.
#[derive(Drop)]
pub struct Table {
    targets: Vec<EventSet>,
    sources: Vec<EventSet>,
}

impl Model for Table {
    ghost use Rattle.std.specs.Prelude.{List, Bool};

    ghost Value = { List (List Bool) };

    ghost use Rattle.dcr_graph.specs.TableModel.{table_of, IsTable};

    ghost view = { table_of };

    ghost invariant = { IsTable };
}

impl Table {
    /// No pair, between so many atoms.
    pub fn new(alloc: Global, atoms: u16) -> Result<Table, NoMemory>
        requires { atoms ≤ 1024 }
        ensures { IfOk result (λ table. table ≡ replicate atoms (no_event atoms)) }
    {
        let targets = empty_rows(alloc, atoms)?;
        let sources = empty_rows(alloc, atoms)?;
        Ok(Table { targets, sources })
    }

    /// The pairs that are told by the set of targets and the set of sources of each atom. The one is the
    /// other turned round.
    pub fn of_rows(targets: Vec<EventSet>, sources: Vec<EventSet>) -> Table
        requires most { vec_len targets ≤ MAX_ATOMS }
        requires as_many { vec_len sources ≡ vec_len targets }
        requires rooms { (a : ℕ) → a < vec_len targets → length (row targets.items a) ≡ vec_len targets }
        requires rooms_back { (b : ℕ) → b < vec_len targets → length (row sources.items b) ≡ vec_len targets }
        requires turned { (a b : ℕ) → leads sources.items b a ≡ leads targets.items a b }
        ensures { result ≡ targets.items }
    {
        Table { targets, sources }
    }

    /// Adds the pair of a and b.
    pub fn add(&mut self, a: EventId, b: EventId)
        requires source { a < length self.old }
        requires target { b < length self.old }
        ensures atoms { length self.new ≡ length self.old }
        ensures pairs { (x y : ℕ) → leads self.new x y ≡ (leads self.old x y || ((a == x) && (b == y))) }
    {
        add_to_row(&mut self.targets, a, b);
        add_to_row(&mut self.sources, b, a);
    }

    /// The targets of an atom.
    pub fn targets(&self, e: EventId) -> &EventSet
        requires { e < length self.now }
        ensures targets { result.now ≡ those (length self.now) (λ b. leads self.now e b) }
        ensures room { length result.now ≡ length self.now }
    {
        &self.targets[usize::from(e.0)]
    }

    /// The sources of an atom.
    pub fn sources(&self, e: EventId) -> &EventSet
        requires { e < length self.now }
        ensures sources { result.now ≡ those (length self.now) (λ a. leads self.now a e) }
        ensures room { length result.now ≡ length self.now }
    {
        &self.sources[usize::from(e.0)]
    }
}

// An empty set for each atom.
fn empty_rows(alloc: Global, atoms: u16) -> Result<Vec<EventSet>, NoMemory>
    requires { atoms ≤ 1024 }
    ensures { IfOk result (λ rows. rows.items ≡ replicate atoms (no_event atoms)) }
{
    let mut rows = Vec::with_capacity(alloc, usize::from(atoms))?;
    for _ in 0..atoms {
        rows.push(EventSet::new(atoms))?;
    }
    Ok(rows)
}

// Adds an event to one of the sets.
fn add_to_row(rows: &mut Vec<EventSet>, at: EventId, e: EventId)
    requires row { at < length rows.old.items }
    requires room { e < length (slice_index_or rows.old.items at []) }
    ensures rows { rows.new.items ≡ slice_set rows.old.items at (with_event (slice_index_or rows.old.items at []) e) }
{
    let row = &mut rows[usize::from(at.0)];
    row.insert(e);
}
