ghost use Rattle.std.specs.Prelude.{◌≡◌, ◌≤◌, IfOk, replicate};
ghost use Rattle.dcr_set.specs.EventSet.{no_event};

use crate::table::Table;
use crate::{AtomNames, Kind, Label, Name};
use dcr_set::{EventId, EventSet, NoMemory};
use std::alloc::Global;
use std::marker::Model;
use thiserror::Error;

/// Why no graph was built.
#[derive(Clone, Copy, Debug, PartialEq, Eq, Error)]
pub enum GraphStop {
    /// The least pair, by a and then by b, that is both an include and an exclude.
    #[error("a pair is both included and excluded")]
    Clash { a: EventId, b: EventId },
    /// Memory was wanted and could not be had.
    #[error("out of memory")]
    NoMemory,
}

impl From<NoMemory> for GraphStop {
    ghost use Rattle.std.specs.Prelude.{◌≡◌};
    ghost use Rattle.dcr_graph.specs.declared.graph.GraphStop.TheVariants.{NoMemory as no_memory};

    ghost from_gives = { λ _ e. e ≡ no_memory };

    fn from(_: NoMemory) -> GraphStop {
        GraphStop::NoMemory
    }
}

/// A flat graph: its atoms, numbered from 0, with a name and a label each, and the pairs of atoms of each
/// kind of relation. Contracts see it as `Flat`, whose relation is `rules_of`.
#[derive(Drop)]
pub struct Graph {
    names: AtomNames,
    labels: Vec<Label>,
    tables: Vec<Table>,
}

impl Model for Graph {
    ghost use Rattle.dcr_graph.specs.GraphValue.{Flat};

    ghost Value = { Flat };

    ghost use Rattle.dcr_graph.specs.GraphModel.{flat_of, FitsNames};

    ghost view = { flat_of };

    ghost invariant = { FitsNames };
}

impl Graph {
    ghost use Rattle.std.specs.Prelude.{◌≡◌, ◌≢◌, ℕ, ◌-◌, ◌<◌, ◌≤◌, ◌&&◌, ◌||◌, ◌==◌, length, None, vec_len, IfOk, IfErr, OnOk, slice_index_or, []};
    ghost use Rattle.std.specs.List.{All, range_with_len};
    ghost use Rattle.dcr_set.specs.EventSet.{has, those};
    ghost use Rattle.dcr_set.specs.declared.id.TheConstants.{MAX_ATOMS};
    ghost use Rattle.dcr_graph.specs.Names.{AreDistinct, comma_names, number_of};
    ghost use Rattle.dcr_graph.specs.Rules.{same_kind};
    ghost use Rattle.dcr_graph.specs.declared.kind.Kind.{Kind};
    ghost use Rattle.dcr_graph.specs.GraphValue.{rules_of, flat};
    ghost use Rattle.dcr_graph.specs.Projection.{leads_to};
    ghost use Rattle.dcr_graph.specs.Pairs.{AreInRange, is_listed, rules_listed, first_clash, TellsClash};

    /// The graph of these atoms and pairs. `Clash` comes exactly where an include pair is an exclude pair,
    /// with the least such pair.
    pub fn new(
        alloc: Global,
        names: Vec<Name>,
        labels: Vec<Label>,
        pairs: Vec<(Kind, EventId, EventId)>,
    ) -> Result<Graph, GraphStop>
        requires most { vec_len names ≤ MAX_ATOMS }
        requires as_many_labels { vec_len labels ≡ vec_len names }
        requires distinct { AreDistinct names.items }
        requires ends { AreInRange (vec_len names) pairs.items }
        ensures names { IfOk result (λ graph. graph.names ≡ names.items) }
        ensures labels { IfOk result (λ graph. graph.labels ≡ labels.items) }
        ensures related { IfOk result (λ graph. (kind : Kind) (a b : ℕ) → (rules_of graph).related kind a b ≡ is_listed pairs.items kind a b) }
        ensures no_clash { OnOk result (first_clash (rules_listed (vec_len names) pairs.items) ≡ None) }
        ensures clash { IfErr result (TellsClash (first_clash (rules_listed (vec_len names) pairs.items))) }
    {
        let mut graph = Graph::without_relations(alloc, names, labels)?;
        graph.relate_all(&pairs);
        graph.without_clash()
    }

    /// The graph of these atoms and of a table of pairs for each kind, by its number. `Clash` comes exactly
    /// where an include pair is an exclude pair, with the least such pair. Takes no memory.
    pub fn of_tables(
        names: AtomNames,
        labels: Vec<Label>,
        tables: Vec<Table>,
    ) -> Result<Graph, GraphStop>
        requires most { length names ≤ MAX_ATOMS }
        requires as_many_labels { vec_len labels ≡ length names }
        requires distinct { AreDistinct names }
        requires six_kinds { vec_len tables ≡ 6 }
        requires as_many_rows { All (λ table. length table ≡ length names) tables.items }
        ensures made { IfOk result (λ graph. graph ≡ flat names labels.items tables.items) }
        ensures no_clash { OnOk result (first_clash (rules_of (flat names labels.items tables.items)) ≡ None) }
        ensures clash { IfErr result (TellsClash (first_clash (rules_of (flat names labels.items tables.items)))) }
        ensures no_memory_taken { result ≢ Err GraphStop.NoMemory }
    {
        let graph = Graph {
            names,
            labels,
            tables,
        };
        graph.without_clash()
    }

    // The atoms alone.
    fn without_relations(
        alloc: Global,
        names: Vec<Name>,
        labels: Vec<Label>,
    ) -> Result<Graph, NoMemory>
        requires most { vec_len names ≤ MAX_ATOMS }
        requires as_many_labels { vec_len labels ≡ vec_len names }
        requires distinct { AreDistinct names.items }
        ensures names { IfOk result (λ graph. graph.names ≡ names.items) }
        ensures labels { IfOk result (λ graph. graph.labels ≡ labels.items) }
        ensures related { IfOk result (λ graph. (kind : Kind) (a b : ℕ) → (rules_of graph).related kind a b ≡ is_listed [] kind a b) }
    {
        let names = AtomNames::new(alloc, names)?;
        let tables = empty_tables(alloc, names.count())?;
        Ok(Graph {
            names,
            labels,
            tables,
        })
    }

    // Adds all the pairs.
    fn relate_all(&mut self, pairs: &[(Kind, EventId, EventId)])
        requires { AreInRange (length self.old.names) pairs.now }
        ensures names { self.new.names ≡ self.old.names }
        ensures labels { self.new.labels ≡ self.old.labels }
        ensures related { (k : Kind) (x y : ℕ) → (rules_of self.new).related k x y ≡ ((rules_of self.old).related k x y || is_listed pairs.now k x y) }
    {
        for pair in pairs {
            self.relate(pair.0, pair.1, pair.2);
        }
    }

    // Adds a pair.
    fn relate(&mut self, kind: Kind, a: EventId, b: EventId)
        requires source { a < length self.old.names }
        requires target { b < length self.old.names }
        ensures names { self.new.names ≡ self.old.names }
        ensures labels { self.new.labels ≡ self.old.labels }
        ensures related { (k : Kind) (x y : ℕ) → (rules_of self.new).related k x y
            ≡ ((rules_of self.old).related k x y || (same_kind kind k && ((a == x) && (b == y)))) }
    {
        let table = &mut self.tables[kind.number()];
        table.add(a, b);
    }

    // This graph, or its clash.
    fn without_clash(self) -> Result<Graph, GraphStop>
        ensures same { IfOk result (λ graph. graph ≡ self) }
        ensures no_clash { OnOk result (first_clash (rules_of self) ≡ None) }
        ensures clash { IfErr result (TellsClash (first_clash (rules_of self))) }
        ensures no_memory_taken { result ≢ Err GraphStop.NoMemory }
    {
        if let Some(pair) = self.clash() {
            return Err(GraphStop::Clash {
                a: pair.0,
                b: pair.1,
            });
        }
        Ok(self)
    }

    // The least pair that is both an include and an exclude.
    fn clash(&self) -> Option<(EventId, EventId)>
        ensures { result ≡ first_clash (rules_of self.now) }
    {
        for number in 0..self.atoms() {
            let a = EventId(number);
            if let Some(b) = self
                .targets(Kind::Include, a)
                .first_common(self.targets(Kind::Exclude, a))
            {
                return Some((a, b));
            }
        }
        None
    }

    /// How many atoms there are. No two of them have one name.
    pub fn atoms(&self) -> u16
        ensures atoms { result ≡ length self.now.names }
        ensures most { length self.now.names ≤ MAX_ATOMS }
        ensures distinct { AreDistinct self.now.names }
    {
        self.names.count()
    }

    /// The name of an atom.
    pub fn name(&self, e: EventId) -> &Name
        requires { e < length self.now.names }
        ensures { result.now ≡ slice_index_or self.now.names e [] }
    {
        self.names.name(e.0)
    }

    /// The names of the atoms from this one on and before the number, each behind a comma.
    pub fn names_from(&self, from: EventId, to: u16) -> &[u8]
        requires from { from ≤ to }
        requires to { to ≤ length self.now.names }
        ensures { result.now ≡ comma_names self.now.names (range_with_len from (to - from)) }
    {
        self.names.run(from.0, to)
    }

    /// The label of an atom.
    pub fn label(&self, e: EventId) -> &Label
        requires { e < length self.now.names }
        ensures { result.now ≡ slice_index_or self.now.labels e [] }
    {
        &self.labels[usize::from(e.0)]
    }

    /// The atom with this name. None exactly where no atom has it.
    pub fn find(&self, name: &str) -> Option<EventId>
        ensures { result ≡ number_of self.now.names name.now }
    {
        for number in 0..self.atoms() {
            let e = EventId(number);
            if self.name(e).text() == name {
                return Some(e);
            }
        }
        None
    }

    /// The atoms that are related to e by the kind.
    pub fn sources(&self, kind: Kind, e: EventId) -> &EventSet
        requires { e < length self.now.names }
        ensures sources { result.now ≡ those (length self.now.names) (λ a. (rules_of self.now).related kind a e) }
        ensures room { length result.now ≡ length self.now.names }
    {
        self.tables[kind.number()].sources(e)
    }

    /// The atoms that e is related to by the kind.
    pub fn targets(&self, kind: Kind, e: EventId) -> &EventSet
        requires { e < length self.now.names }
        ensures targets { result.now ≡ those (length self.now.names) (λ b. (rules_of self.now).related kind e b) }
        ensures room { length result.now ≡ length self.now.names }
    {
        self.tables[kind.number()].targets(e)
    }

    /// The atoms that are related by the kind to one of these, a set over the atoms.
    pub fn sources_into(&self, kind: Kind, targets: &EventSet) -> EventSet
        requires { length targets.now ≡ length self.now.names }
        ensures sources { result ≡ those (length self.now.names) (leads_to (rules_of self.now) kind (has targets.now)) }
        ensures room { length result ≡ length self.now.names }
    {
        let mut sources = EventSet::new(self.atoms());
        for e in targets.iter() {
            sources.union_with(self.sources(kind, e));
        }
        sources
    }
}

// No pair of any of the six kinds, between so many atoms.
fn empty_tables(alloc: Global, atoms: u16) -> Result<Vec<Table>, NoMemory>
    requires { atoms ≤ 1024 }
    ensures { IfOk result (λ tables. tables.items ≡ replicate 6 (replicate atoms (no_event atoms))) }
{
    let mut tables = Vec::with_capacity(alloc, 6)?;
    for _ in 0..6u16 {
        tables.push(Table::new(alloc, atoms)?)?;
    }
    Ok(tables)
}
