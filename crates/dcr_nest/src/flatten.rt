ghost use Rattle.std.specs.Prelude.{◌≡◌, ℕ, ◌<◌, ◌≤◌, false, ◌||◌, [], length, map, IfOk, slice_index_or};
ghost use Rattle.std.specs.List.{All, list_any, range_with_len};
ghost use Rattle.dcr_set.specs.EventSet.{has};
ghost use Rattle.dcr_graph.specs.Pairs.{Pair, AreInRange};
ghost use Rattle.dcr_graph.specs.Rows.{row, leads};
ghost use Rattle.dcr_graph.specs.Rules.{kind_number};
ghost use Rattle.dcr_nest.specs.Tree.{Parents, AreEarlier, meets, atoms, atoms_below};
ghost use Rattle.dcr_nest.specs.Nest.{names_of, labels_of};
ghost use Rattle.dcr_nest.specs.FlatRelation.{gathers, related_rows};

use crate::Node;
use crate::sets::{add, empty};
use crate::tree::Tree;
use dcr_graph::{Kind, Label, Name, Table};
use dcr_set::{EventSet, NoMemory};
use std::alloc::Global;

/// The names of these nodes.
pub(crate) fn names(alloc: Global, atoms: &[u16], nodes: &[Node]) -> Result<Vec<Name>, NoMemory>
    requires { All (λ x. x < length nodes.now) atoms.now }
    ensures { IfOk result (λ names. names.items ≡ map (λ x. slice_index_or (names_of nodes.now) x []) atoms.now) }
{
    let mut names = Vec::with_capacity(alloc, atoms.len())?;
    for x in atoms {
        names.push(nodes[usize::from(*x)].name.copy(alloc)?)?;
    }
    Ok(names)
}

/// The labels of these nodes.
pub(crate) fn labels(alloc: Global, atoms: &[u16], nodes: &[Node]) -> Result<Vec<Label>, NoMemory>
    requires { All (λ x. x < length nodes.now) atoms.now }
    ensures { IfOk result (λ labels. labels.items ≡ map (λ x. slice_index_or (labels_of nodes.now) x []) atoms.now) }
{
    let mut labels = Vec::with_capacity(alloc, atoms.len())?;
    for x in atoms {
        labels.push(nodes[usize::from(*x)].label.copy(alloc)?)?;
    }
    Ok(labels)
}

/// The pairs of atoms of each kind, by its number, that the written relations relate.
pub(crate) fn tables(
    alloc: Global,
    tree: &Tree,
    relations: &[(Kind, u16, u16)],
) -> Result<Vec<Table>, NoMemory>
    requires { AreInRange (length tree.now) relations.now }
    ensures { IfOk result (λ tables. tables.items ≡ map (related_rows tree.now relations.now) (range_with_len 0 6)) }
{
    let below = tree.all_below(alloc)?;
    let turned = turned(alloc, relations)?;
    let mut tables = Vec::with_capacity(alloc, 6)?;
    for kind in 0..6usize {
        let targets = rows(alloc, tree, &below, relations, kind)?;
        let sources = rows(alloc, tree, &below, &turned, kind)?;
        tables.push(Table::of_rows(targets, sources))?;
    }
    Ok(tables)
}

// The relations from their second node to their first.
fn turned(alloc: Global, relations: &[(Kind, u16, u16)]) -> Result<Vec<(Kind, u16, u16)>, NoMemory>
    ensures { IfOk result (λ turned. turned.items ≡ map (λ (pair : Pair). (pair.0, pair.2, pair.1)) relations.now) }
{
    let mut turned = Vec::with_capacity(alloc, relations.len())?;
    for pair in relations {
        turned.push((pair.0, pair.2, pair.1))?;
    }
    Ok(turned)
}

// For each atom the atoms that the relations of one kind relate it to. What a node is related to is first
// gathered at the node, and then handed down from each parent to its children.
fn rows(
    alloc: Global,
    tree: &Tree,
    below: &[EventSet],
    relations: &[(Kind, u16, u16)],
    kind: usize,
) -> Result<Vec<EventSet>, NoMemory>
    requires below { below.now ≡ map (atoms_below tree.now) (range_with_len 0 (length tree.now)) }
    requires ends { AreInRange (length tree.now) relations.now }
    ensures related { IfOk result (λ rows. rows.items ≡ related_rows tree.now relations.now kind) }
    ensures most { length (atoms tree.now) ≤ 1024 }
{
    let room = tree.atoms().len() as u16;
    let mut spread = empty(alloc, tree.parents().len(), room)?;
    gather(&mut spread, below, relations, kind);
    hand_down(&mut spread, tree.parents());
    at(alloc, tree.atoms(), &spread)
}

// Adds to the set of the first node of each relation of the kind the atoms below its second.
fn gather(rows: &mut Vec<EventSet>, below: &[EventSet], relations: &[(Kind, u16, u16)], kind: usize)
    requires many { length rows.old.items ≡ length below.now }
    requires ends { AreInRange (length below.now) relations.now }
    requires rooms { (x y : ℕ) → x < length below.now → y < length below.now
        → length (row rows.old.items x) ≡ length (row below.now y) }
    ensures many { length rows.new.items ≡ length rows.old.items }
    ensures rooms { (x : ℕ) → length (row rows.new.items x) ≡ length (row rows.old.items x) }
    ensures gathered { (x b : ℕ) → leads rows.new.items x b ≡ (leads rows.old.items x b
        || list_any (gathers below.now kind x b) relations.now) }
{
    for pair in relations {
        if pair.0.number() == kind {
            add(rows, pair.1, &below[usize::from(pair.2)]);
        }
    }
}

// Adds to the set of each node what the set of its parent has.
fn hand_down(rows: &mut Vec<EventSet>, parents: &[Option<u16>])
    requires most { length parents.now ≤ 2048 }
    requires earlier { AreEarlier parents.now }
    requires many { length rows.old.items ≡ length parents.now }
    requires rooms { (x y : ℕ) → x < length parents.now → y < length parents.now
        → length (row rows.old.items x) ≡ length (row rows.old.items y) }
    ensures many { length rows.new.items ≡ length rows.old.items }
    ensures rooms { (x : ℕ) → length (row rows.new.items x) ≡ length (row rows.old.items x) }
    ensures handed { (x b : ℕ) → x < length parents.now → leads rows.new.items x b
        ≡ meets parents.now (λ z. leads rows.old.items z b) (length parents.now) x }
{
    for x in 0..parents.len() as u16 {
        if let Some(parent) = parents[usize::from(x)] {
            let above = rows[usize::from(parent)].copy();
            add(rows, x, &above);
        }
    }
}

// The sets of these nodes.
fn at(alloc: Global, atoms: &[u16], rows: &[EventSet]) -> Result<Vec<EventSet>, NoMemory>
    requires { All (λ x. x < length rows.now) atoms.now }
    ensures { IfOk result (λ sets. sets.items ≡ map (row rows.now) atoms.now) }
{
    let mut sets = Vec::with_capacity(alloc, atoms.len())?;
    for x in atoms {
        sets.push(rows[usize::from(*x)].copy())?;
    }
    Ok(sets)
}
