// A set of atoms for each node.
ghost use Rattle.std.specs.Prelude.{◌≡◌, ◌<◌, ◌≤◌, ◌==◌, length, map, replicate, IfOk, slice_set, slice_index_or};
ghost use Rattle.std.specs.List.{All, range_with_len};
ghost use Rattle.dcr_set.specs.EventSet.{no_event, those, union};
ghost use Rattle.dcr_graph.specs.Rows.{row};
ghost use Rattle.dcr_nest.specs.Tree.{AreEarlier, atoms, atoms_below};

use dcr_set::{EventId, EventSet, NoMemory};
use std::alloc::Global;

/// So many empty sets.
pub(crate) fn empty(alloc: Global, count: usize, room: u16) -> Result<Vec<EventSet>, NoMemory>
    requires { room ≤ 1024 }
    ensures { IfOk result (λ sets. sets.items ≡ replicate count (no_event room)) }
{
    let mut sets = Vec::with_capacity(alloc, count)?;
    for _ in 0..count {
        sets.push(EventSet::new(room))?;
    }
    Ok(sets)
}

/// Adds to one of the sets.
pub(crate) fn add(rows: &mut Vec<EventSet>, at: u16, more: &EventSet)
    requires at { at < length rows.old.items }
    requires room { length (row rows.old.items at) ≡ length more.now }
    ensures { rows.new.items ≡ slice_set rows.old.items at (union (row rows.old.items at) more.now) }
{
    let row = &mut rows[usize::from(at)];
    row.union_with(more);
}

/// For each of so many nodes the set that has itself, where it is one of the atoms.
pub(crate) fn own(alloc: Global, atoms: &[u16], count: usize) -> Result<Vec<EventSet>, NoMemory>
    requires most { length atoms.now ≤ 1024 }
    requires nodes { All (λ x. x < count) atoms.now }
    ensures { IfOk result (λ sets. sets.items
        ≡ map (λ y. those (length atoms.now) (λ e. slice_index_or atoms.now e 0 == y)) (range_with_len 0 count)) }
{
    let room = atoms.len() as u16;
    let mut sets = empty(alloc, count, room)?;
    for e in 0..room {
        let set = &mut sets[usize::from(atoms[usize::from(e)])];
        set.insert(EventId(e));
    }
    Ok(sets)
}

/// Adds to the set of each parent what the sets of its children have, from the last node on down, so that a set has
/// all that is added to it before it is added to another.
pub(crate) fn hand_up(sets: &mut Vec<EventSet>, parents: &[Option<u16>])
    requires most { length parents.now ≤ 2048 }
    requires earlier { AreEarlier parents.now }
    requires own { sets.old.items ≡ map (λ y. those (length (atoms parents.now)) (λ e. slice_index_or (atoms parents.now) e 0 == y))
        (range_with_len 0 (length parents.now)) }
    ensures { sets.new.items ≡ map (atoms_below parents.now) (range_with_len 0 (length parents.now)) }
{
    for x in (0..parents.len() as u16).rev() {
        if let Some(parent) = parents[usize::from(x)] {
            let below = sets[usize::from(x)].copy();
            add(sets, parent, &below);
        }
    }
}
