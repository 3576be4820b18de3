ghost use Rattle.std.specs.Prelude.{◌≡◌, ◌≤◌, ℕ, List, length, map, vec_len, is_some, IfOk, IfErr};
ghost use Rattle.std.specs.List.{list_any};
ghost use Rattle.std.specs.Str.{bytes_eq};
ghost use Rattle.serde_json.specs.View.{view};
ghost use Rattle.dcr_graph.specs.Names.{number_of};
ghost use Rattle.dcr_format.specs.Facts.{Judges, at_most, refusal};
ghost use Rattle.dcr_format.specs.declared.limits.TheConstants.{MAX_ATOMS};
ghost use Rattle.dcr_format.specs.declared.stop.CaseStop.TheVariants.{NoMemory};
ghost use Rattle.dcr_format.specs.declared.stop.LimitKind.TheVariants.{Atoms};
ghost use Rattle.dcr_graph_json.specs.Limits.{atoms_in, is_parent_name};

use crate::event::{name, parent};
use dcr_format::{CaseStop, LimitKind, MAX_ATOMS, try_count};
use dcr_graph::NameIndex;
use serde_json::Value;
use std::alloc::Global;

// Whether there are few enough atoms. Takes no memory where there are no more nodes than that.
pub(crate) fn try_atoms(alloc: Global, events: &[Value]) -> Result<(), CaseStop>
    requires { length events.now ≤ 2048 }
    ensures fact { Judges (at_most Atoms MAX_ATOMS (atoms_in (map view events.now))) result }
    ensures few { length events.now ≤ 1024 → refusal result ≡ at_most Atoms MAX_ATOMS (atoms_in (map view events.now)) }
{
    if events.len() <= MAX_ATOMS {
        return Ok(());
    }
    let atoms = count_atoms(alloc, events)?;
    try_count(LimitKind::Atoms, MAX_ATOMS, atoms)?;
    Ok(())
}

// The number of events that are no event's parent, by text.
fn count_atoms(alloc: Global, events: &[Value]) -> Result<usize, CaseStop>
    requires { length events.now ≤ 2048 }
    ensures count { IfOk result (λ n. n ≡ atoms_in (map view events.now)) }
    ensures memory { IfErr result (λ stop. stop ≡ NoMemory) }
{
    let parents = index_parents(alloc, events)?;
    let mut atoms = 0;
    for event in events {
        if parents.find(name(event).as_bytes()).is_none() {
            atoms += 1;
        }
    }
    Ok(atoms)
}

// The texts that stand as parents, by text.
fn index_parents<'v>(alloc: Global, events: &'v [Value]) -> Result<NameIndex<'v>, CaseStop>
    requires { length events.now ≤ 2048 }
    ensures parents { IfOk result (λ index. (name : List ℕ) → is_some (number_of index name) ≡ is_parent_name (map view events.now) name) }
    ensures memory { IfErr result (λ stop. stop ≡ NoMemory) }
{
    let texts = read_parents(alloc, events)?;
    let parents = NameIndex::new(alloc, texts)?;
    Ok(parents)
}

// The texts that stand as parents, in order.
fn read_parents<'v>(alloc: Global, events: &'v [Value]) -> Result<Vec<&'v [u8]>, CaseStop>
    ensures most { IfOk result (λ parents. vec_len parents ≤ length events.now) }
    ensures parents { IfOk result (λ parents. (name : List ℕ) → list_any (λ parent. bytes_eq name parent.now) parents.items ≡ is_parent_name (map view events.now) name) }
    ensures memory { IfErr result (λ stop. stop ≡ NoMemory) }
{
    let mut parents = Vec::new(alloc);
    for event in events {
        if let Some(parent) = parent(event) {
            parents.push(parent.as_bytes())?;
        }
    }
    Ok(parents)
}
