// The atoms that ask for roles, as sets.
ghost use Rattle.std.specs.Prelude.{◌≡◌, ℕ, ◌<◌, ◌≤◌, length, map, replicate, IfOk};
ghost use Rattle.std.specs.List.{All, list_any, range_with_len};
ghost use Rattle.dcr_set.specs.EventSet.{no_event, those};
ghost use Rattle.dcr_graph.specs.Rows.{row, leads};
ghost use Rattle.dcr_policy.specs.Numbered.{AreBelow};
ghost use Rattle.dcr_policy.specs.Sets.{AreAsking, AreJoined};

use crate::RoleList;
use dcr_set::{EventSet, NoMemory};
use std::alloc::Global;

/// For each of so many roles the atoms that ask for it: those below a node that has it for its own.
pub(crate) fn asking(
    alloc: Global,
    count: usize,
    own: &[RoleList],
    below: &[EventSet],
    room: u16,
) -> Result<Vec<EventSet>, NoMemory>
    requires most { room ≤ 1024 }
    requires as_many { length below.now ≡ length own.now }
    requires known { AreBelow count own.now }
    requires rooms { All (λ set. length set ≡ room) below.now }
    ensures { IfOk result (λ sets. AreAsking own.now below.now (range_with_len 0 (length own.now)) count room sets.items) }
{
    let mut sets = empty(alloc, count, room)?;
    for x in 0..own.len() {
        join_each(&mut sets, own[x].all(), &below[x]);
    }
    Ok(sets)
}

// So many empty sets.
fn empty(alloc: Global, count: usize, room: u16) -> Result<Vec<EventSet>, NoMemory>
    requires { room ≤ 1024 }
    ensures { IfOk result (λ sets. sets.items ≡ replicate count (no_event room)) }
{
    let mut sets = Vec::with_capacity(alloc, count)?;
    for _ in 0..count {
        sets.push(EventSet::new(room))?;
    }
    Ok(sets)
}

// Adds to the set of each of these roles what another set has.
fn join_each(sets: &mut Vec<EventSet>, roles: &[usize], more: &EventSet)
    requires known { All (λ role. role < length sets.old.items) roles.now }
    requires rooms { (role : ℕ) → role < length sets.old.items → length (row sets.old.items role) ≡ length more.now }
    ensures { AreJoined sets.old.items roles.now more.now sets.new.items }
{
    for role in roles {
        let set = &mut sets[*role];
        set.union_with(more);
    }
}

/// For each user the atoms that ask for one of his roles.
pub(crate) fn granted(
    alloc: Global,
    users: &[RoleList],
    asking: &[EventSet],
    room: u16,
) -> Result<Vec<EventSet>, NoMemory>
    requires most { room ≤ 1024 }
    requires rooms { (role : ℕ) → role < length asking.now → length (row asking.now role) ≡ room }
    requires known { AreBelow (length asking.now) users.now }
    ensures { IfOk result (λ sets. sets.items
        ≡ map (λ roles. those room (λ a. list_any (λ role. leads asking.now role a) roles)) users.now) }
{
    let mut sets = Vec::with_capacity(alloc, users.len())?;
    for roles in users {
        sets.push(joined(roles.all(), asking, room))?;
    }
    Ok(sets)
}

// The atoms that are in one of the sets with these numbers.
fn joined(roles: &[usize], sets: &[EventSet], room: u16) -> EventSet
    requires most { room ≤ 1024 }
    requires rooms { (role : ℕ) → role < length sets.now → length (row sets.now role) ≡ room }
    requires known { All (λ role. role < length sets.now) roles.now }
    ensures { result ≡ those room (λ a. list_any (λ role. leads sets.now role a) roles.now) }
{
    let mut set = EventSet::new(room);
    for role in roles {
        set.union_with(&sets[*role]);
    }
    set
}
