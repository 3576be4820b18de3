// Networks, and kept values, for the rows of the journal's lock.
ghost use Rattle.std.specs.Prelude.{◌≡◌, ◌<◌, ◌≤◌, length, IfOk};
ghost use Rattle.std.specs.List.{All};
ghost use Rattle.dcr_turn_rows.specs.Own.{HaveOwnEvents};

use dcr_proj::Network;
use dcr_set::{EventId, EventSet, NoMemory};
use dcr_turn::Keeps;
use std::alloc::Global;

/// Stands for every list.
#[derive(Drop)]
pub(crate) struct Anything;

impl Keeps for Anything {
    ghost stands = { λ _ _. Unit {0} };
}

// So many sets over 16 atoms, each with the atom of its number.
fn own_sets(alloc: Global, count: u16) -> Result<Vec<EventSet>, NoMemory>
    requires { count ≤ 16 }
    ensures count { IfOk result (λ sets. length sets.items ≡ count) }
    ensures rooms { IfOk result (λ sets. All (λ set. length set ≡ 16) sets.items) }
    ensures own { IfOk result (λ sets. HaveOwnEvents sets.items) }
{
    let mut sets = Vec::new(alloc);
    for i in 0..count {
        let mut set = EventSet::new(16);
        set.insert(EventId(i));
        sets.push(set)?;
    }
    Ok(sets)
}

/// The network of so many sites, 1 to 16, over 16 atoms, of which each hears of its own event alone.
pub(crate) fn own_network(alloc: Global, sites: u16) -> Result<Network, NoMemory>
    requires some { 0 < sites }
    requires most { sites ≤ 16 }
    ensures sites { IfOk result (λ network. length network ≡ sites) }
    ensures own { IfOk result HaveOwnEvents }
{
    let sets = own_sets(alloc, sites)?;
    Network::new(alloc, sets)
}
