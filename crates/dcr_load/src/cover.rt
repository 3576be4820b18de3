ghost use Rattle.std.specs.Prelude.{◌≡◌, true, IfOk};
ghost use Rattle.dcr_set.specs.EventSet.{those};
ghost use Rattle.dcr_load.specs.Each.{each_below};
ghost use Rattle.dcr_load.specs.LoadCover.{site_name, owns, owned_by, load_cover, load_opening};

use crate::draw::pick;
use crate::graph::ATOMS;
use crate::names::site_name;
use dcr_graph::{Marking, Name};
use dcr_proj::Cover;
use dcr_set::{EventId, EventSet, NoMemory};
use std::alloc::Global;

/// How many sites there are.
pub(crate) const SITES: u16 = 12;

// The cover of a number.
pub(crate) fn cover(alloc: Global, number: u32) -> Result<Cover, NoMemory>
    ensures { IfOk result (λ cover. cover ≡ load_cover number) }
{
    let names = names(alloc)?;
    let owned = owned_sets(alloc, number)?;
    Ok(Cover::new(names, owned))
}

// The marking that every load opens with.
pub(crate) fn opening() -> Marking
    ensures { result ≡ load_opening }
{
    Marking {
        executed: EventSet::new(ATOMS),
        pending: EventSet::new(ATOMS),
        included: all_atoms(),
    }
}

// The names of the sites.
#[tactic(auto, using(crate::proofs::EachLemmas::each))]
fn names(alloc: Global) -> Result<Vec<Name>, NoMemory>
    ensures { IfOk result (λ names. names.items ≡ each_below 12 site_name) }
{
    let mut names = Vec::with_capacity(alloc, usize::from(SITES))?;
    for i in 0..SITES {
        names.push(site_name(alloc, i)?)?;
    }
    Ok(names)
}

// What each site owns.
#[tactic(auto, using(crate::proofs::EachLemmas::each))]
fn owned_sets(alloc: Global, number: u32) -> Result<Vec<EventSet>, NoMemory>
    ensures { IfOk result (λ sets. sets.items ≡ each_below 12 (owned_by number)) }
{
    let mut sets = Vec::with_capacity(alloc, usize::from(SITES))?;
    for site in 0..SITES {
        sets.push(owned(number, site))?;
    }
    Ok(sets)
}

// What a site owns.
fn owned(number: u32, site: u16) -> EventSet
    ensures { result ≡ owned_by number site }
{
    let mut set = EventSet::new(ATOMS);
    for atom in 0..ATOMS {
        if owns(number, site, atom) {
            set.insert(EventId(atom));
        }
    }
    set
}

// Whether a site owns an atom.
fn owns(number: u32, site: u16, atom: u16) -> bool
    ensures { result ≡ owns number site atom }
{
    site == atom % SITES || site == pick(number, u32::from(atom), SITES)
}

// All atoms.
fn all_atoms() -> EventSet
    ensures { result ≡ those 200 (λ _. true) }
{
    let mut set = EventSet::new(ATOMS);
    for atom in 0..ATOMS {
        set.insert(EventId(atom));
    }
    set
}
