ghost use Rattle.std.specs.Prelude.{◌≡◌, ℕ, ◌<◌, ◌↔◌, List, Bool, true, [], length, map, All, Contains, IfOk, slice_index_or};
ghost use Rattle.std.specs.List.{range_with_len};
ghost use Rattle.std.specs.List.Sorted.{IsStrictlyIncreasing};
ghost use Rattle.dcr_set.specs.EventSet.{has};
ghost use Rattle.dcr_proj.specs.NetworkValue.{IsNetwork, participants_of, lists_of};

use dcr_set::{EventId, EventSet, NoMemory, SiteId};
use std::alloc::Global;
use std::marker::Model;

/// Which sites must hear of an event: those whose alphabet has it. The sites of each event are listed once,
/// so that a call costs no more than the sites that it gives. A network has no relation. Contracts see it
/// as the list of the alphabets, which meets `IsNetwork`.
#[derive(Drop)]
pub struct Network {
    alphabets: Vec<EventSet>,
    participants: Vec<Vec<SiteId>>,
}

impl Model for Network {
    ghost use Rattle.std.specs.Prelude.{List};
    ghost use Rattle.dcr_set.specs.EventSet.{Set};

    ghost Value = { List Set };

    ghost use Rattle.dcr_proj.specs.NetworkModel.{alphabets_of, FitsNetwork};

    ghost view = { alphabets_of };

    ghost invariant = { FitsNetwork };
}

impl Network {
    ghost use Rattle.std.specs.Prelude.{◌≡◌, ◌<◌, [], length, IfOk, slice_index_or};
    ghost use Rattle.dcr_proj.specs.CoverValue.{atoms_of};
    ghost use Rattle.dcr_proj.specs.NetworkValue.{IsNetwork, participants_of};

    /// The network of sites with these alphabets: set i is the alphabet of site i.
    pub fn new(alloc: Global, alphabets: Vec<EventSet>) -> Result<Network, NoMemory>
        requires { IsNetwork alphabets.items }
        ensures { IfOk result (λ network. network ≡ alphabets.items) }
    {
        let participants = list_participants(alloc, &alphabets)?;
        Ok(Network {
            alphabets,
            participants,
        })
    }

    /// How many sites there are.
    pub fn sites(&self) -> u16
        ensures sites { result ≡ length self.now }
        ensures network { IsNetwork self.now }
    {
        self.alphabets.len() as u16
    }

    /// The events that a site must hear of.
    pub fn alphabet(&self, i: SiteId) -> &EventSet
        requires { i < length self.now }
        ensures alphabet { result.now ≡ slice_index_or self.now i [] }
        ensures room { length result.now ≡ atoms_of self.now }
        ensures network { IsNetwork self.now }
    {
        &self.alphabets[usize::from(i.0)]
    }

    /// The sites that must hear of an event, ascending.
    pub fn participants(&self, e: EventId) -> &[SiteId]
        requires { e < atoms_of self.now }
        ensures participants { result.now ≡ participants_of self.now e }
        ensures network { IsNetwork self.now }
    {
        &self.participants[usize::from(e.0)]
    }
}

// The participants of each event.
fn list_participants(alloc: Global, alphabets: &[EventSet]) -> Result<Vec<Vec<SiteId>>, NoMemory>
    requires { IsNetwork alphabets.now }
    ensures { IfOk result (λ lists. map (λ list. list.items) lists.items ≡ lists_of alphabets.now) }
{
    let atoms = alphabets[0].room();
    let mut lists = Vec::with_capacity(alloc, usize::from(atoms))?;
    for number in 0..atoms {
        let list = list_of(alloc, alphabets, EventId(number))?;
        lists.push(list)?;
    }
    Ok(lists)
}

// The participants of one event.
fn list_of(alloc: Global, alphabets: &[EventSet], e: EventId) -> Result<Vec<SiteId>, NoMemory>
    requires { IsNetwork alphabets.now }
    ensures { IfOk result (λ list. list.items ≡ participants_of alphabets.now e) }
{
    let mut list = Vec::new(alloc);
    for i in 0..alphabets.len() {
        if alphabets[i].contains(e) {
            list.push(SiteId(i as u16))?;
        }
    }
    Ok(list)
}

/// The participants of an event are exactly the sites whose alphabet has it, ascending.
pub fn participants_are_those_who_hear()
    ensures members { (alphabets : List (List Bool)) (e i : ℕ) → Contains (participants_of alphabets e) i ↔ (has (slice_index_or alphabets i []) e ≡ true) }
    ensures ascending { (alphabets : List (List Bool)) (e : ℕ) → IsStrictlyIncreasing (participants_of alphabets e) }
    ensures below { (alphabets : List (List Bool)) (e : ℕ) → All (λ i. i < length alphabets) (participants_of alphabets e) }
{}
