use dcr_graph::Name;
use dcr_set::{EventSet, SiteId};
use std::marker::Model;

/// The sites of a graph: 1 to 64 of them, with distinct names, each with the set of the atoms that it owns.
/// Each atom is owned by one of them at least. Contracts see it as `Owners`, which meet `IsCover`.
#[derive(Drop)]
pub struct Cover {
    names: Vec<Name>,
    owned: Vec<EventSet>,
}

impl Model for Cover {
    ghost use Rattle.dcr_proj.specs.CoverValue.{Owners};

    ghost Value = { Owners };

    ghost use Rattle.dcr_proj.specs.CoverModel.{owners_of, FitsCover};

    ghost view = { owners_of };

    ghost invariant = { FitsCover };
}

impl Cover {
    ghost use Rattle.std.specs.Prelude.{◌≡◌, ◌<◌, length, [], slice_index_or};
    ghost use Rattle.dcr_graph.specs.Names.{number_of};
    ghost use Rattle.dcr_proj.specs.CoverValue.{atoms_of, owners, IsCover};

    /// The cover with these sites, named and with their sets in the same order. It takes no memory.
    pub fn new(names: Vec<Name>, owned: Vec<EventSet>) -> Cover
        requires { IsCover (owners names.items owned.items) }
        ensures { result ≡ owners names.items owned.items }
    {
        Cover { names, owned }
    }

    /// How many sites there are.
    pub fn sites(&self) -> u16
        ensures sites { result ≡ length self.now.names }
        ensures cover { IsCover self.now }
    {
        self.names.len() as u16
    }

    /// The name of a site.
    pub fn name(&self, i: SiteId) -> &Name
        requires { i < length self.now.names }
        ensures { result.now ≡ slice_index_or self.now.names i [] }
    {
        &self.names[usize::from(i.0)]
    }

    /// The atoms that a site owns.
    pub fn owned(&self, i: SiteId) -> &EventSet
        requires { i < length self.now.names }
        ensures owned { result.now ≡ slice_index_or self.now.owned i [] }
        ensures room { length result.now ≡ atoms_of self.now.owned }
        ensures cover { IsCover self.now }
    {
        &self.owned[usize::from(i.0)]
    }

    /// The names of the sites, in order.
    pub fn site_names(&self) -> &[Name]
        ensures names { result.now ≡ self.now.names }
        ensures cover { IsCover self.now }
    {
        &self.names
    }

    /// The set of each site, in the order of the sites.
    pub fn owned_sets(&self) -> &[EventSet]
        ensures owned { result.now ≡ self.now.owned }
        ensures cover { IsCover self.now }
    {
        &self.owned
    }

    /// The site with this name. None exactly where no site has it.
    pub fn find(&self, name: &str) -> Option<SiteId>
        ensures { result ≡ number_of self.now.names name.now }
    {
        for number in 0..self.sites() {
            let i = SiteId(number);
            if self.name(i).text() == name {
                return Some(i);
            }
        }
        None
    }
}
