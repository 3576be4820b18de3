ghost use Rattle.std.specs.Prelude.{◌≡◌, ◌≢◌, ℕ, ◌<◌, ◌≤◌, ◌^◌, ◌==◌, true, false, not, is_some, length, map, position, All, IfOk, IfErr, OnOk};
ghost use Rattle.std.specs.Option.{option_map_or};
ghost use Rattle.std.specs.Str.{bytes_eq};
ghost use Rattle.dcr_set.specs.Least.{IsLeast};
ghost use Rattle.dcr_graph.specs.Names.{number_of};
ghost use Rattle.dcr_proj.specs.CoverValue.{owners};
ghost use Rattle.dcr_format.specs.Facts.{facts_below, first};
ghost use Rattle.dcr_graph_json.specs.Build.{atom_names, is_new_name};
ghost use Rattle.dcr_cover_json.specs.Build.{site_fact};
ghost use Rattle.dcr_cover_json.specs.Check.{Checks};
ghost use Rattle.dcr_cover_json.specs.Sites.{cover_in, names_in, node_named, owned_at, set_meant, site_at};
ghost use Rattle.dcr_cover_json.specs.declared.stop.CoverStop.TheVariants.{NoMemory, SiteName, Uncovered};

use crate::CoverStop;
use crate::index::Index;
use crate::site::AsSiteText;
use dcr_graph::{Name, NameStop};
use dcr_set::EventSet;
use std::alloc::Global;

// The names of the sites and what they own, or what is wrong with the first site with which something is.
pub(crate) fn read_sites<S: AsSiteText>(
    alloc: Global,
    index: &Index<'_>,
    sites: &[S],
) -> Result<(Vec<Name>, Vec<EventSet>), CoverStop>
    requires most { length sites.now ≤ 64 }
    requires texts { All (λ site. length (S.written site).1 < 2 ^ 32) sites.now }
    ensures facts { Checks (atom_names index.now.nested.now) (first (facts_below (length (map S.written sites.now)) (site_fact index.now.nested.now (map S.written sites.now)))) result }
    ensures atoms { IfErr result (λ stop. (a : ℕ) → stop ≢ Uncovered a) }
    ensures cover { IfOk result (λ read. owners read.0.items read.1.items ≡ cover_in index.now.nested.now (map S.written sites.now)) }
{
    let mut names = Vec::new(alloc);
    let mut owned = Vec::new(alloc);
    for i in 0..sites.len() {
        let (name, set) = read_site(alloc, index, sites, i)?;
        names.push(name)?;
        owned.push(set)?;
    }
    Ok((names, owned))
}

// The name of a site and what it owns. A bad name is told whatever memory there is; memory is taken for a good one,
// before its texts are looked at.
fn read_site<S: AsSiteText>(
    alloc: Global,
    index: &Index<'_>,
    sites: &[S],
    i: usize,
) -> Result<(Name, EventSet), CoverStop>
    requires most { length sites.now ≤ 64 }
    requires texts { All (λ site. length (S.written site).1 < 2 ^ 32) sites.now }
    requires within { i < length sites.now }
    ensures fact { Checks (atom_names index.now.nested.now) (site_fact index.now.nested.now (map S.written sites.now) i) result }
    ensures atoms { IfErr result (λ stop. (a : ℕ) → stop ≢ Uncovered a) }
    ensures name { IfOk result (λ site. site.0 ≡ (site_at (map S.written sites.now) i).0) }
    ensures owned { IfOk result (λ site. site.1 ≡ set_meant index.now.nested.now (site_at (map S.written sites.now) i).1) }
    ensures want { IfErr result (λ stop. stop ≡ NoMemory → is_new_name (names_in (map S.written sites.now)) i (site_at (map S.written sites.now) i).0 ≡ true) }
{
    let name = read_name(alloc, sites, i)?;
    match read_owned(index, &sites[i]) {
        Ok(set) => Ok((name, set)),
        Err(j) => Err(CoverStop::Owned { i: i as u32, j }),
    }
}

// The name of a site, which is a name and no earlier site's. Memory is taken only once the name is good, so that
// want of memory never stands for a bad name.
fn read_name<S: AsSiteText>(alloc: Global, sites: &[S], i: usize) -> Result<Name, CoverStop>
    requires most { length sites.now ≤ 64 }
    requires within { i < length sites.now }
    ensures atoms { IfErr result (λ stop. (a : ℕ) → stop ≢ Uncovered a) }
    ensures name { IfOk result (λ name. name ≡ (site_at (map S.written sites.now) i).0) }
    ensures new { OnOk result (is_new_name (names_in (map S.written sites.now)) i (site_at (map S.written sites.now) i).0 ≡ true) }
    ensures refused { IfErr result (λ stop. stop ≢ NoMemory → (stop ≡ SiteName i) × (is_new_name (names_in (map S.written sites.now)) i (site_at (map S.written sites.now) i).0 ≡ false)) }
    ensures want { IfErr result (λ stop. stop ≡ NoMemory → is_new_name (names_in (map S.written sites.now)) i (site_at (map S.written sites.now) i).0 ≡ true) }
{
    let text = sites[i].name();
    if !is_first(sites, i, text) {
        return Err(CoverStop::SiteName { i: i as u32 });
    }
    match Name::read(alloc, text) {
        Ok(name) => Ok(name),
        Err(NameStop::NotName) => Err(CoverStop::SiteName { i: i as u32 }),
        Err(NameStop::NoMemory) => Err(CoverStop::NoMemory),
    }
}

// Whether the first site that has this name is site `i`.
fn is_first<S: AsSiteText>(sites: &[S], i: usize, name: &str) -> bool
    ensures { result ≡ option_map_or (λ k. k == i) (number_of (names_in (map S.written sites.now)) name.now) false }
{
    match first_named(sites, name) {
        Some(k) => k == i,
        None => false,
    }
}

// The first site that has this name.
fn first_named<S: AsSiteText>(sites: &[S], name: &str) -> Option<usize>
    ensures { result ≡ position (λ site. bytes_eq name.now (S.written site).0) sites.now }
{
    sites.iter().position(|site| name == site.name())
}

// What the owned texts mean together, or the place of the first that means nothing.
fn read_owned<S: AsSiteText>(index: &Index<'_>, site: &S) -> Result<EventSet, u32>
    requires { length (S.written site.now).1 < 2 ^ 32 }
    ensures set { IfOk result (λ set. set ≡ set_meant index.now.nested.now (S.written site.now).1) }
    ensures known { OnOk result ((j : ℕ) → j < length (S.written site.now).1 → is_some (node_named index.now.nested.now (owned_at (S.written site.now) j)) ≡ true) }
    ensures unknown { IfErr result (IsLeast (length (S.written site.now).1) (λ j. not (is_some (node_named index.now.nested.now (owned_at (S.written site.now) j))))) }
{
    let mut set = EventSet::new(index.atoms);
    for j in 0..site.owned_len() {
        match index.meaning(site.owned_text(j)) {
            Some(events) => set.union_with(events),
            None => return Err(j as u32),
        }
    }
    Ok(set)
}
