ghost use Rattle.std.specs.Prelude.{◌≡◌, ◌<◌, ◌≤◌, ◌^◌, ℕ, Err, not, length, map, All, IfOk, vec_len};
ghost use Rattle.dcr_set.specs.Least.{IsLeast, least};
ghost use Rattle.dcr_nest.specs.FlatRelation.{IsFlattening};
ghost use Rattle.dcr_proj.specs.CoverValue.{is_owned};
ghost use Rattle.dcr_format.specs.Facts.{first};
ghost use Rattle.dcr_graph_json.specs.Build.{atom_names};
ghost use Rattle.dcr_cover_json.specs.Accepted.{IsAcceptedCover};
ghost use Rattle.dcr_cover_json.specs.Build.{build_facts};
ghost use Rattle.dcr_cover_json.specs.Check.{Checks};
ghost use Rattle.dcr_cover_json.specs.Seen.{site_given};
ghost use Rattle.dcr_cover_json.specs.Sites.{atom_count, cover_in};

use crate::index::Index;
use crate::site::AsSiteText;
use crate::sites::read_sites;
use crate::{CoverStop, SiteText};
use dcr_graph::Graph;
use dcr_nest::Nested;
use dcr_proj::Cover;
use dcr_set::{EventId, EventSet};
use std::alloc::Global;

/// The cover that the sites mean for a nested graph and its flattening. An owned text is the name of a node,
/// and means the atoms at or below it. Each refusal comes exactly where the facts of a cover tell it: the first site
/// whose name is no name or an earlier site's, or one of whose owned texts is no node's name, and else the
/// least atom that no site owns. `NoMemory` may come in the place of any answer.
pub fn check(
    alloc: Global,
    nested: &Nested,
    graph: &Graph,
    sites: &[SiteText],
) -> Result<Cover, CoverStop>
    requires flat { IsFlattening nested.now graph.now }
    requires some_site { 1 ≤ length sites.now }
    requires most_sites { length sites.now ≤ 64 }
    requires texts { All (λ site. vec_len site.owned < 2 ^ 32) sites.now }
    ensures facts { Checks (atom_names nested.now) (first (build_facts nested.now (map site_given sites.now))) result }
    ensures cover { IfOk result (λ cover. cover ≡ cover_in nested.now (map site_given sites.now)) }
    ensures uncovered { (a : ℕ) → result ≡ Err (CoverStop.Uncovered a) → IsLeast (atom_count nested.now) (λ b. not (is_owned (cover_in nested.now (map site_given sites.now)).owned b)) a }
    ensures accepted { IfOk result (λ cover. IsAcceptedCover nested.now cover) }
    ensures rooms { IfOk result (λ cover. All (λ set. length set ≡ length graph.now.names) cover.owned) }
{
    check_texts(alloc, nested, graph, sites)
}

// The same of sites that lend their texts from wherever they stand, so that none is copied.
pub(crate) fn check_texts<S: AsSiteText>(
    alloc: Global,
    nested: &Nested,
    graph: &Graph,
    sites: &[S],
) -> Result<Cover, CoverStop>
    requires flat { IsFlattening nested.now graph.now }
    requires some_site { 1 ≤ length sites.now }
    requires most_sites { length sites.now ≤ 64 }
    requires texts { All (λ site. length (S.written site).1 < 2 ^ 32) sites.now }
    ensures facts { Checks (atom_names nested.now) (first (build_facts nested.now (map S.written sites.now))) result }
    ensures cover { IfOk result (λ cover. cover ≡ cover_in nested.now (map S.written sites.now)) }
    ensures uncovered { (a : ℕ) → result ≡ Err (CoverStop.Uncovered a) → IsLeast (atom_count nested.now) (λ b. not (is_owned (cover_in nested.now (map S.written sites.now)).owned b)) a }
    ensures accepted { IfOk result (λ cover. IsAcceptedCover nested.now cover) }
    ensures rooms { IfOk result (λ cover. All (λ set. length set ≡ length graph.now.names) cover.owned) }
{
    let index = Index::new(alloc, nested, graph)?;
    let (names, owned) = read_sites(alloc, &index, sites)?;
    if let Some(a) = first_unowned(&owned, graph.atoms()) {
        return Err(CoverStop::Uncovered { a });
    }
    Ok(Cover::new(names, owned))
}

// The least atom that is in none of the sets.
fn first_unowned(owned: &[EventSet], atoms: u16) -> Option<EventId>
    ensures { result ≡ least atoms (λ atom. not (is_owned owned.now atom)) }
{
    for number in 0..atoms {
        let atom = EventId(number);
        if !has_owner(owned, atom) {
            return Some(atom);
        }
    }
    None
}

// Whether one of the sets has the atom.
fn has_owner(owned: &[EventSet], atom: EventId) -> bool
    ensures { result ≡ is_owned owned.now atom }
{
    owned.iter().any(|set| set.contains(atom))
}
