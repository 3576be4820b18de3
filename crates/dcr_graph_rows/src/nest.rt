// A worked row of nests and covers: a node is found by its name, and a site owns it by that name.
ghost use Rattle.std.specs.Prelude.{◌≡◌, ℕ, ◌<◌, false, IsTrue, [], length, slice_index_or};
ghost use Rattle.std.specs.Str.{bytes_eq};
ghost use Rattle.dcr_graph.specs.Names.{AreDistinct};
ghost use Rattle.dcr_nest.specs.Nest.{names_of, parents_of};
ghost use Rattle.dcr_nest.specs.Tree.{AreEarlier};

use crate::build::members;
use crate::same::{same, same_text};
use dcr_cover_json::{SiteText, check};
use dcr_graph::{Label, Name};
use dcr_nest::{Nested, Node, Version, atoms_of};
use dcr_set::{EventId, SiteId};
use std::alloc::Global;
use std::test::Fail;

// Whether each parent is an earlier node.
fn are_earlier(nodes: &[Node]) -> bool
    ensures { IsTrue result → AreEarlier (parents_of nodes.now) }
{
    for (x, node) in nodes.iter().enumerate() {
        if let Some(parent) = node.parent {
            if usize::from(parent) >= x {
                return false;
            }
        }
    }
    true
}

// Whether no name stands twice.
fn are_distinct(nodes: &[Node]) -> bool
    ensures { IsTrue result → AreDistinct (names_of nodes.now) }
{
    for x in 0..nodes.len() {
        if stands_before(nodes, x) {
            return false;
        }
    }
    true
}

// Whether an earlier node has the name of this one.
fn stands_before(nodes: &[Node], at: usize) -> bool
    requires { at < length nodes.now }
    ensures { result ≡ false → (k : ℕ) → k < at
        → bytes_eq (slice_index_or (names_of nodes.now) k []) (slice_index_or (names_of nodes.now) at []) ≡ false }
{
    for k in 0..at {
        if nodes[k].name.text() == nodes[at].name.text() {
            return true;
        }
    }
    false
}

#[derive(Debug, Drop)]
struct NoNest;

// The nested graph of these nodes, if they make one.
fn nested(alloc: Global, nodes: Vec<Node>) -> Result<Nested, NoNest> {
    if nodes.len() > 2048 {
        return Err(NoNest);
    }
    if !are_earlier(&nodes) || !are_distinct(&nodes) {
        return Err(NoNest);
    }
    let Ok(atoms) = atoms_of(alloc, &nodes) else {
        return Err(NoNest);
    };
    if atoms.len() > 1024 {
        return Err(NoNest);
    }
    Ok(Nested::new(Version::V2, nodes, Vec::new(alloc)))
}

#[test]
fn a_node_is_found_and_a_site_owns_it_by_name(rt: HostRuntime) -> Result<(), Fail> {
    let alloc = rt.alloc();
    let mut nodes = Vec::new(alloc);
    // A nest N of a and b, and beside it c.
    for (text, parent) in [("N", None), ("a", Some(0)), ("b", Some(0)), ("c", None)] {
        let name = Name::read(alloc, text)?;
        let label = Label::of_name(alloc, &name)?;
        nodes.push(Node {
            name,
            parent,
            label,
        })?;
    }
    let nest = nested(alloc, nodes)?;
    for (name, number) in [
        ("N", Some(0)),
        ("a", Some(1)),
        ("b", Some(2)),
        ("c", Some(3)),
        ("d", None),
        ("", None),
    ] {
        same(&rt, &nest.find(name), &number, name);
    }
    let graph = nest.flatten(alloc)?;
    let name = String::from_str(alloc, "x")?;
    let owned = [String::from_str(alloc, "c")?, String::from_str(alloc, "N")?];
    let owned = Vec::from_array(alloc, owned)?;
    let cover = check(alloc, &nest, &graph, &[SiteText { name, owned }])?;
    assert!(rt; cover.sites() == 1 && 2 < graph.atoms());
    same_text(&rt, cover.name(SiteId(0)).text(), "x", "the site");
    same_text(&rt, graph.name(EventId(2)).text(), "c", "the last atom");
    same(
        &rt,
        &members(cover.owned(SiteId(0))),
        &0b0111,
        "what it owns",
    );
    Ok(())
}
