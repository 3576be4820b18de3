// Worked rows: what a graph of its own tells of its atoms and pairs.
use crate::build::{Pair, event_set, graph_of, members, tried};
use crate::same::{same, same_text};
use dcr_graph::{Graph, GraphStop, Kind};
use dcr_set::EventId;
use std::process::Abort;
use std::test::Fail;

const PAIRS: [Pair; 6] = [
    (Kind::Condition, 0, 1),
    (Kind::Condition, 1, 2),
    (Kind::Response, 0, 1),
    (Kind::Response, 0, 2),
    (Kind::Cancel, 2, 2),
    (Kind::Condition, 0, 1),
];

fn assert_told(rt: &impl Abort, graph: &Graph) {
    for (number, name, label) in [
        (0, "pm", "Prescribe medicine"),
        (1, "s", "Sign"),
        (2, "gm", "Give medicine"),
        (3, "dt", ""),
    ] {
        assert!(rt; number < graph.atoms());
        let e = EventId(number);
        same(rt, &graph.find(name), &Some(e), name);
        same_text(rt, graph.name(e).text(), name, name);
        same_text(rt, graph.label(e).text(), label, name);
    }
    same(rt, &graph.find("Sign"), &None, "a label is no name");
    // The kind, the atom, its sources, its targets.
    for (kind, number, sources, targets) in [
        (Kind::Condition, 0, 0, 0b0010),
        (Kind::Condition, 1, 0b0001, 0b0100),
        (Kind::Condition, 2, 0b0010, 0),
        (Kind::Response, 0, 0, 0b0110),
        (Kind::Response, 2, 0b0001, 0),
        (Kind::Cancel, 2, 0b0100, 0b0100),
        (Kind::Include, 0, 0, 0),
        (Kind::Exclude, 1, 0, 0),
        (Kind::Milestone, 2, 0, 0),
    ] {
        assert!(rt; number < graph.atoms());
        let e = EventId(number);
        let found = (
            members(graph.sources(kind, e)),
            members(graph.targets(kind, e)),
        );
        same(rt, &found, &(sources, targets), "sources and targets");
    }
    let into = event_set(&[1, 2]);
    assert!(rt; into.room() == graph.atoms());
    let sources = members(&graph.sources_into(Kind::Condition, &into));
    same(rt, &sources, &0b0011, "the conditions of two");
}

#[test]
fn a_graph_tells_its_atoms_and_pairs(rt: HostRuntime) -> Result<(), Fail> {
    let graph = graph_of(rt.alloc(), &PAIRS)?;
    same(&rt, &graph.atoms(), &4, "four atoms");
    assert_told(&rt, &graph);
    // Of what clashes the least is told.
    let pairs = [
        (Kind::Include, 2, 0),
        (Kind::Exclude, 2, 0),
        (Kind::Include, 1, 2),
        (Kind::Exclude, 1, 2),
        (Kind::Exclude, 1, 1),
        (Kind::Include, 0, 1),
        (Kind::Exclude, 1, 0),
    ];
    let (a, b) = (EventId(1), EventId(2));
    let stop = tried(rt.alloc(), &pairs)?.err();
    same(&rt, &stop, &Some(GraphStop::Clash { a, b }), "a clash");
    for (kind, number) in [
        (Kind::Condition, 0),
        (Kind::Response, 1),
        (Kind::Milestone, 2),
        (Kind::Include, 3),
        (Kind::Exclude, 4),
        (Kind::Cancel, 5),
    ] {
        same(&rt, &kind.number(), &number, "a kind's number");
    }
    Ok(())
}
