// Worked rows: what sites track and hear of in small graphs, told by hand, and who takes part in which event.
use crate::build::{HOSPITAL, Pair, cover_of, event_set, graph_of, members};
use crate::same::{same, same_text};
use dcr_graph::Kind;
use dcr_proj::{Network, project};
use dcr_set::{EventId, SiteId};
use std::alloc::Global;
use std::test::Fail;

// A graph's pairs, what a site owns, and what it tracks of the included, the executed and the pending marks, and its
// alphabet.
type Row = (&'static str, &'static [Pair], &'static [u16], [u8; 4]);

// The doctor prescribes and signs, and then the nurse is to give.
const MEDICATION: [Pair; 4] = [
    (Kind::Condition, 0, 1),
    (Kind::Condition, 1, 2),
    (Kind::Response, 0, 1),
    (Kind::Response, 0, 2),
];

const ROWS: [Row; 14] = [
    (
        "who prescribes and signs",
        &MEDICATION,
        &[0, 1],
        [0b0011; 4],
    ),
    (
        "who gives",
        &MEDICATION,
        &[2],
        [0b0110, 0b0110, 0b0100, 0b0111],
    ),
    (
        "the doctor",
        &HOSPITAL,
        &[0, 1],
        [0b0011, 0b0011, 0b0011, 0b1011],
    ),
    (
        "the nurse",
        &HOSPITAL,
        &[2, 3],
        [0b1110, 0b1110, 0b1100, 0b1111],
    ),
    ("no rule", &[], &[1], [0b0010; 4]),
    ("nothing owned", &HOSPITAL, &[], [0; 4]),
    (
        "an include into a condition event",
        &[(Kind::Condition, 0, 1), (Kind::Include, 2, 0)],
        &[1],
        [0b0011, 0b0011, 0b0010, 0b0111],
    ),
    (
        "an exclude into a condition event",
        &[(Kind::Condition, 0, 1), (Kind::Exclude, 2, 0)],
        &[1],
        [0b0011, 0b0011, 0b0010, 0b0111],
    ),
    (
        "a response into a condition event",
        &[(Kind::Condition, 0, 1), (Kind::Response, 2, 0)],
        &[1],
        [0b0011, 0b0011, 0b0010, 0b0011],
    ),
    (
        "a response into a milestone event",
        &[(Kind::Milestone, 0, 1), (Kind::Response, 2, 0)],
        &[1],
        [0b0011, 0b0010, 0b0011, 0b0111],
    ),
    (
        "a cancel into a milestone event",
        &[(Kind::Milestone, 0, 1), (Kind::Cancel, 2, 0)],
        &[1],
        [0b0011, 0b0010, 0b0011, 0b0111],
    ),
    (
        "a condition of a condition event",
        &[(Kind::Condition, 0, 1), (Kind::Condition, 2, 0)],
        &[1],
        [0b0011, 0b0011, 0b0010, 0b0011],
    ),
    (
        "a cancel into an owned event",
        &[(Kind::Response, 0, 1), (Kind::Cancel, 2, 1)],
        &[1],
        [0b0010, 0b0010, 0b0010, 0b0111],
    ),
    (
        "rules out of an owned event alone",
        &[
            (Kind::Condition, 1, 0),
            (Kind::Response, 1, 2),
            (Kind::Include, 1, 3),
        ],
        &[1],
        [0b0010; 4],
    ),
];

fn told(alloc: Global, pairs: &[Pair], own: &[u16]) -> Result<[u8; 4], Fail> {
    let graph = graph_of(alloc, pairs)?;
    let projection = project(alloc, &graph, &event_set(own))?;
    Ok([
        members(projection.tracked_in()),
        members(projection.tracked_ex()),
        members(projection.tracked_re()),
        members(projection.alphabet()),
    ])
}

#[test]
fn a_site_tracks_what_its_events_need(rt: HostRuntime) -> Result<(), Fail> {
    for (row, pairs, own, sets) in ROWS {
        same(&rt, &told(rt.alloc(), pairs, own)?, &sets, row);
    }
    Ok(())
}

#[test]
fn a_cover_finds_its_sites(rt: HostRuntime) -> Result<(), Fail> {
    let cover = cover_of(rt.alloc())?;
    for (number, name) in [(0, "doctor"), (1, "nurse")] {
        assert!(rt; number < cover.sites());
        let i = SiteId(number);
        same(&rt, &cover.find(name), &Some(i), name);
        same_text(&rt, cover.name(i).text(), name, name);
        assert!(rt; cover.owned(i).first().is_none());
    }
    same(&rt, &cover.find("pm"), &None, "no site");
    let lens = (
        cover.sites(),
        cover.site_names().len(),
        cover.owned_sets().len(),
    );
    same(&rt, &lens, &(2, 2, 2), "two sites");
    Ok(())
}

#[test]
fn a_network_tells_who_must_hear_of_an_event(rt: HostRuntime) -> Result<(), Fail> {
    let alphabets = [
        event_set(&[0, 1]),
        event_set(&[0]),
        event_set(&[]),
        event_set(&[0, 1]),
    ];
    let network = Network::new(rt.alloc(), Vec::from_array(rt.alloc(), alphabets)?)?;
    same(&rt, &network.sites(), &4, "four sites");
    for (number, alphabet) in [(0, 0b0011), (1, 0b0001), (2, 0), (3, 0b0011)] {
        assert!(rt; number < network.sites());
        let found = members(network.alphabet(SiteId(number)));
        same(&rt, &found, &alphabet, "an alphabet");
    }
    let room = network.alphabet(SiteId(0)).room();
    for (event, sites) in [
        (0, [SiteId(0), SiteId(1), SiteId(3)].as_slice()),
        (1, &[SiteId(0), SiteId(3)]),
        (2, &[]),
    ] {
        assert!(rt; event < room);
        same(
            &rt,
            &network.participants(EventId(event)),
            &sites,
            "participants",
        );
    }
    Ok(())
}
