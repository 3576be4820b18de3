// Builders of graphs of four atoms, of sets of them, of a marking and of a cover, for the worked rows.
ghost use Rattle.std.specs.Prelude.{◌≡◌, length, IfOk};
ghost use Rattle.std.specs.List.{All};
ghost use Rattle.dcr_graph.specs.Pairs.{AreInRange};
ghost use Rattle.dcr_graph.specs.Projection.{HasRoom};

use dcr_graph::{Graph, GraphStop, Kind, Label, Marking, Name, SiteMark};
use dcr_proj::Cover;
use dcr_set::{EventId, EventSet};
use std::alloc::Global;
use std::test::Fail;

pub(crate) type Pair = (Kind, u16, u16);

// The doctor prescribes and signs; the nurse gives, or doubts the prescription, so that it is signed again.
pub(crate) const HOSPITAL: [Pair; 8] = [
    (Kind::Condition, 0, 1),
    (Kind::Condition, 1, 2),
    (Kind::Condition, 1, 3),
    (Kind::Response, 0, 1),
    (Kind::Response, 0, 2),
    (Kind::Response, 3, 1),
    (Kind::Exclude, 3, 2),
    (Kind::Include, 1, 2),
];

// These pairs, of four atoms.
fn pairs_of(alloc: Global, pairs: &[Pair]) -> Result<Vec<(Kind, EventId, EventId)>, Fail>
    ensures { IfOk result (λ related. AreInRange 4 related.items) }
{
    let mut related = Vec::new(alloc);
    for pair in pairs {
        if pair.1 < 4 && pair.2 < 4 {
            related.push((pair.0, EventId(pair.1), EventId(pair.2)))?;
        }
    }
    Ok(related)
}

// Four atoms, pm, s, gm and dt, with these pairs, or why they make no graph.
pub(crate) fn tried(alloc: Global, pairs: &[Pair]) -> Result<Result<Graph, GraphStop>, Fail>
    ensures { IfOk result (λ tried. IfOk tried (λ graph. length graph.names ≡ 4)) }
{
    let names = Vec::from_array(
        alloc,
        [
            Name::read(alloc, "pm")?,
            Name::read(alloc, "s")?,
            Name::read(alloc, "gm")?,
            Name::read(alloc, "dt")?,
        ],
    )?;
    let labels = Vec::from_array(
        alloc,
        [
            Label::read(alloc, "Prescribe medicine")?,
            Label::read(alloc, "Sign")?,
            Label::read(alloc, "Give medicine")?,
            Label::read(alloc, "")?,
        ],
    )?;
    let related = pairs_of(alloc, pairs)?;
    Ok(Graph::new(alloc, names, labels, related))
}

// The graph of four atoms, pm, s, gm and dt, with these pairs.
pub(crate) fn graph_of(alloc: Global, pairs: &[Pair]) -> Result<Graph, Fail>
    ensures { IfOk result (λ graph. length graph.names ≡ 4) }
{
    Ok(tried(alloc, pairs)??)
}

// Those of the four atoms that are listed.
pub(crate) fn event_set(numbers: &[u16]) -> EventSet
    ensures { length result ≡ 4 }
{
    let mut set = EventSet::new(4);
    for number in numbers {
        if *number < 4 {
            set.insert(EventId(*number));
        }
    }
    set
}

// The marking in which each of the four atoms is included, and nothing else is marked.
pub(crate) fn opening() -> Marking
    ensures { HasRoom 4 result }
{
    Marking {
        executed: event_set(&[]),
        pending: event_set(&[]),
        included: event_set(&[0, 1, 2, 3]),
    }
}

// The sites doctor and nurse, of no atoms.
pub(crate) fn cover_of(alloc: Global) -> Result<Cover, Fail> {
    let doctor = Name::read(alloc, "doctor")?;
    let nurse = Name::read(alloc, "nurse")?;
    let names = Vec::from_array(alloc, [doctor, nurse])?;
    let owned = Vec::from_array(alloc, [EventSet::new(0), EventSet::new(0)])?;
    Ok(Cover::new(names, owned))
}

// Which of the four atoms are in the set, pm in the lowest bit.
pub(crate) fn members(set: &EventSet) -> u8 {
    let mut bits = 0;
    for number in 0..4u16 {
        if set.contains(EventId(number)) {
            bits |= 1 << number;
        }
    }
    bits
}

// The doctor, who owns pm and s, and the nurse, who owns gm and dt, of a graph of the four.
pub(crate) fn hospital_cover(alloc: Global, _graph: &Graph) -> Result<Cover, Fail>
    requires { length _graph.now.names ≡ 4 }
    ensures { IfOk result (λ cover. All (λ set. length set ≡ length _graph.now.names) cover.owned) }
{
    let doctor = Name::read(alloc, "doctor")?;
    let nurse = Name::read(alloc, "nurse")?;
    let names = Vec::from_array(alloc, [doctor, nurse])?;
    let mut first = EventSet::new(4);
    first.insert(EventId(0));
    first.insert(EventId(1));
    let mut second = EventSet::new(4);
    second.insert(EventId(2));
    second.insert(EventId(3));
    let owned = Vec::from_array(alloc, [first, second])?;
    Ok(Cover::new(names, owned))
}

// Which of the four atoms are executed, pending and included.
pub(crate) fn sets_of(mark: &SiteMark) -> [u8; 3] {
    [
        members(&mark.executed),
        members(&mark.pending),
        members(&mark.included),
    ]
}
