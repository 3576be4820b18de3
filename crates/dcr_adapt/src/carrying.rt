ghost use Rattle.std.specs.Prelude.{◌≡◌, ◌<◌, length, IfOk, if◌then◌else◌};
ghost use Rattle.std.specs.List.{All};
ghost use Rattle.std.specs.Option.{option_copied};
ghost use Rattle.dcr_set.specs.EventSet.{has, those, with_event};
ghost use Rattle.dcr_graph.specs.GraphValue.{rules_of};
ghost use Rattle.dcr_graph.specs.Projection.{HasRoom};
ghost use Rattle.dcr_graph.specs.declared.marking.Marking.{Marking};
ghost use Rattle.dcr_journal.specs.Run.{marks_at};
ghost use Rattle.dcr_adapt.specs.Carried.{by_owners, carried, is_carried, keeps_executed, keeps_included, keeps_pending, owners_mark as mark_of_owner};

use crate::names::index_of;
use dcr_graph::{Graph, Marking, NameIndex, SiteMark};
use dcr_journal::MarkList;
use dcr_json::Case;
use dcr_proj::Cover;
use dcr_set::{EventId, EventSet, NoMemory};
use std::alloc::Global;

// The marks of one atom.
#[derive(Clone, Copy)]
struct AtomMarks {
    executed: bool,
    pending: bool,
    included: bool,
}

/// The marking with which a case goes on as the next one: each atom that the graph has by name keeps the marks that the
/// least site has that owns it, and each other atom has those with which the next case opens.
///
/// Where the marks are the projections of a marking to the sites of the cover, it is that marking that is carried. The
/// cover is one of the graph's atoms. `NoMemory` where memory for the index of the graph's names could not be had.
pub fn carry(
    alloc: Global,
    graph: &Graph,
    cover: &Cover,
    marks: &MarkList,
    next: &Case,
) -> Result<Marking, NoMemory>
    requires { All (λ set. length set ≡ length graph.now.names) cover.now.owned }
    ensures carried { IfOk result (λ marking. (M : Marking) → marks.now ≡ marks_at (rules_of graph.now) cover.now.owned M
        → marking ≡ carried graph.now.names M next.now.graph.names next.now.opening) }
    ensures owners { IfOk result (λ marking. marking
        ≡ carried graph.now.names (by_owners (length graph.now.names) cover.now.owned marks.now)
        next.now.graph.names next.now.opening) }
    ensures room { IfOk result (HasRoom (length next.now.graph.names)) }
{
    let names = index_of(alloc, graph)?;
    Ok(carry_each(&names, cover.owned_sets(), marks, next))
}

// The marks of each atom of the next case, one after the other.
fn carry_each(names: &NameIndex<'_>, owned: &[EventSet], marks: &MarkList, next: &Case) -> Marking
    ensures executed { result.executed ≡ those (length next.now.graph.names)
        (is_carried names.now (keeps_executed owned.now marks.now) next.now.graph.names next.now.opening.executed) }
    ensures pending { result.pending ≡ those (length next.now.graph.names)
        (is_carried names.now (keeps_pending owned.now marks.now) next.now.graph.names next.now.opening.pending) }
    ensures included { result.included ≡ those (length next.now.graph.names)
        (is_carried names.now (keeps_included owned.now marks.now) next.now.graph.names next.now.opening.included) }
{
    let atoms = next.graph.atoms();
    let mut executed = EventSet::new(atoms);
    let mut pending = EventSet::new(atoms);
    let mut included = EventSet::new(atoms);
    for number in 0..atoms {
        let b = EventId(number);
        let found = carry_atom(names, owned, marks, next, b);
        put(&mut executed, b, found.executed);
        put(&mut pending, b, found.pending);
        put(&mut included, b, found.included);
    }
    Marking {
        executed,
        pending,
        included,
    }
}

// The marks with which an atom of the next case goes on.
fn carry_atom(
    names: &NameIndex<'_>,
    owned: &[EventSet],
    marks: &MarkList,
    next: &Case,
    b: EventId,
) -> AtomMarks
    requires { b < length next.now.graph.names }
    ensures executed { result.executed
        ≡ is_carried names.now (keeps_executed owned.now marks.now) next.now.graph.names next.now.opening.executed b }
    ensures pending { result.pending
        ≡ is_carried names.now (keeps_pending owned.now marks.now) next.now.graph.names next.now.opening.pending b }
    ensures included { result.included
        ≡ is_carried names.now (keeps_included owned.now marks.now) next.now.graph.names next.now.opening.included b }
{
    match names.find(next.graph.name(b).text().as_bytes()) {
        Some(a) => kept(owned, marks, EventId(a)),
        None => given(&next.opening, b),
    }
}

// The marks that an atom has at the least site that owns it.
fn kept(owned: &[EventSet], marks: &MarkList, a: EventId) -> AtomMarks
    ensures executed { result.executed ≡ keeps_executed owned.now marks.now a }
    ensures pending { result.pending ≡ keeps_pending owned.now marks.now a }
    ensures included { result.included ≡ keeps_included owned.now marks.now a }
{
    match owners_mark(owned, marks, a) {
        Some(mark) => AtomMarks {
            executed: mark.executed.contains(a),
            pending: mark.pending.contains(a),
            included: mark.included.contains(a),
        },
        None => AtomMarks {
            executed: false,
            pending: false,
            included: false,
        },
    }
}

// The marks with which an atom opens.
fn given(opening: &Marking, b: EventId) -> AtomMarks
    ensures executed { result.executed ≡ has opening.now.executed b }
    ensures pending { result.pending ≡ has opening.now.pending b }
    ensures included { result.included ≡ has opening.now.included b }
{
    AtomMarks {
        executed: opening.executed.contains(b),
        pending: opening.pending.contains(b),
        included: opening.included.contains(b),
    }
}

// The marks of the least site that owns the atom.
fn owners_mark<'m>(owned: &[EventSet], marks: &'m MarkList, a: EventId) -> Option<&'m SiteMark>
    ensures { option_copied result ≡ mark_of_owner owned.now marks.now a }
{
    for i in 0..owned.len() {
        if owned[i].contains(a) {
            return marks.get(i);
        }
    }
    None
}

// Adds an atom to the set, where it is to be in it.
fn put(set: &mut EventSet, e: EventId, is_in: bool)
    requires { e < length set.old }
    ensures put { set.new ≡ (if is_in then with_event set.old e else set.old) }
    ensures room { length set.new ≡ length set.old }
{
    if is_in {
        set.insert(e);
    }
}
