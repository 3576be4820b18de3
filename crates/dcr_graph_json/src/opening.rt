ghost use Rattle.std.specs.Prelude.{◌≡◌, ◌≤◌, ◌<◌, length, map, IfOk, IfErr};
ghost use Rattle.std.specs.List.{All};
ghost use Rattle.dcr_nest.specs.Nest.{parents_of};
ghost use Rattle.dcr_nest.specs.Tree.{AreEarlier, atoms};
ghost use Rattle.serde_json.specs.View.{view};
ghost use Rattle.dcr_format.specs.declared.stop.CaseStop.TheVariants.{NoMemory};
ghost use Rattle.dcr_graph_json.specs.Build.{has_mark, marked as marked_in, opening_with};

use dcr_format::{CaseStop, member_mark};
use dcr_graph::Marking;
use dcr_nest::{Node, atoms_of};
use dcr_set::{EventId, EventSet};
use serde_json::Value;
use std::alloc::Global;

// A mark of an event.
#[derive(Clone, Copy)]
pub(crate) enum Mark {
    Executed,
    Pending,
    Included,
}

// The opening marking of the atoms among the nodes of these events.
pub(crate) fn read_opening(
    alloc: Global,
    nodes: &[Node],
    events: &[Value],
) -> Result<Marking, CaseStop>
    requires most { length nodes.now ≤ 2048 }
    requires earlier { AreEarlier (parents_of nodes.now) }
    requires most_atoms { length (atoms (parents_of nodes.now)) ≤ 1024 }
    requires events { length events.now ≡ length nodes.now }
    ensures opening { IfOk result (λ marking. marking ≡ opening_with (atoms (parents_of nodes.now)) (map view events.now)) }
    ensures memory { IfErr result (λ stop. stop ≡ NoMemory) }
{
    let Ok(atoms) = atoms_of(alloc, nodes) else {
        return Err(CaseStop::NoMemory);
    };
    Ok(Marking {
        executed: marked(Mark::Executed, &atoms, events),
        pending: marked(Mark::Pending, &atoms, events),
        included: marked(Mark::Included, &atoms, events),
    })
}

// The atoms that have the mark, where these are the nodes of the atoms.
fn marked(mark: Mark, atoms: &[u16], events: &[Value]) -> EventSet
    requires most { length atoms.now ≤ 1024 }
    requires nodes { All (λ x. x < length events.now) atoms.now }
    ensures { result ≡ marked_in mark atoms.now (map view events.now) }
{
    let mut set = EventSet::new(atoms.len() as u16);
    for a in 0..atoms.len() as u16 {
        let event = &events[usize::from(atoms[usize::from(a)])];
        if is_marked(mark, event) {
            set.insert(EventId(a));
        }
    }
    set
}

// Whether the event has the mark at the opening.
fn is_marked(mark: Mark, event: &Value) -> bool
    ensures { result ≡ has_mark mark (view event.now) }
{
    match mark {
        Mark::Executed => member_mark(event, "executed").unwrap_or(false),
        Mark::Pending => member_mark(event, "pending").unwrap_or(false),
        Mark::Included => member_mark(event, "included").unwrap_or(true),
    }
}
