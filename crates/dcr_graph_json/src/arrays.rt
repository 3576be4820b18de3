ghost use Rattle.std.specs.Prelude.{◌≡◌, ◌<◌, ◌^◌, length, map, not, position, IfSome, is_some};
ghost use Rattle.serde_json.specs.View.{items_view, view};
ghost use Rattle.dcr_format.specs.Size.{items_size, size};
ghost use Rattle.dcr_format.specs.Facts.{each, refusal};
ghost use Rattle.dcr_format.specs.declared.stop.CaseStop.TheVariants.{Shape};
ghost use Rattle.dcr_format.specs.declared.stop.Part.TheVariants as part;
ghost use Rattle.dcr_graph_json.specs.Shape.{events_of, is_event, is_graph, is_relation, relations_of};

use crate::{event, relation};
use dcr_format::{CaseStop, Part, array_or_none, member_array};
use dcr_nest::Version;
use serde_json::Value;

// The arrays of a graph.
#[derive(Clone, Copy)]
pub(crate) struct Arrays<'v> {
    pub(crate) events: &'v [Value],
    pub(crate) relations: &'v [Value],
}

// The arrays of the graph, where it is one.
pub(crate) fn read_arrays(graph: &Value) -> Option<Arrays<'_>>
    ensures is { is_some result ≡ is_graph (view graph.now) }
    ensures events { IfSome result (λ arrays. map view arrays.events.now ≡ events_of (view graph.now)) }
    ensures relations { IfSome result (λ arrays. map view arrays.relations.now ≡ relations_of (view graph.now)) }
    ensures few_events { IfSome result (λ arrays. items_size (items_view arrays.events.now) < size (view graph.now)) }
    ensures few_relations { IfSome result (λ arrays. items_size (items_view arrays.relations.now) < size (view graph.now)) }
{
    let events = member_array(graph, "events")?;
    let relations = array_or_none(graph, "relations")?;
    Some(Arrays { events, relations })
}

// Whether each of the values is an event, or the first that is none.
pub(crate) fn try_events(values: &[Value]) -> Result<(), CaseStop>
    requires { length values.now < 2 ^ 32 }
    ensures { refusal result ≡ each is_event (Shape part.Event) (map view values.now) }
{
    if let Some(i) = first_other(values) {
        return Err(CaseStop::Shape {
            part: Part::Event,
            index: i as u32,
        });
    }
    Ok(())
}

// The first value that is no event.
fn first_other(values: &[Value]) -> Option<usize>
    ensures { result ≡ position (λ v. not (is_event (view v))) values.now }
{
    values.iter().position(|value| !event::is_event(value))
}

// Whether each of the values is a relation of this version, or the first that is none.
pub(crate) fn try_relations(version: Version, values: &[Value]) -> Result<(), CaseStop>
    requires { length values.now < 2 ^ 32 }
    ensures { refusal result ≡ each (is_relation version) (Shape part.Relation) (map view values.now) }
{
    if let Some(i) = first_unrelated(version, values) {
        return Err(CaseStop::Shape {
            part: Part::Relation,
            index: i as u32,
        });
    }
    Ok(())
}

// The first value that is no relation of this version.
fn first_unrelated(version: Version, values: &[Value]) -> Option<usize>
    ensures { result ≡ position (λ v. not (is_relation version (view v))) values.now }
{
    values
        .iter()
        .position(|value| !relation::is_relation(version, value))
}
