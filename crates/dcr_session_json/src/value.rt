ghost use Rattle.std.specs.Prelude.{◌≡◌, length, map, IfOk};
ghost use Rattle.std.specs.List.{All};
ghost use Rattle.serde_json.specs.Data.{string};
ghost use Rattle.serde_json.specs.View.{view};
ghost use Rattle.dcr_journal.specs.Run.{IsInRange};
ghost use Rattle.dcr_format.specs.Texts.{AreAllNames};
ghost use Rattle.dcr_session_json.specs.Value.{call_value, call_values, session_values, sessions_value};

use dcr_graph::Graph;
use dcr_journal::{Call, CallList};
use dcr_line::write_call;
use dcr_proj::Cover;
use dcr_set::NoMemory;
use serde_json::Value;
use std::alloc::Global;

/// The JSON value of sessions: an array with, for each session, the array of the texts of its calls. The sites and the
/// events of the calls are ones that there are. `NoMemory` where memory could not be had.
pub fn sessions_value(
    alloc: Global,
    graph: &Graph,
    cover: &Cover,
    sessions: &[CallList],
) -> Result<Value, NoMemory>
    requires atoms { AreAllNames graph.now.names }
    requires sites { AreAllNames cover.now.names }
    requires in_range { All (λ calls. All (IsInRange (length cover.now.names) (length graph.now.names)) calls) sessions.now }
    ensures { IfOk result (λ value. view value ≡ sessions_value cover.now.names graph.now.names sessions.now) }
{
    let values = session_values(alloc, graph, cover, sessions)?;
    Ok(Value::Array(values))
}

// The JSON value of each session.
fn session_values(
    alloc: Global,
    graph: &Graph,
    cover: &Cover,
    sessions: &[CallList],
) -> Result<Vec<Value>, NoMemory>
    requires atoms { AreAllNames graph.now.names }
    requires sites { AreAllNames cover.now.names }
    requires in_range { All (λ calls. All (IsInRange (length cover.now.names) (length graph.now.names)) calls) sessions.now }
    ensures { IfOk result (λ values. map view values.items ≡ session_values cover.now.names graph.now.names sessions.now) }
{
    let mut values = Vec::with_capacity(alloc, sessions.len())?;
    for calls in sessions {
        values.push(Value::Array(call_values(alloc, graph, cover, calls)?))?;
    }
    Ok(values)
}

// The JSON value of each call.
fn call_values(
    alloc: Global,
    graph: &Graph,
    cover: &Cover,
    calls: &CallList,
) -> Result<Vec<Value>, NoMemory>
    requires atoms { AreAllNames graph.now.names }
    requires sites { AreAllNames cover.now.names }
    requires in_range { All (IsInRange (length cover.now.names) (length graph.now.names)) calls.now }
    ensures { IfOk result (λ values. map view values.items ≡ call_values cover.now.names graph.now.names calls.now) }
{
    let mut values = Vec::with_capacity(alloc, calls.len())?;
    for place in 0..calls.len() {
        let Some(call) = calls.get(place) else {
            unreachable!()
        };
        values.push(call_value(alloc, graph, cover, call)?)?;
    }
    Ok(values)
}

// The JSON value of a call: its text.
fn call_value(alloc: Global, graph: &Graph, cover: &Cover, call: &Call) -> Result<Value, NoMemory>
    requires atoms { AreAllNames graph.now.names }
    requires sites { AreAllNames cover.now.names }
    requires in_range { IsInRange (length cover.now.names) (length graph.now.names) call.now }
    ensures { IfOk result (λ value. view value ≡ call_value cover.now.names graph.now.names call.now) }
{
    let mut line = Vec::new(alloc);
    write_call(call, graph, cover, &mut line)?;
    let Ok(text) = String::from_utf8(line) else {
        unreachable!()
    };
    Ok(Value::String(text))
}
