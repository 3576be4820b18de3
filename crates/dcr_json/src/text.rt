ghost use Rattle.std.specs.Prelude.{◌≡◌, ◌≤◌, length, sum_by, IfOk, Ok};
ghost use Rattle.serde_json.specs.View.{view};
ghost use Rattle.dcr_json.specs.Built.{case_of, IsCase};
ghost use Rattle.dcr_json.specs.Case.{case_in};
ghost use Rattle.dcr_json.specs.CaseText.{case_text, case_value};

use crate::Case;
use crate::version::version_text;
use dcr_cover_json::cover_value;
use dcr_graph_json::graph_value;
use dcr_session_json::sessions_value;
use dcr_set::NoMemory;
use serde_json::{Map, Value};
use std::alloc::Global;

/// The text of a case: the compact JSON text of a case file that is read as this very case, in which an event has
/// those marks alone that differ from included alone. The case is one as it is read, of at most 20,000 calls, so
/// that the text is no longer than a case file may be. `NoMemory` where memory could not be had.
pub fn case_text(alloc: Global, case: &Case) -> Result<Vec<u8>, NoMemory>
    requires fits { IsCase case.now }
    requires few_calls { sum_by length case.now.sessions ≤ 20000 }
    ensures text { IfOk result (λ text. text.items ≡ case_text (case_of case.now)) }
    ensures reads_back { IfOk result (λ text. case_in text.items ≡ Ok (case_of case.now)) }
{
    let value = case_value(alloc, case)?;
    Ok(value.to_vec(alloc)?)
}

// The JSON value of a case.
#[tactic(auto, unfolding(crate::specs::CaseText::case_value))]
fn case_value(alloc: Global, case: &Case) -> Result<Value, NoMemory>
    requires { IsCase case.now }
    ensures { IfOk result (λ value. view value ≡ case_value (case_of case.now)) }
{
    let cover = cover_value(alloc, &case.graph, &case.cover)?;
    let graph = graph_value(alloc, &case.nested, Some(&case.opening))?;
    let sessions = sessions_value(alloc, &case.graph, &case.cover, case.sessions.all())?;
    let version = Value::try_from_str(alloc, version_text(case.nested.version()))?;
    let mut members = Map::new(alloc);
    serde_json::put(&mut members, alloc, "cover", cover)?;
    serde_json::put(&mut members, alloc, "graph", graph)?;
    serde_json::put(&mut members, alloc, "sessions", sessions)?;
    serde_json::put(&mut members, alloc, "version", version)?;
    Ok(Value::Object(members))
}
