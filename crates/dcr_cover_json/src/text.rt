ghost use Rattle.std.specs.Prelude.{◌≡◌, length, map, Some, IfOk};
ghost use Rattle.serde_json.specs.View.{view};
ghost use Rattle.dcr_proj.specs.CoverValue.{atoms_of};
ghost use Rattle.dcr_format.specs.SizeLaws.{json_in};
ghost use Rattle.dcr_cover_json.specs.Text.{site_value, site_values, owned_values, cover_value, cover_text};

use dcr_graph::{Graph, Name};
use dcr_proj::Cover;
use dcr_set::{EventSet, NoMemory, SiteId};
use serde_json::{Map, Value};
use std::alloc::Global;

/// The canonical text of a cover of a graph: the compact JSON text of an array with an object for each site
/// in order, of `events`, the names of its atoms in ascending order of number, and `site`, its name. It is
/// the JSON text of `cover_value`. `NoMemory` where memory could not be had.
pub fn cover_text(alloc: Global, graph: &Graph, cover: &Cover) -> Result<Vec<u8>, NoMemory>
    requires { atoms_of cover.now.owned ≡ length graph.now.names }
    ensures text { IfOk result (λ text. text.items ≡ cover_text graph.now.names cover.now) }
    ensures reads_back { IfOk result (λ text. json_in text.items ≡ Some (cover_value graph.now.names cover.now)) }
{
    let value = cover_value(alloc, graph, cover)?;
    Ok(value.to_vec(alloc)?)
}

/// The JSON value of a cover of a graph, of which `cover_text` is the text. `NoMemory` where memory could not
/// be had.
#[tactic(auto, unfolding(crate::specs::Text::cover_value))]
pub fn cover_value(alloc: Global, graph: &Graph, cover: &Cover) -> Result<Value, NoMemory>
    requires { atoms_of cover.now.owned ≡ length graph.now.names }
    ensures { IfOk result (λ value. view value ≡ cover_value graph.now.names cover.now) }
{
    let sites = site_values(alloc, graph, cover)?;
    Ok(Value::Array(sites))
}

// The JSON value of each site.
fn site_values(alloc: Global, graph: &Graph, cover: &Cover) -> Result<Vec<Value>, NoMemory>
    requires { atoms_of cover.now.owned ≡ length graph.now.names }
    ensures { IfOk result (λ values. map view values.items ≡ site_values graph.now.names cover.now) }
{
    let mut values = Vec::with_capacity(alloc, usize::from(cover.sites()))?;
    for number in 0..cover.sites() {
        let i = SiteId(number);
        values.push(site_value(alloc, graph, cover.name(i), cover.owned(i))?)?;
    }
    Ok(values)
}

// The JSON value of a site with this name, which owns these atoms.
fn site_value(
    alloc: Global,
    graph: &Graph,
    name: &Name,
    owned: &EventSet,
) -> Result<Value, NoMemory>
    requires { length owned.now ≡ length graph.now.names }
    ensures { IfOk result (λ value. view value ≡ site_value graph.now.names name.now owned.now) }
{
    let events = owned_values(alloc, graph, owned)?;
    let site = Value::try_from_str(alloc, name.text())?;
    let mut members = Map::new(alloc);
    serde_json::put(&mut members, alloc, "events", Value::Array(events))?;
    serde_json::put(&mut members, alloc, "site", site)?;
    Ok(Value::Object(members))
}

// The JSON value of the name of each of these atoms.
fn owned_values(alloc: Global, graph: &Graph, owned: &EventSet) -> Result<Vec<Value>, NoMemory>
    requires { length owned.now ≡ length graph.now.names }
    ensures { IfOk result (λ values. map view values.items ≡ owned_values graph.now.names owned.now) }
{
    let mut values = Vec::new(alloc);
    for e in owned.iter() {
        values.push(Value::try_from_str(alloc, graph.name(e).text())?)?;
    }
    Ok(values)
}
