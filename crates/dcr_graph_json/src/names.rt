ghost use Rattle.std.specs.Prelude.{◌≡◌, ◌≤◌, ◌<◌, ◌==◌, false, length, map, Some, IfOk, IfErr};
ghost use Rattle.std.specs.Option.{option_map_or};
ghost use Rattle.serde_json.specs.View.{view};
ghost use Rattle.dcr_graph.specs.Names.{number_of};
ghost use Rattle.dcr_format.specs.Facts.{Judges, refusal, unless};
ghost use Rattle.dcr_format.specs.declared.stop.CaseStop.TheVariants.{EventName, NoMemory};
ghost use Rattle.dcr_graph_json.specs.Build.{is_new_name, names_fact};
ghost use Rattle.dcr_graph_json.specs.Written.{names_in};

use crate::event::name;
use dcr_format::CaseStop;
use dcr_graph::{Name, NameIndex, NameStop};
use serde_json::Value;
use std::alloc::Global;

// The texts that stand as names, by text, also where they are none.
pub(crate) fn index_names<'v>(alloc: Global, events: &'v [Value]) -> Result<NameIndex<'v>, CaseStop>
    requires { length events.now ≤ 2048 }
    ensures index { IfOk result (λ index. index ≡ names_in (map view events.now)) }
    ensures memory { IfErr result (λ stop. stop ≡ NoMemory) }
{
    let texts = name_texts(alloc, events)?;
    let index = NameIndex::new(alloc, texts)?;
    Ok(index)
}

// The texts that stand as names, in order.
fn name_texts<'v>(alloc: Global, events: &'v [Value]) -> Result<Vec<&'v [u8]>, CaseStop>
    ensures texts { IfOk result (λ texts. map (λ text. text.now) texts.items ≡ names_in (map view events.now)) }
    ensures memory { IfErr result (λ stop. stop ≡ NoMemory) }
{
    let mut texts = Vec::with_capacity(alloc, events.len())?;
    for event in events {
        texts.push(name(event).as_bytes())?;
    }
    Ok(texts)
}

// The names of the events, or the first that is no name or an earlier event's.
pub(crate) fn read_names(
    alloc: Global,
    index: &NameIndex<'_>,
    events: &[Value],
) -> Result<Vec<Name>, CaseStop>
    requires most { length events.now ≤ 2048 }
    requires index { index.now ≡ names_in (map view events.now) }
    ensures fact { Judges (names_fact (map view events.now)) result }
    ensures names { IfOk result (λ names. names.items ≡ names_in (map view events.now)) }
{
    let mut names = Vec::with_capacity(alloc, events.len())?;
    for i in 0..events.len() {
        let name = read_name(alloc, index, i, name(&events[i]))?;
        names.push(name)?;
    }
    Ok(names)
}

// The name of event `i`. Memory is taken only once nothing is wrong with it, so that want of memory never stands
// for a refusal.
fn read_name(alloc: Global, names: &NameIndex<'_>, i: usize, text: &str) -> Result<Name, CaseStop>
    requires { i < 2048 }
    ensures fact { Judges (unless (is_new_name names.now i text.now) (EventName i)) result }
    ensures name { IfOk result (λ name. name ≡ text.now) }
    ensures refused { is_new_name names.now i text.now ≡ false → refusal result ≡ Some (EventName i) }
{
    if !is_first(names, i, text) {
        return Err(CaseStop::EventName { i: i as u32 });
    }
    match Name::read(alloc, text) {
        Ok(name) => Ok(name),
        Err(NameStop::NotName) => Err(CaseStop::EventName { i: i as u32 }),
        Err(NameStop::NoMemory) => Err(CaseStop::NoMemory),
    }
}

// Whether the first event that has this name is event `i`.
fn is_first(names: &NameIndex<'_>, i: usize, text: &str) -> bool
    ensures { result ≡ option_map_or (λ k. k == i) (number_of names.now text.now) false }
{
    match names.find(text.as_bytes()) {
        Some(number) => usize::from(number) == i,
        None => false,
    }
}
