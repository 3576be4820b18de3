// The events of the alphabet, read from the JSON value of a part.
ghost use Rattle.std.specs.Prelude.{◌≡◌, ℕ, ◌<◌, ◌≤◌, List, Bool, None, Some, true, length, map, replicate, IfOk, IfSome, if◌then◌else◌};
ghost use Rattle.serde_json.specs.Data.{boolean, string, array, no_items, item};
ghost use Rattle.serde_json.specs.View.{view};
ghost use Rattle.dcr_set.specs.EventSet.{numbers, with_event};
ghost use Rattle.dcr_set.specs.declared.id.TheConstants.{MAX_ATOMS};
ghost use Rattle.dcr_graph.specs.Names.{is_name};
ghost use Rattle.dcr_part.specs.PartText.{event_value, number_value, part_value};
ghost use Rattle.dcr_part.specs.Read.{IsFound, IsTold};
ghost use Rattle.dcr_part.specs.Told.{Told};

use crate::numbers::read_number;
use dcr_format::{elements, member};
use dcr_graph::{Name, NameStop};
use dcr_set::{EventId, EventSet, NoMemory};
use serde_json::Value;
use std::alloc::Global;

/// Which events are owned, and the name of each event of the alphabet at its number.
#[derive(Drop)]
pub(crate) struct Alphabet {
    pub(crate) own: EventSet,
    pub(crate) names: Vec<Option<Name>>,
}

/// The alphabet of a part, over so many atoms.
pub(crate) fn read_alphabet(
    alloc: Global,
    value: &Value,
    atoms: u16,
) -> Result<Option<Alphabet>, NoMemory>
    requires { atoms ≤ MAX_ATOMS }
    ensures own { IfOk result (λ found. IfSome found (λ alphabet. length alphabet.own ≡ atoms)) }
    ensures names { IfOk result (λ found. IfSome found (λ alphabet. length alphabet.names.items ≡ atoms)) }
    ensures read { (P : Told) → IsTold P → P.rules.atoms ≡ atoms → view value.now ≡ part_value P
        → IfOk result (λ found. IsFound found (λ alphabet. (alphabet.own ≡ P.own) × (alphabet.names.items ≡ P.names))) }
{
    let Some(alphabet) = member(value, "alphabet") else {
        return Ok(None);
    };
    let Some(events) = elements(alphabet) else {
        return Ok(None);
    };
    read_events(alloc, events, atoms)
}

// The same of the values of its events.
fn read_events(alloc: Global, events: &[Value], atoms: u16) -> Result<Option<Alphabet>, NoMemory>
    requires { atoms ≤ MAX_ATOMS }
    ensures own { IfOk result (λ found. IfSome found (λ alphabet. length alphabet.own ≡ atoms)) }
    ensures names { IfOk result (λ found. IfSome found (λ alphabet. length alphabet.names.items ≡ atoms)) }
    ensures read { (P : Told) → IsTold P → P.rules.atoms ≡ atoms → map view events.now ≡ map (event_value P.own P.names) (numbers P.alphabet)
        → IfOk result (λ found. IsFound found (λ alphabet. (alphabet.own ≡ P.own) × (alphabet.names.items ≡ P.names))) }
{
    let mut own = EventSet::new(atoms);
    let mut names = no_names(alloc, atoms)?;
    for value in events {
        let Some(event) = read_event(alloc, value, atoms)? else {
            return Ok(None);
        };
        let Event {
            number,
            name,
            owned,
        } = event;
        add(&mut own, number, owned);
        names[usize::from(number.0)] = Some(name);
    }
    Ok(Some(Alphabet { own, names }))
}

// No name of so many.
fn no_names(alloc: Global, count: u16) -> Result<Vec<Option<Name>>, NoMemory>
    ensures { IfOk result (λ names. names.items ≡ replicate count None) }
{
    let mut names = Vec::with_capacity(alloc, usize::from(count))?;
    for _ in 0..count {
        names.push(None)?;
    }
    Ok(names)
}

// Adds an event where it is owned.
fn add(set: &mut EventSet, e: EventId, owned: bool)
    requires { e < length set.old }
    ensures added { set.new ≡ (if owned then with_event set.old e else set.old) }
    ensures room { length set.new ≡ length set.old }
{
    if owned {
        set.insert(e);
    }
}

// An event of the alphabet.
#[derive(Drop)]
struct Event {
    number: EventId,
    name: Name,
    owned: bool,
}

// The event that a value is.
fn read_event(alloc: Global, value: &Value, atoms: u16) -> Result<Option<Event>, NoMemory>
    ensures number { IfOk result (λ found. IfSome found (λ event. event.number < atoms)) }
    ensures read { (e : ℕ) (name : List ℕ) (owned : Bool) → e < atoms → is_name name ≡ true
        → view value.now ≡ array (item (number_value e) (item (string name) (item (boolean owned) no_items)))
        → IfOk result (λ found. found ≡ Some (record { number = e; name = name; owned = owned })) }
{
    let Some([number, name, owned]) = elements(value) else {
        return Ok(None);
    };
    let Some(number) = read_number(number, atoms) else {
        return Ok(None);
    };
    let Some(owned) = owned.as_bool() else {
        return Ok(None);
    };
    let Some(text) = name.as_str() else {
        return Ok(None);
    };
    let Some(name) = read_name(alloc, text)? else {
        return Ok(None);
    };
    Ok(Some(Event {
        number: EventId(number),
        name,
        owned,
    }))
}

/// The name that a text is. None exactly where it is none.
pub(crate) fn read_name(alloc: Global, text: &str) -> Result<Option<Name>, NoMemory>
    ensures { IfOk result (λ found. found ≡ (if is_name text.now then Some text.now else None)) }
{
    match Name::read(alloc, text) {
        Ok(name) => Ok(Some(name)),
        Err(NameStop::NotName) => Ok(None),
        Err(NameStop::NoMemory) => Err(NoMemory),
    }
}
