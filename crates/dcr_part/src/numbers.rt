// Numbers and sets of numbers, read from the JSON values of a part.
ghost use Rattle.std.specs.Prelude.{◌≡◌, ℕ, ◌<◌, ◌≤◌, List, Bool, Some, length, map, IfSome};
ghost use Rattle.serde_json.specs.Find.{get};
ghost use Rattle.serde_json.specs.View.{view};
ghost use Rattle.dcr_set.specs.EventSet.{numbers};
ghost use Rattle.dcr_set.specs.declared.id.TheConstants.{MAX_ATOMS};
ghost use Rattle.dcr_graph.specs.Projection.{as_marking, FitsAtoms, HasRoom};
ghost use Rattle.dcr_graph.specs.declared.marking.SiteMark.{SiteMark as Marks};
ghost use Rattle.dcr_part.specs.PartText.{number_value, set_value, opening_value, part_value};
ghost use Rattle.dcr_part.specs.Read.{IsTold};
ghost use Rattle.dcr_part.specs.Told.{Told};

use dcr_format::{elements, member};
use dcr_graph::Marking;
use dcr_set::{EventId, EventSet};
use serde_json::Value;

/// A number below this one.
pub(crate) fn read_number(value: &Value, below: u16) -> Option<u16>
    ensures below { IfSome result (λ number. number < below) }
    ensures read { (k : ℕ) → k < below → view value.now ≡ number_value k → result ≡ Some k }
{
    let number = value.as_u64()?;
    if number < u64::from(below) {
        return Some(number as u16);
    }
    None
}

/// The number below this one that a member is.
pub(crate) fn member_number(value: &Value, name: &str, below: u16) -> Option<u16>
    ensures below { IfSome result (λ number. number < below) }
    ensures read { (k : ℕ) → k < below → get name.now (view value.now) ≡ Some (number_value k) → result ≡ Some k }
{
    let number = member(value, name)?;
    read_number(number, below)
}

/// A set with this room.
pub(crate) fn read_set(value: &Value, room: u16) -> Option<EventSet>
    requires { room ≤ MAX_ATOMS }
    ensures room { IfSome result (λ set. length set ≡ room) }
    ensures read { (s : List Bool) → length s ≡ room → view value.now ≡ set_value s → result ≡ Some s }
{
    let items = elements(value)?;
    set_of(items, room)
}

// The set with this room that has these numbers.
fn set_of(items: &[Value], room: u16) -> Option<EventSet>
    requires { room ≤ MAX_ATOMS }
    ensures room { IfSome result (λ set. length set ≡ room) }
    ensures read { (s : List Bool) → length s ≡ room → map view items.now ≡ map number_value (numbers s) → result ≡ Some s }
{
    let mut set = EventSet::new(room);
    for item in items {
        let number = read_number(item, room)?;
        set.insert(EventId(number));
    }
    Some(set)
}

/// The set with this room that a member is.
pub(crate) fn member_set(value: &Value, name: &str, room: u16) -> Option<EventSet>
    requires { room ≤ MAX_ATOMS }
    ensures room { IfSome result (λ set. length set ≡ room) }
    ensures read { (s : List Bool) → length s ≡ room → get name.now (view value.now) ≡ Some (set_value s) → result ≡ Some s }
{
    let set = member(value, name)?;
    read_set(set, room)
}

/// The opening marks of a part, as a marking over so many atoms.
pub(crate) fn read_opening(value: &Value, atoms: u16) -> Option<Marking>
    requires { atoms ≤ MAX_ATOMS }
    ensures room { IfSome result (HasRoom atoms) }
    ensures read { (P : Told) → IsTold P → P.rules.atoms ≡ atoms → view value.now ≡ part_value P → result ≡ Some (as_marking P.mark) }
{
    let opening = member(value, "opening")?;
    read_marks(opening, atoms)
}

// The same of the value of its marks.
fn read_marks(value: &Value, atoms: u16) -> Option<Marking>
    requires { atoms ≤ MAX_ATOMS }
    ensures room { IfSome result (HasRoom atoms) }
    ensures read { (m : Marks) → FitsAtoms atoms m.executed m.pending m.included → view value.now ≡ opening_value m → result ≡ Some (as_marking m) }
{
    let executed = member_set(value, "executed", atoms)?;
    let pending = member_set(value, "pending", atoms)?;
    let included = member_set(value, "included", atoms)?;
    Some(Marking {
        executed,
        pending,
        included,
    })
}
