ghost use Rattle.std.specs.Prelude.{◌≡◌, true, false, codes, IfOk, OnOk, MatchOption};
ghost use Rattle.serde_json.specs.Find.{get};
ghost use Rattle.serde_json.specs.View.{view};
ghost use Rattle.dcr_roles.specs.Numbering.{AreNumbersOf, GoesOn, IsNumbering};
ghost use Rattle.dcr_roles.specs.Written.{are_names, fits_event, roles_at, texts_of};

use crate::names::RoleNames;
use dcr_format::{elements, member};
use dcr_policy::RoleList;
use dcr_set::NoMemory;
use serde_json::Value;
use std::alloc::Global;

/// The roles that the member `roles` names, by their numbers; none where it is missing. None exactly where it is there
/// and is no array of names.
pub(crate) fn roles_if_there<'v>(
    alloc: Global,
    value: &'v Value,
    names: &mut RoleNames<'v>,
) -> Result<Option<RoleList>, NoMemory>
    requires { IsNumbering names.old.numbers names.old.names.items }
    ensures numbered { OnOk result (IsNumbering names.new.numbers names.new.names.items) }
    ensures goes_on { OnOk result (GoesOn names.old.names.items names.new.names.items) }
    ensures read { IfOk result (λ found. MatchOption found (fits_event (view value.now) ≡ false) (λ roles.
        (fits_event (view value.now) ≡ true) × AreNumbersOf names.new.names.items (roles_at (view value.now)) roles)) }
{
    match member(value, "roles") {
        Some(roles) => read_roles(alloc, roles, names),
        None => Ok(Some(RoleList::new(Vec::new(alloc)))),
    }
}

/// The roles that an array names, by their numbers. None exactly where the value is no array of names.
pub(crate) fn read_roles<'v>(
    alloc: Global,
    value: &'v Value,
    names: &mut RoleNames<'v>,
) -> Result<Option<RoleList>, NoMemory>
    requires { IsNumbering names.old.numbers names.old.names.items }
    ensures numbered { OnOk result (IsNumbering names.new.numbers names.new.names.items) }
    ensures goes_on { OnOk result (GoesOn names.old.names.items names.new.names.items) }
    ensures read { IfOk result (λ found. MatchOption found (are_names (view value.now) ≡ false) (λ roles.
        (are_names (view value.now) ≡ true) × AreNumbersOf names.new.names.items (texts_of (view value.now)) roles)) }
{
    let Some(items) = elements(value) else {
        return Ok(None);
    };
    let mut numbers = Vec::with_capacity(alloc, items.len())?;
    for item in items {
        let Some(text) = item.as_str() else {
            return Ok(None);
        };
        let Some(number) = names.number(alloc, text)? else {
            return Ok(None);
        };
        numbers.push(number)?;
    }
    Ok(Some(RoleList::new(numbers)))
}
