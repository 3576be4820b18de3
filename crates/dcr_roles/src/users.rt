ghost use Rattle.std.specs.Prelude.{◌≡◌, ◌<◌, ◌^◌, ◌&&◌, true, is_none, map, IfOk, OnOk};
ghost use Rattle.std.specs.List.{All, AllZip};
ghost use Rattle.serde_json.specs.View.{items_view, view};
ghost use Rattle.dcr_graph.specs.IndexModel.{number_at};
ghost use Rattle.dcr_graph.specs.Names.{is_name};
ghost use Rattle.dcr_format.specs.Size.{items_size};
ghost use Rattle.dcr_roles.specs.Numbering.{name_of, AreNumbers, AreNumbersOf, GoesOn, HasName, IsAdded, IsNumbering};
ghost use Rattle.dcr_roles.specs.Parts.{failing};
ghost use Rattle.dcr_roles.specs.Read.{Says};
ghost use Rattle.dcr_roles.specs.Written.{first_wrong, fits_as_user, fits_user, roles_at};
ghost use Rattle.dcr_roles.specs.declared.stop.PolicyPart.TheVariants as part;

use crate::names::RoleNames;
use crate::numbers::{Numbers, find, put};
use crate::roles::read_roles;
use crate::{PolicyPart, PolicyStop};
use dcr_format::{member, member_text};
use dcr_graph::{Name, NameStop};
use dcr_policy::RoleList;
use dcr_set::NoMemory;
use serde_json::Value;
use std::alloc::Global;
use std::collections::BTreeMap;

/// The users of a file: the roles of each, by their numbers, and the number of each by its name.
#[derive(Drop)]
pub(crate) struct Users<'v> {
    pub(crate) roles: Vec<RoleList>,
    pub(crate) numbers: Numbers<'v>,
}

/// The users, or the first that is none: no object with a name that is no earlier user's and an array of names for roles.
pub(crate) fn read_users<'v>(
    alloc: Global,
    values: &'v [Value],
    names: &mut RoleNames<'v>,
) -> Result<Users<'v>, PolicyStop>
    requires numbered { IsNumbering names.old.numbers names.old.names.items }
    requires few { items_size (items_view values.now) < 2 ^ 32 }
    ensures says { Says (λ _. tt) result (failing part.User (first_wrong (fits_user (map view values.now)) (map view values.now))) }
    ensures numbered { OnOk result (IsNumbering names.new.numbers names.new.names.items) }
    ensures goes_on { OnOk result (GoesOn names.old.names.items names.new.names.items) }
    ensures called { OnOk result (All HasName (map view values.now)) }
    ensures users { IfOk result (λ users. AreNumbers users.numbers (map name_of (map view values.now))) }
    ensures roles { IfOk result (λ users. AllZip (λ user roles. AreNumbersOf names.new.names.items (roles_at user) roles) (map view values.now) users.roles.items) }
{
    let mut users = Users {
        roles: Vec::with_capacity(alloc, values.len())?,
        numbers: BTreeMap::new(alloc),
    };
    for i in 0..values.len() {
        if !read_user(alloc, &values[i], &mut users, names)? {
            return Err(PolicyStop::Policy {
                part: PolicyPart::User,
                index: i as u32,
            });
        }
    }
    Ok(users)
}

// Whether the value is a user with a name that none of these has, who is added to them then. After `NoMemory` nothing is
// known of them, nor of the roles.
fn read_user<'v>(
    alloc: Global,
    value: &'v Value,
    users: &mut Users<'v>,
    names: &mut RoleNames<'v>,
) -> Result<bool, NoMemory>
    requires { IsNumbering names.old.numbers names.old.names.items }
    ensures read { IfOk result (λ is. is ≡ fits_as_user (λ name. is_none (number_at users.old.numbers name)) (view value.now)) }
    ensures numbered { OnOk result (IsNumbering names.new.numbers names.new.names.items) }
    ensures goes_on { OnOk result (GoesOn names.old.names.items names.new.names.items) }
    ensures added { IfOk result (λ is. is ≡ true → IsAdded names.new.names.items (view value.now) users.old users.new) }
{
    let Some(name) = member_text(value, "user") else {
        return Ok(false);
    };
    if !is_new_name(alloc, name, &users.numbers)? {
        return Ok(false);
    }
    let Some(roles) = member(value, "roles") else {
        return Ok(false);
    };
    let Some(roles) = read_roles(alloc, roles, names)? else {
        return Ok(false);
    };
    put(&mut users.numbers, name.as_bytes(), users.roles.len())?;
    users.roles.push(roles)?;
    Ok(true)
}

// Whether the text is a name that has no number.
fn is_new_name(alloc: Global, text: &str, numbers: &Numbers<'_>) -> Result<bool, NoMemory>
    ensures { IfOk result (λ is. is ≡ (is_name text.now && is_none (number_at numbers.now text.now))) }
{
    match Name::read(alloc, text) {
        Ok(_) => Ok(find(numbers, text.as_bytes()).is_none()),
        Err(NameStop::NotName) => Ok(false),
        Err(NameStop::NoMemory) => Err(NoMemory),
    }
}
