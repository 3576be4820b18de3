ghost use Rattle.std.specs.Prelude.{◌≡◌, ◌<◌, ◌^◌, is_some, map, Some, IfOk};
ghost use Rattle.serde_json.specs.View.{items_view, view};
ghost use Rattle.dcr_format.specs.Size.{items_size};
ghost use Rattle.dcr_roles.specs.Numbering.{user_in};
ghost use Rattle.dcr_roles.specs.Parts.{failing};
ghost use Rattle.dcr_roles.specs.Read.{Says};
ghost use Rattle.dcr_roles.specs.Written.{first_wrong};
ghost use Rattle.dcr_roles.specs.declared.stop.PolicyPart.TheVariants as part;

use crate::numbers::{Numbers, find};
use crate::{PolicyPart, PolicyStop};
use serde_json::Value;
use std::alloc::Global;

/// The user of each session by its number, or the first item that is no text which is a user's name.
pub(crate) fn read_by(
    alloc: Global,
    items: &[Value],
    users: &Numbers<'_>,
) -> Result<Vec<usize>, PolicyStop>
    requires { items_size (items_view items.now) < 2 ^ 32 }
    ensures says { Says (λ _. tt) result (failing part.By (first_wrong (λ _ item. is_some (user_in users.now item)) (map view items.now))) }
    ensures by { IfOk result (λ by. map (user_in users.now) (map view items.now) ≡ map Some by.items) }
{
    let mut by = Vec::with_capacity(alloc, items.len())?;
    for i in 0..items.len() {
        let Some(user) = find_user(&items[i], users) else {
            return Err(PolicyStop::Policy {
                part: PolicyPart::By,
                index: i as u32,
            });
        };
        by.push(user)?;
    }
    Ok(by)
}

// The user whose name the item is.
fn find_user(item: &Value, users: &Numbers<'_>) -> Option<usize>
    ensures { result ≡ user_in users.now (view item.now) }
{
    let name = item.as_str()?;
    find(users, name.as_bytes())
}
