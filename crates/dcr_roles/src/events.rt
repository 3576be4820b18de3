ghost use Rattle.std.specs.Prelude.{◌≡◌, ◌<◌, ◌^◌, codes, map, IfOk, OnOk};
ghost use Rattle.std.specs.List.{AllZip};
ghost use Rattle.serde_json.specs.View.{items_view, view};
ghost use Rattle.dcr_roles.specs.Elements.{graph_elements};
ghost use Rattle.dcr_format.specs.Size.{items_size, size};
ghost use Rattle.dcr_roles.specs.Numbering.{AreNumbersOf, GoesOn, IsNumbering};
ghost use Rattle.dcr_roles.specs.Parts.{failing};
ghost use Rattle.dcr_roles.specs.Read.{Says};
ghost use Rattle.dcr_roles.specs.Written.{first_wrong, fits_event, roles_at};
ghost use Rattle.dcr_roles.specs.declared.stop.PolicyPart.TheVariants as part;

use crate::names::RoleNames;
use crate::roles::roles_if_there;
use crate::{PolicyPart, PolicyStop};
use dcr_format::{elements, member};
use dcr_policy::RoleList;
use serde_json::Value;
use std::alloc::Global;

/// The objects of the events of a case file; none where the value has none.
pub(crate) fn events_of(value: &Value) -> &[Value]
    ensures events { map view result.now ≡ graph_elements (codes "events") (view value.now) }
    ensures smaller { items_size (items_view result.now) < size (view value.now) }
{
    let Some(graph) = member(value, "graph") else {
        return &[];
    };
    let Some(events) = member(graph, "events") else {
        return &[];
    };
    elements(events).unwrap_or(&[])
}

/// The own roles of each event, by their numbers; or the first event whose `roles` are no array of names.
pub(crate) fn read_events<'v>(
    alloc: Global,
    events: &'v [Value],
    names: &mut RoleNames<'v>,
) -> Result<Vec<RoleList>, PolicyStop>
    requires numbered { IsNumbering names.old.numbers names.old.names.items }
    requires few { items_size (items_view events.now) < 2 ^ 32 }
    ensures says { Says (λ _. tt) result (failing part.Event (first_wrong (λ _ event. fits_event event) (map view events.now))) }
    ensures numbered { OnOk result (IsNumbering names.new.numbers names.new.names.items) }
    ensures goes_on { OnOk result (GoesOn names.old.names.items names.new.names.items) }
    ensures roles { IfOk result (λ own. AllZip (λ event roles. AreNumbersOf names.new.names.items (roles_at event) roles) (map view events.now) own.items) }
{
    let mut own = Vec::with_capacity(alloc, events.len())?;
    for i in 0..events.len() {
        let Some(roles) = roles_if_there(alloc, &events[i], names)? else {
            return Err(PolicyStop::Policy {
                part: PolicyPart::Event,
                index: i as u32,
            });
        };
        own.push(roles)?;
    }
    Ok(own)
}
