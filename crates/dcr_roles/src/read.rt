ghost use Rattle.std.specs.Prelude.{◌≡◌, ◌<◌, ◌^◌, codes, length, replicate, [], Ok, IfOk};
ghost use Rattle.serde_json.specs.Data.{Data};
ghost use Rattle.serde_json.specs.View.{view};
ghost use Rattle.dcr_nest.specs.Nest.{parents_of};
ghost use Rattle.dcr_roles.specs.Elements.{graph_elements};
ghost use Rattle.dcr_format.specs.Size.{size};
ghost use Rattle.dcr_json.specs.Built.{case_of, IsCase};
ghost use Rattle.dcr_json.specs.Case.{case_in};
ghost use Rattle.dcr_json.specs.Refusals.{SpellsJson};
ghost use Rattle.dcr_roles.specs.Policy.{nothing_asked, policy_if_fit, policy_told};
ghost use Rattle.dcr_roles.specs.Read.{policy_in, IsSpelledBy, Says};
ghost use Rattle.dcr_roles.specs.Written.{is_third};

use crate::allowed::try_sessions;
use crate::by::read_by;
use crate::events::{events_of, read_events};
use crate::names::RoleNames;
use crate::users::read_users;
use crate::{PolicyPart, PolicyStop};
use dcr_format::{array_or_none, member_text, read_json};
use dcr_json::{Case, opening_is_written};
use dcr_nest::Nested;
use dcr_policy::{Policy, RoleList};
use dcr_set::NoMemory;
use serde_json::Value;
use std::alloc::Global;

/// The policy that the bytes of a case file spell, where they spell this case: over as many atoms. `Policy` exactly where
/// the file is of the third version and this is its first part that fails; `Denied` exactly where none fails and this is
/// the least call of its sessions that is denied. In the other versions nothing of it is looked at, and everything is
/// allowed. `NoMemory` may come in the place of any answer.
pub fn read_policy(alloc: Global, bytes: &[u8], case: &Case) -> Result<Policy, PolicyStop>
    requires fits { IsCase case.now }
    requires spelled { case_in bytes.now ≡ Ok (case_of case.now) }
    ensures says { (d : Data) → SpellsJson bytes.now d → Says (λ policy. policy) result (policy_in d (case_of case.now)) }
    ensures atoms { IfOk result (λ policy. length policy.atoms ≡ length case.now.graph.names) }
{
    let Some(value) = read_json(alloc, bytes)? else {
        unreachable!()
    };
    let policy = policy_of(alloc, &value, case)?;
    Ok(policy)
}

/// The same of the JSON value that the bytes are.
#[tactic(auto, unfolding(crate::specs::Read::policy_in))]
pub(crate) fn policy_of(alloc: Global, value: &Value, case: &Case) -> Result<Policy, PolicyStop>
    requires fits { IsCase case.now }
    requires spelled { IsSpelledBy (view value.now) (case_of case.now) }
    requires small { size (view value.now) < 2 ^ 32 }
    ensures says { Says (λ policy. policy) result (policy_in (view value.now) (case_of case.now)) }
    ensures atoms { IfOk result (λ policy. length policy.atoms ≡ length case.now.graph.names) }
{
    opening_is_written();
    let policy = told(alloc, value, &case.nested)?;
    try_sessions(alloc, &policy, case.sessions.all())?;
    Ok(policy)
}

// The policy, whatever it says of the calls of the case.
#[tactic(auto, unfolding(crate::specs::Policy::policy_told))]
fn told(alloc: Global, value: &Value, nested: &Nested) -> Result<Policy, PolicyStop>
    requires as_many { length (graph_elements (codes "events") (view value.now)) ≡ length nested.now.nodes }
    requires small { size (view value.now) < 2 ^ 32 }
    ensures { Says (λ policy. policy) result (policy_told (view value.now) (parents_of nested.now.nodes)) }
{
    if is_third(value) {
        return written(alloc, value, nested);
    }
    let policy = nothing_asked(alloc, nested)?;
    Ok(policy)
}

// Whether the value is of the third version.
fn is_third(value: &Value) -> bool
    ensures { result ≡ is_third (view value.now) }
{
    match member_text(value, "version") {
        Some(text) => text == "3",
        None => false,
    }
}

// The policy of events that ask for no role.
fn nothing_asked(alloc: Global, nested: &Nested) -> Result<Policy, NoMemory>
    ensures { IfOk result (λ policy. policy ≡ nothing_asked (parents_of nested.now.nodes)) }
{
    let own = no_roles(alloc, nested.nodes().len())?;
    let none = Vec::new(alloc);
    let policy = Policy::new(alloc, nested, Vec::new(alloc), own, none, Vec::new(alloc))?;
    Ok(policy)
}

// No role for each of so many.
fn no_roles(alloc: Global, count: usize) -> Result<Vec<RoleList>, NoMemory>
    ensures { IfOk result (λ own. own.items ≡ replicate count []) }
{
    let mut own = Vec::with_capacity(alloc, count)?;
    for _ in 0..count {
        own.push(RoleList::new(Vec::new(alloc)))?;
    }
    Ok(own)
}

// The policy that is written, or its first part that fails.
#[tactic(auto, unfolding(crate::specs::Parts::parts_fit))]
fn written(alloc: Global, value: &Value, nested: &Nested) -> Result<Policy, PolicyStop>
    requires as_many { length (graph_elements (codes "events") (view value.now)) ≡ length nested.now.nodes }
    requires small { size (view value.now) < 2 ^ 32 }
    ensures { Says (λ policy. policy) result (policy_if_fit (view value.now) (parents_of nested.now.nodes)) }
{
    let mut names = RoleNames::new(alloc);
    let own = read_events(alloc, events_of(value), &mut names)?;
    let Some(users) = array_or_none(value, "users") else {
        return Err(stop(PolicyPart::Users));
    };
    let users = read_users(alloc, users, &mut names)?;
    let Some(items) = array_or_none(value, "by") else {
        return Err(stop(PolicyPart::By));
    };
    let by = read_by(alloc, items, &users.numbers)?;
    let policy = Policy::new(alloc, nested, names.names, own, users.roles, by)?;
    Ok(policy)
}

// The refusal of a part of which there is one.
fn stop(part: PolicyPart) -> PolicyStop
    ensures { result ≡ PolicyStop.Policy part 0 }
{
    PolicyStop::Policy { part, index: 0 }
}
