ghost use Rattle.std.specs.Prelude.{◌≡◌, ◌≢◌, ℕ, List, ◌<◌, ◌^◌, length, None, Some};
ghost use Rattle.std.specs.List.{All};
ghost use Rattle.std.specs.Result.{MatchResult};
ghost use Rattle.dcr_policy.specs.Deny.{IsOfAtoms};
ghost use Rattle.dcr_roles.specs.Allowed.{call_denied, denial, role_for, IsCallDenied};

use crate::PolicyStop;
use dcr_journal::CallList;
use dcr_policy::Policy;
use std::alloc::Global;

/// Whether the policy allows every call of the sessions; else the least that it denies, by the session and then by the
/// call, with the role that it lacks. Memory is taken for the name of that role alone.
pub(crate) fn try_sessions(
    alloc: Global,
    policy: &Policy,
    sessions: &[CallList],
) -> Result<(), PolicyStop>
    requires atoms { All (λ calls. All (IsOfAtoms (length policy.now.atoms)) calls) sessions.now }
    requires few_sessions { length sessions.now < 2 ^ 32 }
    requires few_calls { All (λ calls. length calls < 2 ^ 32) sessions.now }
    ensures { MatchResult result (λ _. denial policy.now sessions.now ≡ None) (λ stop. stop ≢ PolicyStop.NoMemory → denial policy.now sessions.now ≡ Some stop) }
{
    for k in 0..sessions.len() {
        try_calls(alloc, policy, k as u32, &sessions[k])?;
    }
    Ok(())
}

// The same of the calls of session k.
fn try_calls(alloc: Global, policy: &Policy, k: u32, calls: &CallList) -> Result<(), PolicyStop>
    requires atoms { All (IsOfAtoms (length policy.now.atoms)) calls.now }
    requires few { length calls.now < 2 ^ 32 }
    ensures { MatchResult result (λ _. call_denied policy.now k calls.now ≡ None) (λ stop. stop ≢ PolicyStop.NoMemory → IsCallDenied policy.now k calls.now stop) }
{
    for j in 0..calls.len() {
        let call = calls.get(j).unwrap();
        if let Some(role) = policy.deny(k, call) {
            let role = role.copy(alloc)?;
            return Err(PolicyStop::Denied {
                k,
                j: j as u32,
                role,
            });
        }
    }
    Ok(())
}
