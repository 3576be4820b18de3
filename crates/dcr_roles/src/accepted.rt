ghost use Rattle.std.specs.Prelude.{◌≡◌, ◌<◌, length, Err, IfOk};
ghost use Rattle.dcr_format.specs.declared.stop.CaseStop.TheVariants.{TooLong};
ghost use Rattle.dcr_roles.specs.Accepted.{accepted_in, IsAccepted, SaysAccepted};
ghost use Rattle.dcr_roles.specs.declared.accepted.AcceptStop.TheVariants as why;

use crate::PolicyStop;
use crate::read::policy_of;
use dcr_json::{Case, CaseStop, read_file, read_value};
use dcr_policy::Policy;
use std::alloc::Global;
use thiserror::Error;

/// A case with its policy, which is over as many atoms and allows every call of the case's sessions.
#[derive(Drop)]
pub struct Accepted {
    /// The case.
    pub case: Case,
    /// Who may execute which of its events.
    pub policy: Policy,
}

/// Why bytes are not accepted: they are refused as a case, or else their policy is.
#[derive(Debug, Drop, Error)]
pub enum AcceptStop {
    /// The bytes spell no case.
    #[error("no case")]
    Case { stop: CaseStop },
    /// The bytes spell a case, and no policy of it; or one that denies a call of its sessions.
    #[error("no policy, or one that denies a call")]
    Policy { stop: PolicyStop },
}

impl From<CaseStop> for AcceptStop {
    ghost from_gives = { λ refused stop. stop ≡ why.Case refused };

    fn from(stop: CaseStop) -> AcceptStop {
        AcceptStop::Case { stop }
    }
}

impl From<PolicyStop> for AcceptStop {
    ghost from_gives = { λ refused stop. stop ≡ why.Policy refused };

    fn from(stop: PolicyStop) -> AcceptStop {
        AcceptStop::Policy { stop }
    }
}

/// The case that the bytes of a file spell, with its policy, or the first refusal that holds of them, as the definition
/// says it, both ways. The JSON text is read once. Want of memory may come in the place of any answer but `TooLong`,
/// which takes no memory.
#[tactic(auto, unfolding(crate::specs::Accepted::accepted_in))]
pub fn read_accepted(alloc: Global, bytes: &[u8]) -> Result<Accepted, AcceptStop>
    ensures says { SaysAccepted result (accepted_in bytes.now) }
    ensures fits { IfOk result IsAccepted }
    ensures too_long { 16777216 < length bytes.now → result ≡ Err (why.Case TooLong) }
{
    let value = read_file(alloc, bytes)?;
    let case = read_value(alloc, &value)?;
    let policy = policy_of(alloc, &value, &case)?;
    Ok(Accepted { case, policy })
}
