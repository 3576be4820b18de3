ghost use Rattle.dcr_roles.specs.Laws.{AcceptedAreTheFormats, OneOfTheTwo, OthersAllowAll, PoliciesAreTheFormats, RefusalsAreTheFormats};

/// A policy is refused exactly where its part that is named fails and each part before it is as it should be, by the least
/// index; or no part fails and this call is the least that is denied, for want of this role. It is given exactly where
/// neither is so, and then it is what the file writes.
pub fn when_each_policy_is_refused()
    ensures { PoliciesAreTheFormats }
{}

/// Bytes are refused exactly where nothing that is tried before is wrong and this is; want of memory is never what they
/// are refused for. They are accepted exactly where nothing is wrong, with the case that they spell and the policy that
/// they write. And one of the two holds.
pub fn when_each_refusal_comes()
    ensures refusals { RefusalsAreTheFormats }
    ensures accepted { AcceptedAreTheFormats }
    ensures either { OneOfTheTwo }
{}

/// In a file that is not of the third version no policy is refused, and every call of every session is allowed.
pub fn other_versions_allow_all()
    ensures { OthersAllowAll }
{}
