ghost use Rattle.dcr_policy.specs.Laws.{NothingAskedIsAllowed, RepeatsDoNotCount, RolesComeFromAbove};

/// Whether a call is denied, and for want of which role, does not change where of roles that are asked for twice the
/// first alone is kept.
pub fn repeats_do_not_count()
    ensures { RepeatsDoNotCount }
{}

/// An atom asks for a role exactly where an event that it is at or below has that role for its own.
pub fn roles_come_from_above()
    ensures { RolesComeFromAbove }
{}

/// Where no event has roles of its own every call is allowed, by every session.
pub fn nothing_asked_is_allowed()
    ensures { NothingAskedIsAllowed }
{}
