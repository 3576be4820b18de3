ghost use Rattle.std.specs.Prelude.{◌≡◌, Ok, None, IfOk, IsNone};
ghost use Rattle.dcr_base.specs.Count.{CountsFault};
ghost use Rattle.dcr_base.specs.Door.{Doors, GivesNext, HasNoneLeft, IsFresh};
ghost use Rattle.dcr_base.specs.Link.{links_of};

use crate::{Failed, Link};

/// Where links come from, one after the other, until it is shut.
///
/// A door is shut from the first time on that it had no link to give, and stays so: from there on it gives none. So each
/// run of calls is one that a door can show which tells its links.
pub trait Door {
    /// What comes in.
    type Link: Link;

    /// What it tells: the links that are left, that it is shut, how many times it has failed, and what each link tells.
    ghost tells: { Doors Self Self.Link Self.Link.Rest };

    /// The next link, which has counted no fault. None of a door that is shut. `Failed` comes when the outside fails; no
    /// link is lost by it. It may wait for a link to come.
    fn next(&mut self) -> Result<Option<Self::Link>, Failed>
        ensures given { GivesNext (tells.links self.old) (tells.links self.new) result }
        ensures fresh { IsFresh tells.each result }
        ensures shuts { result ≡ Ok None → tells.is_shut self.new }
        ensures stays_shut { tells.is_shut self.old → tells.is_shut self.new }
        ensures gives_none { tells.is_shut self.old → IfOk result IsNone }
        ensures counts { CountsFault result (tells.faults self.old) (tells.faults self.new) };

    /// What it says of its links is what they tell.
    ghost each_is: { tells.each ≡ links_of Self.Link.gives Self.Link.takes Self.Link.Rest.unread Self.Link.Rest.sent };

    /// A door that is shut and tells its links has none left.
    ghost shut_has_none: { (door : Self) → tells.is_shut door → HasNoneLeft (tells.links door) };
}
