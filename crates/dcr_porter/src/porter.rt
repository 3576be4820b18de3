ghost use Rattle.std.specs.Prelude.{◌≡◌, Ok, IfOk};
ghost use Rattle.dcr_base.specs.Count.{CountsFault};
ghost use Rattle.dcr_base.specs.Door.{HasNoneLeft};
ghost use Rattle.dcr_base.specs.Link.{links_of};
ghost use Rattle.dcr_porter.specs.Porter.{Porters, IsSame, BringsNext, IsFresh, HasBack};
ghost use Rattle.dcr_porter.specs.declared.brought.Brought.TheVariants.{Shut};

use crate::Brought;
use dcr_base::{Failed, Link};
use dcr_set::SiteId;

/// Who brings links, one after the other, without waiting for one, and is handed back what stays of each.
///
/// A porter is shut from the first time on that it said so, and stays so: from there on it brings none. So each run of calls is
/// one that a porter can show which tells its links, and what it was handed back.
pub trait Porter {
    /// What it brings.
    type Link: Link;

    /// What it tells: the links that are left, that it is shut, how many times it has failed, what it was handed back, and
    /// what each link tells.
    ghost tells: { Porters Self Self.Link Self.Link.Rest };

    /// Begins to listen, where it listens; one that goes out for its links has nothing to do. `Failed` comes where it can't
    /// listen. No link comes or is lost by it.
    fn begin(&mut self) -> Result<(), Failed>
        ensures same { IsSame tells self.old self.new }
        ensures counts { CountsFault result (tells.faults self.old) (tells.faults self.new) };

    /// The next link, which has counted no fault, or that nobody is there now, or that the porter is shut. One try, which
    /// doesn't wait for a link to come. `Failed` comes when the outside fails; no link is lost by it.
    fn next(&mut self) -> Result<Brought<Self::Link>, Failed>
        ensures given { BringsNext (tells.links self.old) (tells.links self.new) result }
        ensures fresh { IsFresh tells.each result }
        ensures shuts { result ≡ Ok Shut → tells.is_shut self.new }
        ensures stays_shut { tells.is_shut self.old → tells.is_shut self.new }
        ensures brings_none { tells.is_shut self.old → IfOk result (λ brought. brought ≡ Shut) }
        ensures back { tells.back self.new ≡ tells.back self.old }
        ensures counts { CountsFault result (tells.faults self.old) (tells.faults self.new) };

    /// Takes back what stays of the link of this number, from 0 in the order in which the porter brought them.
    fn take_back(&mut self, number: u64, rest: <Self::Link as Link>::Rest)
        ensures back { HasBack (tells.back self.old) number rest (tells.back self.new) }
        ensures links { tells.links self.new ≡ tells.links self.old }
        ensures stays_shut { tells.is_shut self.old → tells.is_shut self.new }
        ensures faults { tells.faults self.new ≡ tells.faults self.old };

    /// Is told that the link of this number is that of a site, and stays so until it is handed back. One that is handed back
    /// without was nobody's. Nothing is promised of it.
    fn seated(&mut self, number: u64, site: SiteId)
        ensures same { IsSame tells self.old self.new }
        ensures faults { tells.faults self.new ≡ tells.faults self.old };

    /// Is told that a site has no link and is waited for. Nothing is promised of it.
    fn waits_for(&mut self, site: SiteId)
        ensures same { IsSame tells self.old self.new }
        ensures faults { tells.faults self.new ≡ tells.faults self.old };

    /// What it says of its links is what they tell.
    ghost each_is: { tells.each ≡ links_of Self.Link.gives Self.Link.takes Self.Link.Rest.unread Self.Link.Rest.sent };

    /// A porter that is shut and tells its links has none left.
    ghost shut_has_none: { (porter : Self) → tells.is_shut porter → HasNoneLeft (tells.links porter) };
}
