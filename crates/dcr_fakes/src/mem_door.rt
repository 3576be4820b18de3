ghost use Rattle.std.specs.Prelude.{◌≡◌, ◌≤◌, ◌↔◌, [], Ok, Some, None, IfOk, IsNone, IsErr, OnOk, OnErr};
ghost use Rattle.std.specs.List.{All};
ghost use Rattle.dcr_base.specs.Count.{CountsFault};
ghost use Rattle.dcr_base.specs.Door.{GivesNext, IsFresh as GivesFresh};
ghost use Rattle.dcr_fakes.specs.CallLog.{no_calls, counted, faulted, FailsNext};
ghost use Rattle.dcr_fakes.specs.LinkState.{IsFresh};

use crate::MemLink;
use crate::calls::Calls;
use dcr_base::{Door, Failed};
use std::collections::VecDeque;
use std::marker::Model;

/// A [`Door`] that gives links in memory, in order, and is shut behind the last one. It fails at the calls that its maker
/// named. Contracts see the links that are left, and the calls so far with their faults.
#[derive(Drop)]
pub struct MemDoor {
    links: VecDeque<MemLink>,
    calls: Calls,
}

impl Model for MemDoor {
    ghost use Rattle.dcr_fakes.specs.DoorState.{DoorState};

    ghost Value = { DoorState };

    ghost use Rattle.dcr_fakes.specs.MemDoorModel.{door_of, HasFreshLinks};

    ghost view = { door_of };

    ghost invariant = { HasFreshLinks };
}

impl MemDoor {
    /// A door with these links, none of which has counted a fault. `failing` holds the numbers of the calls that fail,
    /// counted from 1. Takes no memory.
    pub fn new(links: Vec<MemLink>, failing: Vec<u32>) -> MemDoor
        requires { All IsFresh links.items }
        ensures links { result.links ≡ links.items }
        ensures no_calls { result.calls ≡ no_calls failing.items }
    {
        MemDoor {
            links: VecDeque::from_vec(links),
            calls: Calls::new(failing),
        }
    }
}

impl Door for MemDoor {
    ghost use Rattle.std.specs.Prelude.{◌≡◌, [], Some, refl};
    ghost use Rattle.dcr_fakes.specs.LinkState.{mem_links};

    type Link = MemLink;

    ghost tells = { record { links = λ door. Some door.links; is_shut = λ door. door.links ≡ []; faults = λ door. door.calls.faults; each = mem_links } };

    /// The first of the links that are left, and `None` where none is. `Failed` comes exactly at the calls that fail, and
    /// takes no link. It never waits.
    fn next(&mut self) -> Result<Option<MemLink>, Failed>
        ensures given { GivesNext (Some self.old.links) (Some self.new.links) result }
        ensures fresh { GivesFresh mem_links result }
        ensures shuts { result ≡ Ok None → self.new.links ≡ [] }
        ensures stays_shut { self.old.links ≡ [] → self.new.links ≡ [] }
        ensures gives_none { self.old.links ≡ [] → IfOk result IsNone }
        ensures counts { CountsFault result self.old.calls.faults self.new.calls.faults }
        ensures fails { IsErr result ↔ FailsNext self.old.calls }
        ensures counted { OnOk result (self.new.calls ≡ counted self.old.calls) }
        ensures failed { OnErr result (self.new.calls ≡ faulted (counted self.old.calls)) }
    {
        if self.calls.count() {
            return Err(self.calls.fault());
        }
        Ok(self.links.pop_front())
    }

    ghost each_is = { refl };

    ghost shut_has_none = { λ door shut. shut };
}
