ghost use Rattle.std.specs.Prelude.{◌≡◌, ◌<◌, ◌≤◌, ◌++◌, ◌∷◌, ◌↔◌, [], Ok, Some, true, length, IfOk, IsErr, OnOk, OnErr};
ghost use Rattle.dcr_base.specs.Count.{CountsFault};
ghost use Rattle.dcr_porter.specs.Porter.{IsSame, BringsNext, HasBack, IsFresh as BringsFresh};
ghost use Rattle.dcr_porter.specs.declared.brought.Brought.TheVariants.{Shut};
ghost use Rattle.dcr_fakes.specs.CallLog.{no_calls, counted, faulted, FailsNext};
ghost use Rattle.dcr_porter_fakes.specs.PorterState.{links_in, told_back, mem_porters, BringsTurn, AreFresh};

use dcr_base::{Failed, Source};
use dcr_fakes::{MemLink, MemSource};
use dcr_porter::{Brought, Porter};
use dcr_set::{NoMemory, SiteId};
use std::alloc::Global;
use std::collections::VecDeque;
use std::marker::Model;

/// A [`Porter`] of links in memory. At each turn it brings a link or nobody, in order, and behind the last turn it is shut. It
/// keeps what it is handed back, and fails at the calls that its maker named. Contracts see the turns that are left, what was
/// handed back, and the calls so far with their faults.
#[derive(Drop)]
pub struct MemPorter {
    turns: VecDeque<Option<MemLink>>,
    back: Vec<(u64, MemLink)>,
    // Whether nothing that was handed back is missing.
    is_whole: bool,
    // A source without bytes, of which each call is a read.
    calls: MemSource,
}

impl Model for MemPorter {
    ghost use Rattle.dcr_porter_fakes.specs.PorterState.{PorterState};

    ghost Value = { PorterState };

    ghost use Rattle.dcr_porter_fakes.specs.MemPorterModel.{porter_of, HasFreshTurns};

    ghost view = { porter_of };

    ghost invariant = { HasFreshTurns };
}

impl MemPorter {
    /// A porter of these turns, of whose links none has counted a fault. `failing` holds the numbers of the calls of `begin`
    /// and `next` that fail, counted from 1 over both. There is memory to keep a link for each turn; `NoMemory` where that
    /// could not be had.
    pub fn new(
        alloc: Global,
        turns: Vec<Option<MemLink>>,
        failing: Vec<u32>,
    ) -> Result<MemPorter, NoMemory>
        requires { AreFresh turns.items }
        ensures turns { IfOk result (λ porter. porter.turns ≡ turns.items) }
        ensures back { IfOk result (λ porter. told_back porter ≡ Some []) }
        ensures room { IfOk result (λ porter. length turns.items ≤ porter.room) }
        ensures no_calls { IfOk result (λ porter. porter.calls ≡ no_calls failing.items) }
    {
        let back = Vec::with_capacity(alloc, turns.len())?;
        Ok(MemPorter {
            turns: VecDeque::from_vec(turns),
            back,
            is_whole: true,
            calls: MemSource::new(Vec::new(alloc), 1, failing),
        })
    }

    /// What it was handed back and has kept, in order, each with the number that it was handed back with.
    pub fn back(&self) -> &[(u64, MemLink)]
        ensures { result.now ≡ self.now.back }
    {
        self.back.as_slice()
    }
}

impl Porter for MemPorter {
    ghost use Rattle.std.specs.Prelude.{refl};
    ghost use Rattle.dcr_porter_fakes.specs.PorterState.{mem_porters, shut_brings_none};

    type Link = MemLink;

    ghost tells = { mem_porters };

    /// `Failed` comes exactly at the calls that fail.
    fn begin(&mut self) -> Result<(), Failed>
        ensures same { IsSame mem_porters self.old self.new }
        ensures counts { CountsFault result self.old.calls.faults self.new.calls.faults }
        ensures fails { IsErr result ↔ FailsNext self.old.calls }
        ensures counted { OnOk result (self.new ≡ record self.old { calls = counted self.old.calls }) }
        ensures failed { OnErr result (self.new ≡ record self.old { calls = faulted (counted self.old.calls) }) }
    {
        self.calls.read(&mut [])?;
        Ok(())
    }

    /// The link of the next turn, or nobody, and `Shut` where no turn is left. `Failed` comes exactly at the calls that fail,
    /// and takes no turn.
    fn next(&mut self) -> Result<Brought<MemLink>, Failed>
        ensures given { BringsNext (Some (links_in self.old.turns)) (Some (links_in self.new.turns)) result }
        ensures fresh { BringsFresh mem_porters.each result }
        ensures shuts { result ≡ Ok Shut → self.new.turns ≡ [] }
        ensures stays_shut { self.old.turns ≡ [] → self.new.turns ≡ [] }
        ensures brings_none { self.old.turns ≡ [] → IfOk result (λ brought. brought ≡ Shut) }
        ensures back { told_back self.new ≡ told_back self.old }
        ensures counts { CountsFault result self.old.calls.faults self.new.calls.faults }

        // The exact answer.
        ensures fails { IsErr result ↔ FailsNext self.old.calls }
        ensures turn { IfOk result (λ brought. BringsTurn self.old.turns brought self.new.turns) }
        ensures counted { OnOk result (self.new ≡ record self.old { turns = self.new.turns; calls = counted self.old.calls }) }
        ensures failed { OnErr result (self.new ≡ record self.old { calls = faulted (counted self.old.calls) }) }
    {
        self.calls.read(&mut [])?;
        Ok(match self.turns.pop_front() {
            Some(Some(link)) => Brought::Link(link),
            Some(None) => Brought::Nobody,
            None => Brought::Shut,
        })
    }

    /// Keeps the link, where as many were not handed back yet as there is memory for. One that isn't kept is told no more, nor
    /// is any later.
    fn take_back(&mut self, number: u64, rest: MemLink)
        ensures back { HasBack (told_back self.old) number rest (told_back self.new) }
        ensures links { Some (links_in self.new.turns) ≡ Some (links_in self.old.turns) }
        ensures stays_shut { self.old.turns ≡ [] → self.new.turns ≡ [] }
        ensures faults { self.new.calls.faults ≡ self.old.calls.faults }

        // The rest stays.
        ensures kept { length self.old.back < self.old.room → self.new ≡ record self.old { back = self.old.back ++ (number, rest) ∷ [] } }
    {
        if self.back.len() < self.back.capacity() {
            self.back.push_reserved((number, rest));
        } else {
            self.is_whole = false;
        }
    }

    fn seated(&mut self, number: u64, site: SiteId)
        ensures same { IsSame mem_porters self.old self.new }
        ensures faults { self.new.calls.faults ≡ self.old.calls.faults }
        ensures stays { self.new ≡ self.old }
    {}

    fn waits_for(&mut self, site: SiteId)
        ensures same { IsSame mem_porters self.old self.new }
        ensures faults { self.new.calls.faults ≡ self.old.calls.faults }
        ensures stays { self.new ≡ self.old }
    {}

    ghost each_is = { refl };

    ghost shut_has_none = { shut_brings_none };
}
