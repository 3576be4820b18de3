ghost use Rattle.std.specs.Prelude.{◌≡◌, ◌+◌, Ok, None, IfOk, IsOk, OnErr};
ghost use Rattle.std.specs.Io.Iter.{u64_saturate};
ghost use Rattle.dcr_base.specs.Count.{CountsFault};
ghost use Rattle.dcr_net.specs.SiteLink.{site_links, IsLinkOrFailure};
ghost use Rattle.dcr_net.specs.DialPorter.{Dialed, told_by_dialing};
ghost use Rattle.dcr_porter.specs.Porter.{BringsNext, IsFresh, IsSame};
ghost use Rattle.dcr_porter.specs.declared.brought.Brought.TheVariants.{Shut};

use crate::local::local;
use crate::{Dial, SiteLink, SiteRest};
use dcr_base::Failed;
use dcr_porter::{Brought, Porter};
use dcr_set::SiteId;
use std::net::TcpStream;

/// A [`Porter`] that goes out for its links: each is a connection to a port of 127.0.0.1. Where no connection can be made nobody
/// is there, and that is no failure; it is never shut. It tells no links and nothing that it was handed back, and counts failed
/// calls in a `u64` that stops at its largest value. A connection that can't be made to send at once is closed, and the call has
/// failed. Its links wait as long as nothing comes. No call takes memory.
///
/// This is a trusted edge: which connections are made is not proved.
#[derive(Drop)]
pub struct DialPorter<R: Dial> {
    rt: R,
    port: u16,
    faults: u64,
}

impl<R: Dial> DialPorter<R> {
    ghost use Rattle.dcr_net.specs.DialPorter.{failed_calls, handle_of, port_of};

    /// A porter that connects to this port. It doesn't connect yet.
    pub fn new(rt: R, port: u16) -> DialPorter<R>
        ensures port { port_of result ≡ port }
        ensures handle { handle_of result ≡ rt }
        ensures no_faults { ⟦<DialPorter<R> as Porter>⟧.tells.faults result ≡ 0 }
    {
        DialPorter {
            rt,
            port,
            faults: 0,
        }
    }

    // One try, which counts nothing.
    fn attempt(&mut self) -> Result<Brought<SiteLink>, Failed>
        ensures fresh { IsFresh site_links result }
        ensures dialed { Dialed R.dialed self.old result self.new }
        ensures port { port_of self.new ≡ port_of self.old }
        ensures faults { failed_calls self.new ≡ failed_calls self.old }
    {
        match self.rt.dial_once(local(self.port)) {
            Ok(stream) => link_over(stream),
            Err(_) => Ok(Brought::Nobody),
        }
    }
}

// A link over this connection, which sends at once. A connection that can't be made to is closed, and that is a failure.
fn link_over(stream: TcpStream) -> Result<Brought<SiteLink>, Failed>
    ensures { IsLinkOrFailure result }
{
    if stream.set_nodelay(true).is_err() {
        return Err(Failed);
    }
    Ok(Brought::Link(SiteLink::new(stream)))
}

impl<R: Dial> Porter for DialPorter<R> {
    ghost use Rattle.std.specs.Prelude.{refl};
    ghost use Rattle.dcr_net.specs.DialPorter.{failed_calls, port_of};

    type Link = SiteLink;

    ghost tells = { told_by_dialing };

    /// Has nothing to do, and asks nothing.
    fn begin(&mut self) -> Result<(), Failed>
        ensures same { IsSame told_by_dialing self.old self.new }
        ensures counts { CountsFault result (failed_calls self.old) (failed_calls self.new) }
        ensures stays { self.new ≡ self.old }
        ensures never_fails { IsOk result }
    {
        Ok(())
    }

    fn next(&mut self) -> Result<Brought<SiteLink>, Failed>
        ensures given { BringsNext (told_by_dialing.links self.old) (told_by_dialing.links self.new) result }
        ensures fresh { IsFresh site_links result }
        ensures shuts { result ≡ Ok Shut → ⊥ }
        ensures stays_shut { ⊥ → ⊥ }
        ensures brings_none { ⊥ → IfOk result (λ brought. brought ≡ Shut) }
        ensures back { told_by_dialing.back self.new ≡ told_by_dialing.back self.old }
        ensures counts { CountsFault result (failed_calls self.old) (failed_calls self.new) }

        // The count is exact.
        ensures err_counts_one { OnErr result (failed_calls self.new ≡ u64_saturate (failed_calls self.old + 1)) }

        // The handle was asked once, and this came of it.
        ensures dialed { Dialed R.dialed self.old result self.new }
        ensures port { port_of self.new ≡ port_of self.old }
    {
        let brought = self.attempt();
        if brought.is_err() {
            self.faults = self.faults.saturating_add(1);
        }
        brought
    }

    /// Drops it, and asks nothing.
    fn take_back(&mut self, _number: u64, rest: SiteRest)
        ensures stays { self.new ≡ self.old }
    {
        let _dropped = rest;
    }

    /// Does nothing.
    fn seated(&mut self, _number: u64, _site: SiteId)
        ensures stays { self.new ≡ self.old }
    {}

    /// Does nothing.
    fn waits_for(&mut self, _site: SiteId)
        ensures stays { self.new ≡ self.old }
    {}

    ghost each_is = { refl };

    ghost shut_has_none = { λ porter never. absurd never };
}
