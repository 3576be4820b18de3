ghost use Rattle.std.specs.Prelude.{◌≡◌, ◌↔◌, ◌+◌, Ok, None, IsTrue, IfOk, OnErr};
ghost use Rattle.std.specs.Io.Iter.{u64_saturate};
ghost use Rattle.dcr_base.specs.Count.{CountsFault};
ghost use Rattle.dcr_net.specs.SiteLink.{site_links, IsLinkOrFailure};
ghost use Rattle.dcr_net.specs.ListenPorter.{Begins, IsNobody, Listened, Tries, told_by_listening};
ghost use Rattle.dcr_porter.specs.Porter.{BringsNext, IsFresh, IsSame};
ghost use Rattle.dcr_porter.specs.declared.brought.Brought.TheVariants.{Shut};
ghost use Rattle.dcr_serve.specs.Listening.{is_lost};

use crate::local::local;
use crate::{SiteLink, SiteRest, Unwaiting};
use dcr_base::Failed;
use dcr_porter::{Brought, Porter};
use dcr_serve::{Accept, Listen};
use dcr_set::SiteId;
use std::io;
use std::io::ErrorKind;
use std::net::TcpStream;
use std::time::Duration;

// So long a read or a write of a link waits at most.
const PATIENCE_MILLIS: u64 = 2_000;

// The errors by which accept(2) of Linux tells what the network had to say of one connection, and not of the listener: EPERM,
// ENONET, EPROTO, ENOPROTOOPT, EOPNOTSUPP, ENETDOWN, ENETUNREACH, ECONNABORTED, EHOSTDOWN and EHOSTUNREACH.
const LOST: [i32; 10] = [1, 64, 71, 92, 95, 100, 101, 103, 112, 113];

/// A [`Porter`] that listens at a port of 127.0.0.1, from its `begin` on. Each `next` asks for one connection and doesn't wait:
/// where none has come, a signal interrupted the try, or the one that came was lost, nobody is there. It is never shut. It tells
/// no links and nothing that it was handed back, and counts failed calls in a `u64` that stops at its largest value; `next` fails
/// before `begin`, and where the listener does. A link sends at once, and a read or a write of it that waits longer than two
/// seconds has failed; a connection that can't be made so is closed, and the call has failed. No call takes memory.
///
/// This is a trusted edge: which connections come is not proved.
#[derive(Drop)]
pub struct ListenPorter<R: Listen<Listener: Unwaiting>> {
    rt: R,
    port: u16,
    listener: Option<R::Listener>,
    faults: u64,
}

impl<R: Listen<Listener: Unwaiting>> ListenPorter<R> {
    ghost use Rattle.dcr_net.specs.ListenPorter.{failed_calls, handle_of, listener_of, port_of};

    /// A porter at this port. It doesn't listen yet.
    pub fn new(rt: R, port: u16) -> ListenPorter<R>
        ensures port { port_of result ≡ port }
        ensures handle { handle_of result ≡ rt }
        ensures unlistening { listener_of result ≡ None }
        ensures no_faults { ⟦<ListenPorter<R> as Porter>⟧.tells.faults result ≡ 0 }
    {
        ListenPorter {
            rt,
            port,
            listener: None,
            faults: 0,
        }
    }

    // A listener at the port, which doesn't wait.
    fn listen(&mut self) -> io::Result<R::Listener>
        ensures listened { Listened R.answered R.Listener.told self.old result self.new }
        ensures port { port_of self.new ≡ port_of self.old }
        ensures listener { listener_of self.new ≡ listener_of self.old }
        ensures faults { failed_calls self.new ≡ failed_calls self.old }
    {
        let mut listener = self.rt.listen_once(local(self.port))?;
        listener.wait_no_more()?;
        Ok(listener)
    }

    // One try, which counts nothing.
    fn attempt(&mut self) -> Result<Brought<SiteLink>, Failed>
        ensures fresh { IsFresh site_links result }
        ensures tries { Tries R.Listener.answered self.old result self.new }
        ensures handle { handle_of self.new ≡ handle_of self.old }
        ensures port { port_of self.new ≡ port_of self.old }
        ensures faults { failed_calls self.new ≡ failed_calls self.old }
    {
        let Some(listener) = &mut self.listener else {
            return Err(Failed);
        };
        match listener.accept_once() {
            Ok(stream) => link_over(stream),
            Err(e) if is_nobody(&e) => Ok(Brought::Nobody),
            Err(_) => Err(Failed),
        }
    }
}

// A link over this connection, which sends at once and doesn't wait long. A connection that can't be made so is closed, and that
// is a failure.
fn link_over(stream: TcpStream) -> Result<Brought<SiteLink>, Failed>
    ensures { IsLinkOrFailure result }
{
    let patience = Some(Duration::from_millis(PATIENCE_MILLIS));
    if stream.set_nodelay(true).is_err()
        || stream.set_read_timeout(patience).is_err()
        || stream.set_write_timeout(patience).is_err()
    {
        return Err(Failed);
    }
    Ok(Brought::Link(SiteLink::new(stream)))
}

// Whether the error says that no connection is there now.
fn is_nobody(error: &io::Error) -> bool
    ensures { IsTrue result ↔ IsNobody error.now }
{
    error.kind() == ErrorKind::WouldBlock
        || error.kind() == ErrorKind::Interrupted
        || is_lost(error)
}

// Whether the error is of one connection, and the next one may be taken.
fn is_lost(error: &io::Error) -> bool
    ensures { result ≡ is_lost error.now }
{
    match error.raw_os_error() {
        Some(code) => LOST.contains(&code),
        None => false,
    }
}

impl<R: Listen<Listener: Unwaiting>> Porter for ListenPorter<R> {
    ghost use Rattle.std.specs.Prelude.{refl};
    ghost use Rattle.dcr_net.specs.ListenPorter.{failed_calls, handle_of, port_of};

    type Link = SiteLink;

    ghost tells = { told_by_listening };

    /// Begins to listen. Where it listens it has nothing to do.
    fn begin(&mut self) -> Result<(), Failed>
        ensures same { IsSame told_by_listening self.old self.new }
        ensures counts { CountsFault result (failed_calls self.old) (failed_calls self.new) }

        // The count is exact.
        ensures err_counts_one { OnErr result (failed_calls self.new ≡ u64_saturate (failed_calls self.old + 1)) }

        // What the handle and the listener were asked.
        ensures begins { Begins R.answered R.Listener.told self.old result self.new }
        ensures port { port_of self.new ≡ port_of self.old }
    {
        if self.listener.is_some() {
            return Ok(());
        }
        match self.listen() {
            Ok(listener) => {
                self.listener = Some(listener);
                Ok(())
            }
            Err(_) => {
                self.faults = self.faults.saturating_add(1);
                Err(Failed)
            }
        }
    }

    fn next(&mut self) -> Result<Brought<SiteLink>, Failed>
        ensures given { BringsNext (told_by_listening.links self.old) (told_by_listening.links self.new) result }
        ensures fresh { IsFresh site_links result }
        ensures shuts { result ≡ Ok Shut → ⊥ }
        ensures stays_shut { ⊥ → ⊥ }
        ensures brings_none { ⊥ → IfOk result (λ brought. brought ≡ Shut) }
        ensures back { told_by_listening.back self.new ≡ told_by_listening.back self.old }
        ensures counts { CountsFault result (failed_calls self.old) (failed_calls self.new) }

        // The count is exact.
        ensures err_counts_one { OnErr result (failed_calls self.new ≡ u64_saturate (failed_calls self.old + 1)) }

        // The listener was asked once, and this came of it. The handle was asked nothing.
        ensures tries { Tries R.Listener.answered self.old result self.new }
        ensures handle { handle_of self.new ≡ handle_of self.old }
        ensures port { port_of self.new ≡ port_of self.old }
    {
        let brought = self.attempt();
        if brought.is_err() {
            self.faults = self.faults.saturating_add(1);
        }
        brought
    }

    /// Drops it, and asks nothing.
    fn take_back(&mut self, _number: u64, rest: SiteRest)
        ensures stays { self.new ≡ self.old }
    {
        let _dropped = rest;
    }

    /// Does nothing.
    fn seated(&mut self, _number: u64, _site: SiteId)
        ensures stays { self.new ≡ self.old }
    {}

    /// Does nothing.
    fn waits_for(&mut self, _site: SiteId)
        ensures stays { self.new ≡ self.old }
    {}

    ghost each_is = { refl };

    ghost shut_has_none = { λ porter never. absurd never };
}
