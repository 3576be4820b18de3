ghost use Rattle.std.specs.Prelude.{◌≡◌, ◌≢◌, ◌≤◌, ◌+◌, Ok, Err, None, IfOk, IsSome, IsNone, OnOk, OnErr};
ghost use Rattle.std.specs.Io.Iter.{u64_saturate};
ghost use Rattle.dcr_base.specs.Count.{CountsFault};
ghost use Rattle.dcr_base.specs.Door.{GivesNext, IsFresh};
ghost use Rattle.dcr_serve.specs.Listening.{Accepts, Asks, IsLocal, Listens, ToldAccept, is_lost};

use crate::TcpLink;
use crate::listening::{Accept, Listen};
use dcr_base::{Door, Failed};
use std::io;
use std::io::ErrorKind;
use std::net::{Ipv4Addr, SocketAddr, SocketAddrV4, TcpStream};

// So many connections in a row that were lost before they were taken are passed over.
const MOST_LOST: u32 = 1000;

// The errors by which accept(2) of Linux tells what the network had to say of one connection, and not of the listener: EPERM,
// ENONET, EPROTO, ENOPROTOOPT, EOPNOTSUPP, ENETDOWN, ENETUNREACH, ECONNABORTED, EHOSTDOWN and EHOSTUNREACH.
const LOST: [i32; 10] = [1, 64, 71, 92, 95, 100, 101, 103, 112, 113];

/// A [`Door`] that gives the connections to a port of 127.0.0.1, as they come. It listens from its first `next` on,
/// which fails where the port can't be had, and is never shut. It tells no links, and counts failed calls in a `u64`
/// that stops at its largest value. A call that a signal interrupted is tried again, and so is one that says that a
/// connection was lost before it was taken: of the latter at most 1,000 in a row, and 2^64 - 1 in all; no other failure is
/// (`Asks`). A connection that can't be made to send at once is closed, and the call has failed. No call takes memory.
///
/// This is a trusted edge: which connections come is not proved.
#[derive(Drop)]
pub struct TcpDoor<R: Listen> {
    rt: R,
    port: u16,
    listener: Option<R::Listener>,
    faults: u64,
}

impl<R: Listen> TcpDoor<R> {
    ghost use Rattle.dcr_serve.specs.TcpDoor.{handle_of, listener_of, port_of};

    /// A door at this port. It doesn't listen yet.
    pub fn new(rt: R, port: u16) -> TcpDoor<R>
        ensures port { port_of result ≡ port }
        ensures handle { handle_of result ≡ rt }
        ensures unlistening { listener_of result ≡ None }
        ensures no_faults { ⟦<TcpDoor<R> as Door>⟧.tells.faults result ≡ 0 }
    {
        TcpDoor {
            rt,
            port,
            listener: None,
            faults: 0,
        }
    }

    // The next connection, which sends at once. Listens where it doesn't yet.
    fn accept(&mut self) -> io::Result<TcpStream>
        ensures asks { Asks R.answered R.Listener.answered self.old result self.new }
        ensures port { self.new.port ≡ self.old.port }
        ensures faults { self.new.faults ≡ self.old.faults }
    {
        if let Some(listener) = &mut self.listener {
            return accept_sending(listener);
        }
        let mut listener = self.rt.listen_once(local(self.port))?;
        let accepted = accept_sending(&mut listener);
        self.listener = Some(listener);
        accepted
    }
}

// This port of 127.0.0.1.
fn local(port: u16) -> SocketAddr
    ensures { IsLocal port result }
{
    SocketAddr::V4(SocketAddrV4::new(Ipv4Addr::LOCALHOST, port))
}

// One connection, which sends at once.
fn accept_sending<L: Accept>(listener: &mut L) -> io::Result<TcpStream>
    ensures { Accepts L.answered listener.old result listener.new }
{
    let stream = accept_next(listener)?;
    stream.set_nodelay(true)?;
    Ok(stream)
}

// One connection. Tried again where a signal interrupts it, and where one was lost before it was taken.
fn accept_next<L: Accept>(listener: &mut L) -> io::Result<TcpStream>
    ensures { ToldAccept L.answered listener.old result listener.new }
{
    let mut times = 0;
    let mut lost = 0;
    while times < u64::MAX {
        match listener.accept_once() {
            Ok(stream) => return Ok(stream),
            Err(e) if e.kind() == ErrorKind::Interrupted => {}
            Err(e) if is_lost(&e) && lost < MOST_LOST => lost += 1,
            Err(e) => return Err(e),
        }
        times += 1;
    }
    Err(io::Error::from(ErrorKind::Interrupted))
}

// Whether the error is of one connection, and the next one may be taken.
fn is_lost(error: &io::Error) -> bool
    ensures { result ≡ is_lost error.now }
{
    match error.raw_os_error() {
        Some(code) => LOST.contains(&code),
        None => false,
    }
}

impl<R: Listen> Door for TcpDoor<R> {
    ghost use Rattle.std.specs.Prelude.{None, refl};
    ghost use Rattle.dcr_serve.specs.TcpDoor.{failed_calls, port_of};
    ghost use Rattle.dcr_serve.specs.TcpLink.{tcp_links};

    type Link = TcpLink;

    ghost tells = { record { links = λ _. None; is_shut = λ _. ⊥; faults = failed_calls; each = tcp_links } };

    fn next(&mut self) -> Result<Option<TcpLink>, Failed>
        ensures given { GivesNext None None result }
        ensures fresh { IsFresh tcp_links result }
        ensures never_shut { IfOk result IsSome }
        ensures shuts { result ≡ Ok None → ⊥ }
        ensures stays_shut { ⊥ → ⊥ }
        ensures gives_none { ⊥ → IfOk result IsNone }
        ensures port { port_of self.new ≡ port_of self.old }
        ensures counts { CountsFault result (failed_calls self.old) (failed_calls self.new) }

        // The count is exact.
        ensures err_counts_one { OnErr result (failed_calls self.new ≡ u64_saturate (failed_calls self.old + 1)) }

        // What the handle and the listener were asked.
        ensures asks { Asks R.answered R.Listener.answered self.old result self.new }
    {
        match self.accept() {
            Ok(stream) => Ok(Some(TcpLink::new(stream))),
            Err(_) => {
                self.faults = self.faults.saturating_add(1);
                Err(Failed)
            }
        }
    }

    ghost each_is = { refl };

    ghost shut_has_none = { λ door never. absurd never };
}
