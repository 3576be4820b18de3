ghost use Rattle.std.specs.Prelude.{Result, ⊤};
ghost use Rattle.std.specs.declared.io.Error.{Error};
ghost use Rattle.std.specs.declared.net.socket_addr.SocketAddr.{SocketAddr};
ghost use Rattle.std.specs.declared.net.tcp.TcpStream.{TcpStream};

use std::io;
use std::net::{Net, SocketAddr, TcpListener, TcpStream};

/// A handle that is asked once at a time to listen at an address. Each handle of std for connections is one.
///
/// std tells of no call that it was made. Here a call leaves `answered` behind, which nothing else gives: so a contract
/// can say where was listened, how often, and what became of the answer.
pub trait Listen {
    /// What the connections come to.
    type Listener: Accept + Drop;

    /// That a handle that stood so was asked once to listen at this address, answered this, and stands so since.
    ghost answered: { Self → SocketAddr → Result Self.Listener Error → Self → Type 0 };

    /// Asks once, and hands on the answer.
    fn listen_once(&mut self, address: SocketAddr) -> io::Result<Self::Listener>
        ensures { answered self.old address result self.new };
}

impl<R: Net<Listener = TcpListener, Stream = TcpStream>> Listen for R {
    type Listener = TcpListener;

    ghost answered = { λ _ _ _ _. ⊤ };

    fn listen_once(&mut self, address: SocketAddr) -> io::Result<TcpListener> {
        self.bind(address)
    }
}

/// What connections come to, which is asked for one at a time, as [`Listen`] is. A listener of std is one.
pub trait Accept {
    /// That one that stood so was asked once, answered this, and stands so since.
    ghost answered: { Self → Result TcpStream Error → Self → Type 0 };

    /// Asks once, and hands on the answer.
    fn accept_once(&mut self) -> io::Result<TcpStream>
        ensures { answered self.old result self.new };
}

impl Accept for TcpListener {
    ghost answered = { λ _ _ _. ⊤ };

    fn accept_once(&mut self) -> io::Result<TcpStream> {
        let (stream, _) = self.accept()?;
        Ok(stream)
    }
}
