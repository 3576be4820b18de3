ghost use Rattle.std.specs.Prelude.{Result, ⊤};
ghost use Rattle.std.specs.declared.io.Error.{Error};
ghost use Rattle.std.specs.declared.net.socket_addr.SocketAddr.{SocketAddr};
ghost use Rattle.std.specs.declared.net.tcp.TcpStream.{TcpStream};

use std::io;
use std::net::{Net, SocketAddr, TcpListener, TcpStream};

/// A handle that is asked once at a time to connect to an address. Each handle of std for connections is one.
///
/// std tells of no call that it was made. Here a call leaves `dialed` behind, which nothing else gives: so a contract can say
/// where was dialed, how often, and what became of the answer.
pub trait Dial {
    /// That a handle that stood so was asked once to connect to this address, answered this, and stands so since.
    ghost dialed: { Self → SocketAddr → Result TcpStream Error → Self → Type 0 };

    /// Asks once, and hands on the answer.
    fn dial_once(&mut self, address: SocketAddr) -> io::Result<TcpStream>
        ensures { dialed self.old address result self.new };
}

impl<R: Net<Listener = TcpListener, Stream = TcpStream>> Dial for R {
    ghost dialed = { λ _ _ _ _. ⊤ };

    fn dial_once(&mut self, address: SocketAddr) -> io::Result<TcpStream> {
        self.connect(address)
    }
}

/// What connections come to, which is told once to wait for none, as [`Dial`] is asked. A listener of std is one.
pub trait Unwaiting {
    /// That one that stood so was told once to wait no more, answered this, and stands so since.
    ghost told: { Self → Result Unit Error → Self → Type 0 };

    /// From here on it answers at once, whether a connection is there or not.
    fn wait_no_more(&mut self) -> io::Result<()>
        ensures { told self.old result self.new };
}

impl Unwaiting for TcpListener {
    ghost told = { λ _ _ _. ⊤ };

    fn wait_no_more(&mut self) -> io::Result<()> {
        self.set_nonblocking(true)
    }
}
