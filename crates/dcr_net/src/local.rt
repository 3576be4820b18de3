// Where sites and who orders their calls meet.
ghost use Rattle.dcr_serve.specs.Listening.{IsLocal};

use std::net::{Ipv4Addr, SocketAddr, SocketAddrV4};

/// This port of 127.0.0.1.
pub(crate) fn local(port: u16) -> SocketAddr
    ensures { IsLocal port result }
{
    SocketAddr::V4(SocketAddrV4::new(Ipv4Addr::LOCALHOST, port))
}
