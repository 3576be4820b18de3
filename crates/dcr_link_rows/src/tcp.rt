// The door that listens, and somebody who connects.
use crate::same::same;
use dcr_base::{Door, Failed, Link, Source, write_all};
use dcr_serve::{TcpDoor, TcpRest};
use std::alloc::Global;
use std::io::{ErrorKind, Write};
use std::net::{Ipv4Addr, Net, SocketAddr, SocketAddrV4, TcpListener, TcpStream};
use std::test::Fail;
use std::thread::join;
use std::time::{Clock, Duration};
use std::{io, thread};

fn address(port: u16) -> SocketAddr {
    SocketAddr::V4(SocketAddrV4::new(Ipv4Addr::LOCALHOST, port))
}

// Asks one line once somebody listens, and gives the reply, which ends where nothing more comes.
fn ask<R: Net<Listener = TcpListener, Stream = TcpStream> + Clock>(
    rt: &R,
    alloc: Global,
    port: u16,
) -> io::Result<String> {
    for _ in 0..500u32 {
        if let Ok(mut stream) = TcpStream::connect(rt, address(port)) {
            stream.write_all(b"who\n")?;
            return io::read_to_string(alloc, stream);
        }
        thread::sleep(rt, Duration::from_millis(10));
    }
    Err(io::Error::from(ErrorKind::ConnectionRefused))
}

// Answers one connection with what it asks, up to the end of its line. Tells what stays of the link.
fn serve<R: Net<Listener = TcpListener, Stream = TcpStream>>(
    door: &mut TcpDoor<R>,
) -> Result<TcpRest, Failed> {
    let Some(mut link) = door.next()? else {
        return Err(Failed);
    };
    let mut line = [0; 16];
    for _ in 0..16u32 {
        let n = link.read(&mut line)?;
        if write_all(&mut link, &line[..n]).is_err() {
            return Err(Failed);
        }
        if n == 0 || line[..n].contains(&b'\n') {
            break;
        }
    }
    Ok(link.finish())
}

#[test]
fn whoever_connects_is_answered_at_a_port_that_is_free(rt: HostRuntime) -> Result<(), Fail> {
    // The system chooses the port, which somebody has at first.
    let listener = TcpListener::bind(&rt, address(0))?;
    let port = listener.local_addr()?.port();
    let mut door = TcpDoor::new(&rt, port);
    let answers = (door.next().is_err(), door.next().is_err());
    same(&rt, &answers, &(true, true), "another has the port");
    drop(listener);
    let mut door = TcpDoor::new(&rt, port);
    let no_fault = TcpRest {
        failed_reads: 0,
        failed_writes: 0,
    };
    for _ in 0..2 {
        let (reply, rest) = join(&rt, || ask(&rt, rt.alloc(), port), || serve(&mut door));
        same(&rt, &reply?.as_str(), &"who\n", "the reply");
        same(&rt, &rest.ok(), &Some(no_fault), "what stays of the link");
    }
    Ok(())
}
