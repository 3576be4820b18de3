// Two porters over sockets: one listens, and one connects.
use crate::same::same;
use dcr_base::{Failed, Link, Source, write_all};
use dcr_net::{DialPorter, ListenPorter, SiteLink, SiteRest};
use dcr_porter::{Brought, Porter};
use std::io;
use std::net::{Ipv4Addr, Net, SocketAddr, SocketAddrV4, TcpListener, TcpStream};
use std::test::Fail;

// A port that nobody has now. The system chooses it.
fn free_port<R: Net<Listener = TcpListener, Stream = TcpStream>>(rt: &R) -> io::Result<u16> {
    let anywhere = SocketAddr::V4(SocketAddrV4::new(Ipv4Addr::LOCALHOST, 0));
    let listener = TcpListener::bind(rt, anywhere)?;
    Ok(listener.local_addr()?.port())
}

// What a porter brought that was asked.
#[derive(Clone, Copy, Debug, PartialEq, Eq)]
enum Came {
    Link,
    Nobody,
    Shut,
    Failed,
}

fn what_came<P: Porter<Link = SiteLink>>(porter: &mut P) -> Came {
    match porter.next() {
        Ok(Brought::Link(_)) => Came::Link,
        Ok(Brought::Nobody) => Came::Nobody,
        Ok(Brought::Shut) => Came::Shut,
        Err(Failed) => Came::Failed,
    }
}

// The link that a porter brings now. None where it brings none.
fn link_of<P: Porter<Link = SiteLink>>(porter: &mut P) -> Option<SiteLink> {
    match porter.next() {
        Ok(Brought::Link(link)) => Some(link),
        Ok(Brought::Nobody) => None,
        Ok(Brought::Shut) => None,
        Err(Failed) => None,
    }
}

// Whether this text comes next.
fn hears(link: &mut SiteLink, text: &[u8]) -> bool {
    let mut bytes = [0; 16];
    match link.read(&mut bytes) {
        Ok(n) => bytes[..n].starts_with(text),
        Err(Failed) => false,
    }
}

const NO_FAULT: SiteRest = SiteRest {
    failed_reads: 0,
    failed_writes: 0,
};

#[test]
fn whoever_dials_is_brought_to_whoever_listens(rt: HostRuntime) -> Result<(), Fail> {
    let port = free_port(&rt)?;
    let mut orders = ListenPorter::new(&rt, port);
    let mut sites = DialPorter::new(&rt, port);
    same(&rt, &what_came(&mut sites), &Came::Nobody, "nobody listens");
    same(
        &rt,
        &what_came(&mut orders),
        &Came::Failed,
        "it has not begun",
    );
    same(&rt, &orders.begin().is_ok(), &true, "it begins");
    same(&rt, &orders.begin().is_ok(), &true, "it has begun");
    let mut second = ListenPorter::new(&rt, port);
    same(&rt, &second.begin().is_ok(), &false, "another has the port");
    same(
        &rt,
        &what_came(&mut orders),
        &Came::Nobody,
        "nobody has come",
    );
    let (Some(mut site), Some(mut order)) = (link_of(&mut sites), link_of(&mut orders)) else {
        return Ok(same(&rt, &false, &true, "a link on both sides"));
    };
    same(
        &rt,
        &what_came(&mut orders),
        &Came::Nobody,
        "nobody else has come",
    );
    same(
        &rt,
        &write_all(&mut order, b"asked").is_ok(),
        &true,
        "it asks",
    );
    same(&rt, &hears(&mut site, b"asked"), &true, "it is asked");
    same(
        &rt,
        &write_all(&mut site, b"told").is_ok(),
        &true,
        "it tells",
    );
    same(&rt, &hears(&mut order, b"told"), &true, "it is told");
    same(
        &rt,
        &site.finish(),
        &NO_FAULT,
        "what stays of the site's link",
    );
    let mut bytes = [0; 16];
    same(
        &rt,
        &order.read(&mut bytes).ok(),
        &Some(0),
        "the site has gone",
    );
    same(&rt, &order.finish(), &NO_FAULT, "what stays of the other");
    Ok(())
}

// It waits for two seconds.
#[test]
fn a_link_that_is_silent_has_failed(rt: HostRuntime) -> Result<(), Fail> {
    let port = free_port(&rt)?;
    let mut orders = ListenPorter::new(&rt, port);
    let mut sites = DialPorter::new(&rt, port);
    same(&rt, &orders.begin().is_ok(), &true, "it begins");
    let (Some(_site), Some(mut order)) = (link_of(&mut sites), link_of(&mut orders)) else {
        return Ok(same(&rt, &false, &true, "a link on both sides"));
    };
    let mut bytes = [0; 16];
    same(&rt, &order.read(&mut bytes).ok(), &None, "nothing comes");
    let rest = SiteRest {
        failed_reads: 1,
        failed_writes: 0,
    };
    same(&rt, &order.finish(), &rest, "what stays of it");
    Ok(())
}
