// What `site` says on standard error: whether somebody orders, which link begins and how it ends. Nothing is promised of it, and
// nothing comes of it where standard error can't be written to: the porter hands each call on as it is.
use dcr_app::Status;
use dcr_base::Failed;
use dcr_net::{DialPorter, SiteLink, SiteRest};
use dcr_porter::{Brought, Porter};
use dcr_set::SiteId;
use std::io::Eprint;
use std::net::{Net, TcpListener, TcpStream};

/// A [`DialPorter`] that says which link begins and how it has ended.
#[derive(Drop)]
pub(crate) struct TellingPorter<'r, R: Net<Listener = TcpListener, Stream = TcpStream> + Eprint> {
    porter: DialPorter<&'r R>,
    rt: &'r R,
    port: u16,
    brought: u64,
    // That nobody is there was said since the last link.
    has_waited: bool,
}

impl<'r, R: Net<Listener = TcpListener, Stream = TcpStream> + Eprint> TellingPorter<'r, R> {
    /// A porter that connects to this port.
    pub(crate) fn new(rt: &'r R, port: u16) -> TellingPorter<'r, R> {
        TellingPorter {
            porter: DialPorter::new(rt, port),
            rt,
            port,
            brought: 0,
            has_waited: false,
        }
    }
}

impl<'r, R: Net<Listener = TcpListener, Stream = TcpStream> + Eprint> Porter
    for TellingPorter<'r, R> {
    ghost use Rattle.std.specs.Prelude.{None, refl};
    ghost use Rattle.dcr_net.specs.DialPorter.{failed_calls};
    ghost use Rattle.dcr_net.specs.SiteLink.{site_links};

    type Link = SiteLink;

    ghost tells = { record {
      links = λ _. None;
      is_shut = λ _. ⊥;
      faults = λ porter. failed_calls porter.porter;
      back = λ _. None;
      each = site_links;
    } };

    fn begin(&mut self) -> Result<(), Failed> {
        self.porter.begin()
    }

    fn next(&mut self) -> Result<Brought<SiteLink>, Failed> {
        let brought = self.porter.next();
        let port = self.port;
        match &brought {
            Ok(Brought::Link(_)) => {
                let number = self.brought;
                self.brought = number.saturating_add(1);
                self.has_waited = false;
                let _said = eprintln!(self.rt; "dcr: link {number} to 127.0.0.1:{port} begins");
            }
            Ok(_) => {
                if !self.has_waited {
                    self.has_waited = true;
                    let _said = eprintln!(self.rt;
                        "dcr: no connection to 127.0.0.1:{port} can be made; it is tried again and again"
                    );
                }
            }
            Err(Failed) => {
                let _said = eprintln!(self.rt; "dcr: a connection could not be used");
            }
        }
        brought
    }

    /// Says how the link has ended.
    fn take_back(&mut self, number: u64, rest: SiteRest) {
        let how = if rest.failed_reads > 0 {
            "it failed as it was read"
        } else if rest.failed_writes > 0 {
            "it failed as an answer was written"
        } else {
            "the other side ended it, or what came is nothing that a site may be asked"
        };
        let _said = eprintln!(self.rt; "dcr: link {number} has ended: {how}");
        self.porter.take_back(number, rest);
    }

    fn seated(&mut self, number: u64, site: SiteId) {
        self.porter.seated(number, site);
    }

    fn waits_for(&mut self, site: SiteId) {
        self.porter.waits_for(site);
    }

    ghost each_is = { refl };

    ghost shut_has_none = { λ porter never. absurd never };
}

/// Says what has failed, where the outside or memory did.
pub(crate) fn tell_site_failure<R: Eprint>(rt: &R, status: Status) {
    let what = match status {
        Status::ReadFault => "the input failed as it was read; nothing was written",
        Status::WriteFault => "the output failed: what it took is a front of what was due",
        Status::NoMemory => "memory could not be had; nothing was written",
        Status::DoorFault => "a connection to who orders the calls could not be used",
        _ => return,
    };
    let _said = eprintln!(rt; "dcr: {what}");
}
