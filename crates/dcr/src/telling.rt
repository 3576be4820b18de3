// What `serve` says on standard error: at which port it listens, or why it can't, and which session begins and how it
// ends. Nothing is promised of it, and nothing comes of it where standard error can't be written to: the door, its links
// and their handle hand each call on as it is.
ghost use Rattle.std.specs.Prelude.{◌≡◌, ◌⊎◌, ◌≤◌, ℕ, List, Option, Some, None, length};
ghost use Rattle.dcr_serve.specs.TcpDoor.{failed_calls};

use dcr_app::Status;
use dcr_base::{Door, Failed, Link, Sink, Source};
use dcr_serve::{TcpDoor, TcpLink, TcpRest};
use std::env::Args;
use std::io;
use std::io::Eprint;
use std::net::{Net, SocketAddr, TcpListener, TcpStream};

/// A handle for connections that says at which port it listens and for how many sessions, or why it can't.
#[derive(Drop)]
pub(crate) struct TellingNet<'r, R> {
    rt: &'r R,
    sessions: u32,
    workers: u32,
}

impl<'r, R> TellingNet<'r, R> {
    // What to say of fewer workers than there may be.
    fn advice(&self) -> &'static str {
        if self.workers < self.sessions && self.workers < 64 {
            "; a silent client holds a worker, so give as many workers as sessions, up to 64"
        } else {
            ""
        }
    }
}

impl<'r, R: Net<Listener = TcpListener, Stream = TcpStream> + Eprint> Net for TellingNet<'r, R> {
    type Stream = TcpStream;

    type Listener = TcpListener;

    fn bind(&self, addr: SocketAddr) -> io::Result<TcpListener> {
        let bound = self.rt.bind(addr);
        let _said = match &bound {
            Ok(_) => eprintln!(self.rt;
                "dcr: listening on {addr} for {} sessions{}",
                self.sessions,
                self.advice()
            ),
            Err(error) => eprintln!(self.rt; "dcr: {addr} can't be listened on: {error}"),
        };
        bound
    }

    fn connect(&self, addr: SocketAddr) -> io::Result<TcpStream> {
        self.rt.connect(addr)
    }
}

/// A [`TcpDoor`] that says which session begins.
#[derive(Drop)]
pub(crate) struct TellingDoor<'r, R: Net<Listener = TcpListener, Stream = TcpStream> + Eprint> {
    door: TcpDoor<TellingNet<'r, R>>,
    rt: &'r R,
    given: u32,
}

impl<'r, R: Net<Listener = TcpListener, Stream = TcpStream> + Eprint> TellingDoor<'r, R> {
    /// A door at this port, for so many sessions that so many workers serve.
    pub(crate) fn new(rt: &'r R, port: u16, sessions: u32, workers: u32) -> TellingDoor<'r, R> {
        let net = TellingNet {
            rt,
            sessions,
            workers,
        };
        TellingDoor {
            door: TcpDoor::new(net, port),
            rt,
            given: 0,
        }
    }
}

impl<'r, R: Net<Listener = TcpListener, Stream = TcpStream> + Eprint> Door for TellingDoor<'r, R> {
    ghost use Rattle.std.specs.Prelude.{None, refl};
    ghost use Rattle.dcr_base.specs.Link.{links_of};
    ghost use Rattle.dcr_serve.specs.TcpDoor.{failed_calls};
    ghost use Rattle.dcr_serve.specs.TcpLink.{tcp_links};

    type Link = TellingLink<'r, R>;

    ghost tells = { record {
      links = λ _. None;
      is_shut = λ _. ⊥;
      faults = λ door. failed_calls door.door;
      each = links_of (λ link. tcp_links.gives link.link) (λ link. tcp_links.takes link.link) tcp_links.unread tcp_links.sent;
    } };

    fn next(&mut self) -> Result<Option<TellingLink<'r, R>>, Failed> {
        match self.door.next() {
            Ok(Some(link)) => {
                let number = self.given;
                self.given = self.given.saturating_add(1);
                let _said = eprintln!(self.rt; "dcr: session {number} begins");
                Ok(Some(TellingLink {
                    link,
                    rt: self.rt,
                    number,
                    has_ended: false,
                }))
            }
            Ok(None) => Ok(None),
            Err(Failed) => {
                let _said = eprintln!(self.rt; "dcr: no connection could be taken");
                Err(Failed)
            }
        }
    }

    ghost each_is = { refl };

    ghost shut_has_none = { λ door never. absurd never };
}

/// A [`TcpLink`] that says how its session ends.
#[derive(Drop)]
pub(crate) struct TellingLink<'r, R> {
    link: TcpLink,
    rt: &'r R,
    number: u32,
    has_ended: bool,
}

impl<'r, R> Source for TellingLink<'r, R> {
    ghost use Rattle.std.specs.Prelude.{IsTrue};
    ghost use Rattle.dcr_serve.specs.TcpLink.{tcp_links};

    ghost gives = { λ link. tcp_links.gives link.link };

    ghost has_ended = { λ link. IsTrue link.link.has_ended };

    ghost sink_side = { λ link. tcp_links.takes link.link };

    fn read(&mut self, buf: &mut [u8]) -> Result<usize, Failed> {
        let has_room = !buf.is_empty();
        let read = self.link.read(buf);
        self.has_ended = has_room && matches!(&read, Ok(0));
        read
    }

    ghost ended_has_none = { λ link ended. tt };
}

impl<'r, R> Sink for TellingLink<'r, R> {
    ghost use Rattle.dcr_serve.specs.TcpLink.{tcp_links};

    ghost takes = { λ link. tcp_links.takes link.link };

    ghost source_side = { λ link. tcp_links.gives link.link };

    fn write(&mut self, bytes: &[u8]) -> Result<usize, Failed> {
        self.link.write(bytes)
    }
}

impl<'r, R: Eprint> Link for TellingLink<'r, R> {
    type Rest = TcpRest;

    /// Says how the session has ended, and drops the connection.
    fn finish(self) -> TcpRest {
        let TellingLink {
            link,
            rt,
            number,
            has_ended,
        } = self;
        let rest = link.finish();
        let how = if rest.failed_reads > 0 {
            "the connection failed as it was read"
        } else if rest.failed_writes > 0 {
            "the connection failed as a reply was written"
        } else if has_ended {
            "the client has ended it"
        } else {
            "it was ended here, as its last reply says"
        };
        let _said = eprintln!(rt; "dcr: session {number} has ended: {how}");
        rest
    }

    ghost use Rattle.std.specs.Prelude.{refl};

    ghost sink_is = { λ link. refl };

    ghost source_is = { λ link. refl };
}

// A report with more bytes is too long for `replay`.
const MOST_REPLAYED: u64 = 268_435_456;

/// A sink that says where more was written than a report may have that `replay` reads.
#[derive(Drop)]
pub(crate) struct TellingSink<'r, S, R> {
    sink: S,
    rt: &'r R,
    written: u64,
}

impl<'r, S, R> TellingSink<'r, S, R> {
    /// Over this sink, by which nothing was written yet.
    pub(crate) fn new(rt: &'r R, sink: S) -> TellingSink<'r, S, R> {
        TellingSink {
            sink,
            rt,
            written: 0,
        }
    }
}

impl<'r, S: Sink, R: Eprint> Sink for TellingSink<'r, S, R> {
    ghost takes = { λ sink. S.takes sink.sink };

    ghost source_side = { λ sink. S.source_side sink.sink };

    fn write(&mut self, bytes: &[u8]) -> Result<usize, Failed> {
        let taken = self.sink.write(bytes)?;
        let before = self.written;
        self.written = before.saturating_add(taken as u64);
        if before <= MOST_REPLAYED && MOST_REPLAYED < self.written {
            let _said = eprintln!(self.rt;
                "dcr: more than {MOST_REPLAYED} bytes are written: replay reads no report that is longer"
            );
        }
        Ok(taken)
    }
}

/// The number that the words have behind this one; 0 where they have none.
pub(crate) fn number_behind(words: io::Result<Args>, before: &str) -> u32 {
    let Ok(mut words) = words else {
        return 0;
    };
    let _before = words.find(|word| word.as_str() == before);
    match words.next() {
        Some(word) => word.as_str().parse::<u32>().unwrap_or(0),
        None => 0,
    }
}

/// Says what has failed, where the outside or memory did.
pub(crate) fn tell_failure<R: Eprint>(rt: &R, status: Status) {
    let what = match status {
        Status::ReadFault => "the input failed as it was read; nothing was written",
        Status::WriteFault => "the output failed: what it took is a front of what was due",
        Status::NoMemory =>
            "memory could not be had: what was written is nothing, or a front of what was due",
        Status::DiskFault => "the file dcr.tape could not be opened, read or written",
        Status::DoorFault =>
            "the port 7411 could not be had, or a connection could not be taken; the report is whole",
        _ => return,
    };
    let _said = eprintln!(rt; "dcr: {what}");
}
