// A client that sends a line, waits for its reply, and then sends the next.
ghost use Rattle.std.specs.Prelude.{◌≡◌};

use crate::same::{same, same_bytes};
use crate::whole::{empty_disk, words_of};
use dcr_app::{Status, WorkCause, WorkEnd, dcr};
use dcr_base::{Door, Failed, Link, OpenGate, Sink, Source, Spent, StdSink, StdSource};
use dcr_cluster_rows::HOSPITAL;
use std::alloc::Global;
use std::collections::VecDeque;
use std::test::Fail;

// A link over which each line comes when the one before it was answered. A read before that fails, where a client would
// leave a server waiting for ever. It tells contracts nothing of its bytes.
#[derive(Drop)]
struct PoliteLink {
    lines: VecDeque<Vec<u8>>,
    // A line came that has no reply.
    waits: bool,
    ended: bool,
    taken: Vec<u8>,
    early: u64,
    unkept: u64,
}

impl PoliteLink {
    fn new(alloc: Global, lines: Vec<Vec<u8>>) -> PoliteLink
        ensures early { result.early ≡ 0 }
        ensures unkept { result.unkept ≡ 0 }
    {
        PoliteLink {
            lines: VecDeque::from_vec(lines),
            waits: false,
            ended: false,
            taken: Vec::new(alloc),
            early: 0,
            unkept: 0,
        }
    }
}

impl Source for PoliteLink {
    ghost use Rattle.std.specs.Prelude.{◌≡◌, None, true};
    ghost use Rattle.dcr_base.specs.Side.{side};

    ghost gives = { λ link. side None link.early };

    ghost has_ended = { λ link. link.ended ≡ true };

    ghost sink_side = { λ link. side None link.unkept };

    fn read(&mut self, buf: &mut [u8]) -> Result<usize, Failed> {
        if self.ended {
            return Ok(0);
        }
        if self.waits {
            self.early = self.early.saturating_add(1);
            return Err(Failed);
        }
        // A line that is longer than the room is none that a client here asks.
        let Some(line) = self
            .lines
            .pop_front()
            .filter(|line| line.len() <= buf.len())
        else {
            self.ended = true;
            return Ok(0);
        };
        let count = line.len();
        buf[..count].copy_from_slice(&line);
        self.waits = true;
        self.ended = count == 0;
        Ok(count)
    }

    ghost ended_has_none = { λ link ended. tt };
}

impl Sink for PoliteLink {
    ghost use Rattle.std.specs.Prelude.{None};
    ghost use Rattle.dcr_base.specs.Side.{side};

    ghost takes = { λ link. side None link.unkept };

    ghost source_side = { λ link. side None link.early };

    fn write(&mut self, bytes: &[u8]) -> Result<usize, Failed> {
        if self.taken.extend_from_slice(bytes).is_err() {
            self.unkept = self.unkept.saturating_add(1);
            return Err(Failed);
        }
        if bytes.ends_with(b"\n") {
            self.waits = false;
        }
        Ok(bytes.len())
    }
}

impl Spent for PoliteLink {
    ghost use Rattle.std.specs.Prelude.{None};
    ghost use Rattle.dcr_base.specs.Side.{side};

    ghost unread = { λ link. side None link.early };

    ghost sent = { λ link. side None link.unkept };
}

impl Link for PoliteLink {
    type Rest = PoliteLink;

    fn finish(self) -> PoliteLink
        ensures { result ≡ self }
    {
        self
    }

    ghost use Rattle.std.specs.Prelude.{refl};

    ghost sink_is = { λ link. refl };

    ghost source_is = { λ link. refl };
}

// A door with one such link, over which these lines are asked.
#[derive(Drop)]
struct PoliteDoor {
    alloc: Global,
    lines: Option<Vec<Vec<u8>>>,
}

impl Door for PoliteDoor {
    ghost use Rattle.std.specs.Prelude.{◌≡◌, None, refl};
    ghost use Rattle.dcr_base.specs.Link.{links_of};
    ghost use Rattle.dcr_base.specs.Side.{side};

    type Link = PoliteLink;

    ghost tells = { record {
      links = λ _. None;
      is_shut = λ door. door.lines ≡ None;
      faults = λ _. 0;
      each = links_of (λ link. side None link.early) (λ link. side None link.unkept) (λ link. side None link.early) (λ link. side None link.unkept);
    } };

    fn next(&mut self) -> Result<Option<PoliteLink>, Failed> {
        match self.lines.take() {
            Some(lines) => Ok(Some(PoliteLink::new(self.alloc, lines))),
            None => Ok(None),
        }
    }

    ghost each_is = { refl };

    ghost shut_has_none = { λ door shut. tt };
}

#[test]
fn each_line_is_answered_before_the_next_one_is_read(rt: HostRuntime) -> Result<(), Fail> {
    let alloc = rt.alloc();
    let mut lines = Vec::new(alloc);
    for line in [
        "look doctor\n",
        "exec doctor pm\n",
        "foo\n",
        "exec nurse gm\n",
        "accepting\n",
    ] {
        lines.push(line.as_bytes().to_vec(alloc)?)?;
    }
    let door = PoliteDoor {
        alloc,
        lines: Some(lines),
    };
    let words = words_of(alloc, &["serve", "--sessions", "1", "--workers", "1"])?;
    let mut input = StdSource::new(HOSPITAL.as_bytes());
    let mut output = StdSink::new(Vec::with_capacity(alloc, 4096)?);
    let disk = empty_disk(alloc);
    let end = dcr(
        &rt,
        alloc,
        &words,
        &mut input,
        &mut output,
        door,
        disk,
        OpenGate,
    );
    same(&rt, &end.status, &Status::Done, "the status");
    let told = end.ends.first().ok_or("a session with a link")?;
    let ended = WorkEnd {
        calls: 4,
        cause: WorkCause::Ended,
    };
    same(&rt, &told.end, &ended, "the end of the session");
    same_bytes(
        &rt,
        &told.rest.taken,
        b"0 0 0 look doctor executed - pending - included pm,s\n1 0 1 exec doctor pm done\nbad-line\n2 0 2 exec nurse gm condition s\n3 0 3 accepting waits s\n",
        "the replies",
    );
    Ok(())
}
