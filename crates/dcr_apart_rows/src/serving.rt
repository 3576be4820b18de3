// A site over scripted links: the nurse of the hospital. Her part is as `tools/part.py` tells it, what she answers as
// `tools/apart.py` and Python's hmac and struct do.
ghost use Rattle.std.specs.Prelude.{◌≡◌, IfOk};
ghost use Rattle.dcr_fakes.specs.LinkState.{IsFresh};
ghost use Rattle.dcr_porter_fakes.specs.PorterState.{AreFresh};

use crate::same::{same, same_bytes};
use dcr_apart::{SiteEnd, site};
use dcr_base::Status;
use dcr_fakes::{MemLink, MemSink, MemSource};
use dcr_porter_fakes::MemPorter;
use std::alloc::Global;
use std::cell::Cell;
use std::io;
use std::process::Abort;
use std::sync::Wait;
use std::test::Fail;
use std::time::{Clock, Duration};

const NURSE: &str =
    "{\"alphabet\":[[0,\"pm\",false],[1,\"s\",false],[2,\"gm\",true],[3,\"dt\",true]],\"atoms\":4,\"digest\":\"3e185341c170eb43d392981763b11009c871467a83021996ff2db6476e6cf1c5\",\"format\":\"dcr part 1\",\"number\":1,\"opening\":{\"executed\":[],\"included\":[1,2,3],\"pending\":[]},\"relations\":{\"cancel\":[],\"condition\":[[1,[2,3]]],\"exclude\":[[3,[2]]],\"include\":[[1,[2]]],\"milestone\":[],\"response\":[[0,[2]]]},\"site\":\"nurse\"}\n";

const KEY: &str = "202122232425262728292a2b2c2d2e2f303132333435363738393a3b3c3d3e3f\n";

// What she is sent: a challenge of 44 bytes; whether `gm` may be executed, once she has heard of nothing, 14; that `s` was
// executed, 14; whether `gm` may be, once she has heard of that, 14; and which of her events waits, 12.
const ASKED: &str =
    "6463724f01020304050607085a5a5a5a5a5a5a5a5a5a5a5a5a5a5a5a5a5a5a5a5a5a5a5a5a5a5a5a5a5a5a5a010001000000010002000000000003000100000000000100000000000100010000000200020000000100040001000000030200000001";

// What she answers: her hello, 78 bytes; that the condition `s` is open, 14; that it may be executed, 14; and that none waits,
// 400 bytes, of which all behind these are 0.
const SAID: &str =
    "64637253010203040506070800013e185341c170eb43d392981763b11009c871467a83021996ff2db6476e6cf1c54e8193478ca2248f1b950ab5d84416983fbf375a2111f534e9f0fb6cbe515acf0200010000000100010000000003020001000000020000000000000005000100000003020000";

const SAID_BYTES: usize = 506;

fn asked(alloc: Global) -> Result<Vec<u8>, Fail> {
    Ok(hex::decode(alloc, ASKED)?)
}

fn said(alloc: Global) -> Result<Vec<u8>, Fail> {
    let mut bytes = hex::decode(alloc, SAID)?;
    for _ in bytes.len()..SAID_BYTES {
        bytes.push(0)?;
    }
    Ok(bytes)
}

// How a link fails: at the read and at the write of these numbers, 0 for none, and for want of room for its answers.
#[derive(Clone, Copy)]
struct Faults {
    read: u32,
    write: u32,
    room: usize,
}

const NO_FAULT: Faults = Faults {
    read: 0,
    write: 0,
    room: 1000,
};

// A link that sends these bytes, each piece that is asked for in one read.
fn link_of(alloc: Global, bytes: &[u8], faults: Faults) -> Result<MemLink, Fail>
    ensures { IfOk result (λ link. IsFresh link) }
{
    let reads = Vec::from_slice(alloc, [faults.read].as_slice())?;
    let writes = Vec::from_slice(alloc, [faults.write].as_slice())?;
    let source = MemSource::new(Vec::from_slice(alloc, bytes)?, 100, reads);
    Ok(MemLink::new(source, MemSink::failing(alloc, faults.room, writes)))
}

// Two links, the second of which doesn't fail, with nobody between them.
fn two_links(alloc: Global, bytes: &[u8], faults: Faults) -> Result<MemPorter, Fail> {
    let mut turns = Vec::new(alloc);
    turns.push(Some(link_of(alloc, bytes, faults)?))?;
    turns.push(None)?;
    turns.push(Some(link_of(alloc, &asked(alloc)?, NO_FAULT)?))?;
    Ok(MemPorter::new(alloc, turns, Vec::new(alloc))?)
}

// The end of the nurse over this porter.
fn served<R: Wait + Clock>(
    rt: &R,
    alloc: Global,
    porter: MemPorter,
) -> Result<SiteEnd<MemPorter>, Fail> {
    let part = Vec::from_slice(alloc, NURSE.as_bytes())?;
    let mut input = MemSource::new(part, 100, Vec::new(alloc));
    let mut output = MemSink::new(alloc, 0);
    let key = Vec::from_slice(alloc, KEY.as_bytes())?;
    Ok(site(rt, alloc, &[], &mut input, &mut output, Some(key), porter))
}

// That the link of this number was handed back as the one at this place, and took this.
fn assert_took(rt: &impl Abort, end: &SiteEnd<MemPorter>, number: u64, taken: &[u8], row: &str) {
    match end.porter.back().get(number as usize) {
        Some((told, link)) => {
            same(rt, told, &number, row);
            same_bytes(rt, link.taken(), taken, row);
        }
        None => same(rt, &false, &true, row),
    }
}

// That the first of two links took so many bytes of the answers, and the second one, of a site begun anew, all.
fn assert_both<R: Wait + Clock + Abort>(
    rt: &R,
    alloc: Global,
    porter: MemPorter,
    taken: usize,
    row: &str,
) -> Result<(), Fail> {
    let all = said(alloc)?;
    let end = served(rt, alloc, porter)?;
    same(rt, &end.status, &Status::Done, row);
    same(rt, &end.porter.back().len(), &2, row);
    assert_took(rt, &end, 0, all.get(..taken).unwrap_or(b""), row);
    assert_took(rt, &end, 1, &all, row);
    Ok(())
}

// The read that fails, and how many bytes of answers came before. No read is the tenth.
static READS: [(u32, usize); 10] = [
    (1, 0),
    (2, 78),
    (3, 78),
    (4, 92),
    (5, 92),
    (6, 92),
    (7, 92),
    (8, 106),
    (9, 506),
    (10, 506),
];

#[test]
fn each_read_of_a_link_fails_in_turn(rt: HostRuntime) -> Result<(), Fail> {
    for (read, taken) in &READS {
        let faults = Faults {
            read: *read,
            write: 0,
            room: 1000,
        };
        let porter = two_links(rt.alloc(), &asked(rt.alloc())?, faults)?;
        assert_both(&rt, rt.alloc(), porter, *taken, "a read that fails")?;
    }
    Ok(())
}

// The write that fails, and how many bytes of answers came before.
static WRITES: [(u32, usize); 5] = [(1, 0), (2, 78), (3, 92), (4, 106), (5, 506)];

#[test]
fn each_write_of_a_link_fails_in_turn(rt: HostRuntime) -> Result<(), Fail> {
    for (write, taken) in &WRITES {
        let faults = Faults {
            read: 0,
            write: *write,
            room: 1000,
        };
        let porter = two_links(rt.alloc(), &asked(rt.alloc())?, faults)?;
        assert_both(&rt, rt.alloc(), porter, *taken, "a write that fails")?;
    }
    for room in 0..SAID_BYTES {
        let faults = Faults {
            read: 0,
            write: 0,
            room,
        };
        let porter = two_links(rt.alloc(), &asked(rt.alloc())?, faults)?;
        assert_both(&rt, rt.alloc(), porter, room, "no more room")?;
    }
    Ok(())
}

// How many bytes of answers are due to so many bytes of what is asked.
fn due(sent: usize) -> usize {
    match sent {
        0..=43 => 0,
        44..=57 => 78,
        58..=85 => 92,
        86..=97 => 106,
        _ => 506,
    }
}

#[test]
fn a_link_ends_behind_each_byte(rt: HostRuntime) -> Result<(), Fail> {
    let all = asked(rt.alloc())?;
    for sent in 0..98 {
        let front = all.get(..sent).unwrap_or(b"");
        let porter = two_links(rt.alloc(), front, NO_FAULT)?;
        assert_both(&rt, rt.alloc(), porter, due(sent), "a link that ends")?;
    }
    Ok(())
}

// A byte that is changed, to what, and how many bytes of answers come then: of the challenge; of an ask its kind, its event and
// its decision; of an execution its kind, its index and its event; and what a question asks. Each ends the link, but for an
// execution out of turn, which is passed over, so that what is asked behind it comes at another count.
static CHANGED: [(usize, u8, usize); 8] = [
    (3, b'S', 0),
    (44, 2, 78),
    (52, 9, 78),
    (57, 1, 78),
    (58, 5, 92),
    (64, 1, 92),
    (66, 9, 92),
    (93, 7, 106),
];

// What is asked, with this byte in the place of the one that stands there.
fn changed(alloc: Global, place: usize, byte: u8) -> Result<Vec<u8>, Fail> {
    let mut bytes = asked(alloc)?;
    if let Some(old) = bytes.get_mut(place) {
        *old = byte;
    }
    Ok(bytes)
}

#[test]
fn what_a_site_may_not_be_asked_ends_a_link(rt: HostRuntime) -> Result<(), Fail> {
    for (place, byte, taken) in &CHANGED {
        let bytes = changed(rt.alloc(), *place, *byte)?;
        let porter = two_links(rt.alloc(), &bytes, NO_FAULT)?;
        assert_both(&rt, rt.alloc(), porter, *taken, "a changed byte")?;
    }
    Ok(())
}

// An ask of another site, and one at another count, have no vote.
#[test]
fn what_is_not_for_a_site_is_not_answered(rt: HostRuntime) -> Result<(), Fail> {
    let all = said(rt.alloc())?;
    let mut want = Vec::from_slice(rt.alloc(), all.get(..78).unwrap_or(b""))?;
    want.extend_from_slice(all.get(92..).unwrap_or(b""))?;
    for place in [46, 56] {
        let bytes = changed(rt.alloc(), place, 3)?;
        let porter = two_links(rt.alloc(), &bytes, NO_FAULT)?;
        let end = served(&rt, rt.alloc(), porter)?;
        assert_took(&rt, &end, 0, &want, "an ask without a vote");
    }
    Ok(())
}

// A handle whose clock counts the milliseconds for which it is to sleep, and doesn't.
#[derive(Drop)]
struct Counting<'r, R> {
    rt: &'r R,
    slept: Cell<u64>,
}

impl<R: Wait> Wait for Counting<'_, R> {}

impl<R> Clock for Counting<'_, R> {
    fn monotonic(&self) -> io::Result<Duration> {
        Ok(Duration::from_millis(self.slept.get()))
    }

    fn since_1970(&self) -> io::Result<Duration> {
        Ok(Duration::from_millis(self.slept.get()))
    }

    fn sleep(&self, duration: Duration) {
        let before = self.slept.get();
        let millis = u64::try_from(duration.as_millis()).unwrap_or(u64::MAX);
        self.slept.set(before.saturating_add(millis));
    }
}

// Nobody comes nine times: it waits for 0, 10, 20, 40, 80, 160, 320, 640 and 1,000 ms. A link over which nothing is asked, and nobody
// behind it: 1,000 each. One over which something is asked: 0 behind it, and 10 then.
#[test]
fn a_site_waits_longer_each_time(rt: HostRuntime) -> Result<(), Fail> {
    let all = asked(rt.alloc())?;
    let mut turns = Vec::new(rt.alloc());
    turns.push(None)?;
    turns.push(None)?;
    turns.push(None)?;
    turns.push(None)?;
    turns.push(None)?;
    turns.push(None)?;
    turns.push(None)?;
    turns.push(None)?;
    turns.push(None)?;
    turns.push(Some(link_of(rt.alloc(), all.get(..44).unwrap_or(b""), NO_FAULT)?))?;
    turns.push(None)?;
    turns.push(Some(link_of(rt.alloc(), &all, NO_FAULT)?))?;
    turns.push(None)?;
    turns.push(None)?;
    let porter = MemPorter::new(rt.alloc(), turns, Vec::new(rt.alloc()))?;
    let clock = Counting {
        rt: &rt,
        slept: Cell::new(0),
    };
    let end = served(&clock, rt.alloc(), porter)?;
    same(&rt, &end.status, &Status::Done, "it is shut");
    same(&rt, &clock.slept.get(), &4280, "the milliseconds");
    Ok(())
}

// A porter that fails at its first, its second and its third call: before, at and behind its one link.
#[test]
fn a_porter_that_fails_ends_a_site(rt: HostRuntime) -> Result<(), Fail> {
    for call in 1..4u32 {
        let mut turns = Vec::new(rt.alloc());
        turns.push(None)?;
        turns.push(Some(link_of(rt.alloc(), &asked(rt.alloc())?, NO_FAULT)?))?;
        let failing = Vec::from_slice(rt.alloc(), [call].as_slice())?;
        let porter = MemPorter::new(rt.alloc(), turns, failing)?;
        let end = served(&rt, rt.alloc(), porter)?;
        same(&rt, &end.status, &Status::DoorFault, "it failed");
        let came = if call == 3 { 1 } else { 0 };
        same(&rt, &end.porter.back().len(), &came, "links that came");
    }
    Ok(())
}

// The words, the input, the text of the key, the read that fails and the room of the output; and the status and what is written.
type Refused = (
    &'static [&'static str],
    &'static str,
    &'static str,
    u32,
    usize,
    Status,
    &'static str,
);

static REFUSED: [Refused; 8] = [
    (&["nurse"], NURSE, KEY, 0, 99, Status::Usage, "usage\n"),
    (&["nurse"], NURSE, KEY, 0, 3, Status::WriteFault, "usa"),
    (&[], NURSE, KEY, 2, 99, Status::ReadFault, ""),
    (
        &[],
        "",
        KEY,
        0,
        99,
        Status::Refused,
        "refused 19 not-part\n",
    ),
    (
        &[],
        "{}\n",
        "",
        0,
        99,
        Status::Refused,
        "refused 19 not-part\n",
    ),
    (&[], "{}\n", KEY, 0, 7, Status::WriteFault, "refused"),
    (
        &[],
        NURSE,
        "",
        0,
        99,
        Status::Refused,
        "refused 20 keys 1\n",
    ),
    (
        &[],
        NURSE,
        "00\n",
        0,
        99,
        Status::Refused,
        "refused 20 keys 1\n",
    ),
];

#[test]
fn what_is_no_part_and_no_key_is_refused(rt: HostRuntime) -> Result<(), Fail> {
    for (words, text, key, read, room, status, wrote) in &REFUSED {
        let mut spelled = Vec::new(rt.alloc());
        for word in words.iter() {
            spelled.push(String::from_str(rt.alloc(), word)?)?;
        }
        let reads = Vec::from_slice(rt.alloc(), [*read].as_slice())?;
        let text = Vec::from_slice(rt.alloc(), text.as_bytes())?;
        let mut input = MemSource::new(text, 100, reads);
        let mut output = MemSink::new(rt.alloc(), *room);
        let key = Vec::from_slice(rt.alloc(), key.as_bytes())?;
        let porter = two_links(rt.alloc(), &asked(rt.alloc())?, NO_FAULT)?;
        let end = site(
            &rt,
            rt.alloc(),
            &spelled,
            &mut input,
            &mut output,
            Some(key),
            porter,
        );
        same(&rt, &end.status, status, wrote);
        same_bytes(&rt, output.taken(), wrote.as_bytes(), wrote);
        same(&rt, &end.porter.back().is_empty(), &true, wrote);
    }
    Ok(())
}

// A site without a key sends zeros in the place of its MAC.
#[test]
fn a_site_without_a_key_greets_without(rt: HostRuntime) -> Result<(), Fail> {
    let part = Vec::from_slice(rt.alloc(), NURSE.as_bytes())?;
    let mut input = MemSource::new(part, 1, Vec::new(rt.alloc()));
    let mut output = MemSink::new(rt.alloc(), 0);
    let porter = two_links(rt.alloc(), &asked(rt.alloc())?, NO_FAULT)?;
    let end = site(&rt, rt.alloc(), &[], &mut input, &mut output, None, porter);
    let mut want = said(rt.alloc())?;
    for place in 46..78 {
        if let Some(byte) = want.get_mut(place) {
            *byte = 0;
        }
    }
    assert_took(&rt, &end, 0, &want, "no key");
    Ok(())
}
