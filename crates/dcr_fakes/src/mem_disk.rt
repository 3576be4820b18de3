ghost use Rattle.std.specs.Prelude.{◌≡◌, ◌≤◌, ◌++◌, [], ◌∷◌, false, length, drop, if◌then◌else◌, IsTrue, IfOk, OnOk};
ghost use Rattle.dcr_base.specs.Count.{CountsFault};
ghost use Rattle.dcr_base.specs.Disk.{Stays, Writes, Wrote, Durable, bytes_at, written};
ghost use Rattle.dcr_fakes.specs.CallLog.{no_calls};
ghost use Rattle.dcr_fakes.specs.DiskLog.{content_after, current};
ghost use Rattle.dcr_fakes.specs.declared.disk_call.DiskCall.TheVariants.{Len, Read, Sync};

use crate::calls::Calls;
use crate::disk_call::DiskCall;
use crate::image::torn_image;
use dcr_base::{Disk, Failed, read_from, write_over};
use dcr_set::NoMemory;
use std::alloc::Global;

/// A [`Disk`] in memory that keeps to the disk model, tells its content, and keeps a list of its calls. A call fails
/// where its number is among those that its maker named, counted from 1, where a write begins behind the end, and where
/// there is no memory for what is written or for the list; a call that the list has no memory for isn't in it.
#[derive(Drop)]
pub struct MemDisk {
    alloc: Global,
    first: Vec<u8>,
    // What it holds, from the first write on.
    changed: Option<Vec<u8>>,
    done: Vec<DiskCall>,
    calls: Calls,
    ghost holds: { current first.items changed ≡ content_after first.items done.items },
}

impl MemDisk {
    ghost use Rattle.dcr_fakes.specs.MemDiskView.{held, held_first, calls_of, log_of_calls, HasNoCall, LeftWithin};

    /// A disk that holds these bytes, all of them durable. `failing` has the numbers of the calls that fail, counted
    /// from 1. Takes no memory.
    pub fn new(alloc: Global, bytes: Vec<u8>, failing: Vec<u32>) -> MemDisk
        ensures held { held result ≡ bytes.items }
        ensures first { held_first result ≡ bytes.items }
        ensures no_calls { calls_of result ≡ [] }
        ensures failing { log_of_calls result ≡ no_calls failing.items }
    {
        MemDisk {
            alloc,
            first: bytes,
            changed: None,
            done: Vec::new(alloc),
            calls: Calls::new(failing),
        }
    }

    /// What it holds.
    pub fn bytes(&self) -> &[u8]
        ensures { result.now ≡ held self.now }
    {
        match &self.changed {
            Some(bytes) => bytes.as_slice(),
            None => self.first.as_slice(),
        }
    }

    /// The calls that it had, the first of them first.
    pub fn calls(&self) -> &[DiskCall]
        ensures { result.now ≡ calls_of self.now }
    {
        self.done.as_slice()
    }

    /// One image that a crash within the call of this number may leave, counted from 1; where no call has the number,
    /// what it holds. Two bits of `choice` for each write, the lowest for the first one, say what the crash makes of it:
    /// 0 all of it is there, 1 nothing is, 2 every byte of its range is 1, 3 its first half is there.
    pub fn image(&self, alloc: Global, call: u32, choice: u64) -> Result<Vec<u8>, NoMemory>
        ensures within { IfOk result (λ image. 1 ≤ call → call ≤ length (calls_of self.now)
            → LeftWithin self.now call image.items) }
        ensures no_call { IfOk result (λ image. HasNoCall (calls_of self.now) call
            → image.items ≡ held self.now) }
    {
        let number = call as usize;
        if number == 0 || number > self.done.len() {
            let image = self.bytes().to_vec(alloc)?;
            return Ok(image);
        }
        // A sync may not have happened yet.
        let count = match &self.done[number - 1] {
            DiskCall::Sync { .. } => number - 1,
            _ => number,
        };
        let image = torn_image(alloc, &self.first, &self.done[..count], choice)?;
        Ok(image)
    }
}

impl Disk for MemDisk {
    ghost use Rattle.dcr_fakes.specs.MemDiskView.{disk_view, faults_of, calls_of, IsCounted, ListsWrite};

    ghost view = { disk_view };

    ghost faults = { faults_of };

    fn len(&mut self) -> Result<u64, Failed>
        // What each disk promises.
        ensures length { IfOk result (λ n. IsTrue (disk_view self.new).told
            × (n ≡ length (disk_view self.new).content)) }
        ensures stays { Stays (disk_view self.old) (disk_view self.new) }
        ensures counts { CountsFault result (faults_of self.old) (faults_of self.new) }

        // Which calls fail, and the list.
        ensures counted { IsCounted result self.old self.new }
        ensures listed { OnOk result (calls_of self.new ≡ calls_of self.old ++ Len false ∷ []) }
    {
        let failed = self.calls.count();
        if !keep(&mut self.done, DiskCall::Len { failed }) {
            return Err(self.calls.fault());
        }
        if failed {
            return Err(self.calls.fault());
        }
        Ok(self.bytes().len() as u64)
    }

    fn read(&mut self, at: u64, buf: &mut [u8]) -> Result<usize, Failed>
        // What each disk promises.
        ensures read { IfOk result (λ n. IsTrue (disk_view self.new).told
            × (n ≡ length (bytes_at (disk_view self.new).content at (length buf.old)))
            × (buf.new ≡ bytes_at (disk_view self.new).content at (length buf.old) ++ drop n buf.old)) }
        ensures stays { Stays (disk_view self.old) (disk_view self.new) }
        ensures counts { CountsFault result (faults_of self.old) (faults_of self.new) }

        // Which calls fail, and the list.
        ensures counted { IsCounted result self.old self.new }
        ensures listed { OnOk result
            (calls_of self.new ≡ calls_of self.old ++ Read at (length buf.old) false ∷ []) }
    {
        let failed = self.calls.count();
        let count = buf.len();
        if !keep(&mut self.done, DiskCall::Read { at, count, failed }) {
            return Err(self.calls.fault());
        }
        if failed {
            return Err(self.calls.fault());
        }
        Ok(read_from(self.bytes(), at, buf))
    }

    fn write_at(&mut self, at: u64, bytes: &[u8]) -> Result<(), Failed>
        // What each disk promises.
        ensures wrote { OnOk result (Wrote at bytes.now (disk_view self.old) (disk_view self.new)) }
        ensures writes { Writes at bytes.now (disk_view self.old) (disk_view self.new) }
        ensures counts { CountsFault result (faults_of self.old) (faults_of self.new) }

        // Which calls fail, and the list.
        ensures counted { IsCounted result self.old self.new }
        ensures listed { OnOk result (ListsWrite at bytes.now (calls_of self.old) (calls_of self.new)) }
    {
        let fails = self.calls.count();
        let Ok(piece) = bytes.to_vec(self.alloc) else {
            return Err(self.calls.fault());
        };
        if self.done.reserve(1).is_err() {
            return Err(self.calls.fault());
        }
        let failed = !write_now(self.alloc, &self.first, &mut self.changed, fails, at, bytes);
        self.done.push_reserved(DiskCall::Write {
            at,
            bytes: piece,
            failed,
        });
        if failed {
            return Err(self.calls.fault());
        }
        Ok(())
    }

    fn sync(&mut self) -> Result<(), Failed>
        // What each disk promises.
        ensures durable { OnOk result (Durable (disk_view self.new)) }
        ensures stays { Stays (disk_view self.old) (disk_view self.new) }
        ensures counts { CountsFault result (faults_of self.old) (faults_of self.new) }

        // Which calls fail, and the list.
        ensures counted { IsCounted result self.old self.new }
        ensures listed { OnOk result (calls_of self.new ≡ calls_of self.old ++ Sync false ∷ []) }
    {
        let failed = self.calls.count();
        if !keep(&mut self.done, DiskCall::Sync { failed }) {
            return Err(self.calls.fault());
        }
        if failed {
            return Err(self.calls.fault());
        }
        Ok(())
    }
}

// Puts a call into the list, where there is memory for it, and answers whether there was.
fn keep(done: &mut Vec<DiskCall>, call: DiskCall) -> bool
    ensures { done.new.items ≡ (if result then done.old.items ++ call ∷ [] else done.old.items) }
{
    done.push(call).is_ok()
}

// Writes a piece over what the disk holds, and answers whether it did: not where the call is to fail, where the piece
// would begin behind the end, or where there is no memory for it.
fn write_now(
    alloc: Global,
    first: &[u8],
    changed: &mut Option<Vec<u8>>,
    fails: bool,
    at: u64,
    piece: &[u8],
) -> bool
    ensures held { current first.now changed.new ≡ (if result
        then written at piece.now (current first.now changed.old)
        else current first.now changed.old) }
    ensures within { IsTrue result → at ≤ length (current first.now changed.old) }
    ensures named { IsTrue fails → result ≡ false }
{
    if fails {
        return false;
    }
    if changed.is_none() {
        match first.to_vec(alloc) {
            Ok(copy) => *changed = Some(copy),
            Err(_) => return false,
        }
    }
    match changed {
        Some(bytes) => write_within(bytes, at, piece),
        None => false,
    }
}

// The same over bytes.
fn write_within(bytes: &mut Vec<u8>, at: u64, piece: &[u8]) -> bool
    ensures held { bytes.new.items ≡ (if result
        then written at piece.now bytes.old.items else bytes.old.items) }
    ensures within { IsTrue result → at ≤ length bytes.old.items }
{
    if at > bytes.len() as u64 {
        return false;
    }
    write_over(bytes, at as usize, piece).is_ok()
}
