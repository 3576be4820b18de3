// A row: what is handed to the top call, and what is to come of it.
use dcr_app::dcr;
use dcr_base::{OpenGate, StdSink, StdSource};
use dcr_fakes::{MemDisk, MemDoor};
use std::alloc::Global;
use std::io;
use std::sync::Wait;
use std::thread::Threads;

#[derive(Drop)]
pub(crate) struct Row {
    pub(crate) name: String,
    // What is read; and a text of which each front in turn, but the empty one, is read behind it.
    pub(crate) input: Vec<u8>,
    pub(crate) front: Vec<u8>,
    // What is to be written.
    pub(crate) want: Vec<u8>,
    // What the disk has before and is to have afterwards, where it may be called.
    pub(crate) tape: Option<Vec<u8>>,
    pub(crate) kept: Vec<u8>,
}

impl Row {
    pub(crate) fn new(alloc: Global, name: &str) -> io::Result<Row> {
        Ok(Row {
            name: String::from_str(alloc, name)?,
            input: Vec::new(alloc),
            front: Vec::new(alloc),
            want: Vec::new(alloc),
            tape: None,
            kept: Vec::new(alloc),
        })
    }

    // What the disk has before, which may be called then.
    pub(crate) fn tape_mut(&mut self, alloc: Global) -> &mut Vec<u8> {
        self.tape.get_or_insert_with(|| Vec::new(alloc))
    }

    // Puts the second text in the place where the first one stands first in the input. False where it doesn't.
    pub(crate) fn replace(&mut self, alloc: Global, old: &[u8], new: &[u8]) -> io::Result<bool> {
        for at in 0..self.input.len() {
            if self.input[at..].starts_with(old) {
                let mut changed = Vec::from_slice(alloc, &self.input[..at])?;
                changed.extend_from_slice(new)?;
                changed.extend_from_slice(&self.input[at + old.len()..])?;
                self.input = changed;
                return Ok(true);
            }
        }
        Ok(false)
    }

    // What is wrong of the row, with these words and this status; empty where it holds.
    pub(crate) fn wrong<R: Threads + Wait + Sync>(
        &self,
        rt: &R,
        alloc: Global,
        words: &[String],
        status: u8,
    ) -> io::Result<String> {
        if self.front.is_empty() {
            return self.wrong_at(rt, alloc, words, status, &self.input);
        }
        let mut input = Vec::from_slice(alloc, &self.input)?;
        for byte in self.front.iter() {
            input.push(*byte)?;
            let wrong = self.wrong_at(rt, alloc, words, status, &input)?;
            if !wrong.is_empty() {
                return Ok(format!(in alloc; "of {} bytes {wrong}", input.len())?);
            }
        }
        Ok(String::new(alloc))
    }

    // What is wrong of the row with this input.
    fn wrong_at<R: Threads + Wait + Sync>(
        &self,
        rt: &R,
        alloc: Global,
        words: &[String],
        status: u8,
        bytes: &[u8],
    ) -> io::Result<String> {
        let held = match &self.tape {
            Some(tape) => Vec::from_slice(alloc, tape)?,
            None => Vec::new(alloc),
        };
        let disk = MemDisk::new(alloc, held, Vec::new(alloc));
        let ended = run_row(rt, alloc, words, bytes, disk);
        let why = self.why(&ended, status);
        Ok(String::from_str(alloc, why)?)
    }

    // Why this end isn't the one that is wanted; empty where it is.
    fn why(&self, ended: &Ended, status: u8) -> &'static str {
        if ended.status != status {
            "it ends with another status"
        } else if ended.wrote.as_slice() != self.want.as_slice() {
            "something else is written"
        } else if self.tape.is_none() && !ended.disk.calls().is_empty() {
            "the disk was called"
        } else if self.tape.is_some() && ended.disk.bytes() != self.kept.as_slice() {
            "the disk has other bytes"
        } else {
            ""
        }
    }
}

// How the program has ended: its status, what it wrote, and the disk.
#[derive(Drop)]
struct Ended {
    status: u8,
    wrote: Vec<u8>,
    disk: MemDisk,
}

fn run_row<R: Threads + Wait + Sync>(
    rt: &R,
    alloc: Global,
    words: &[String],
    bytes: &[u8],
    disk: MemDisk,
) -> Ended {
    let (mut input, mut output) = (StdSource::new(bytes), StdSink::new(Vec::new(alloc)));
    let door = MemDoor::new(Vec::new(alloc), Vec::new(alloc));
    let end = dcr(
        rt,
        alloc,
        words,
        &mut input,
        &mut output,
        door,
        disk,
        OpenGate,
    );
    Ended {
        status: end.status.code(),
        wrote: output.into_inner(),
        disk: end.disk,
    }
}
