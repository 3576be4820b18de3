ghost use Rattle.std.specs.Prelude.{◌≡◌, ◌+◌, ◌≤◌, ◌++◌, true, false, length, drop, IsTrue, IfOk, OnOk, OnErr};
ghost use Rattle.dcr_base.specs.Count.{Rose};
ghost use Rattle.dcr_base.specs.Disk.{Stays, Writes, Wrote, Torn, bytes_at, written};

use crate::{Disk, Failed, read_from, write_over};
use std::alloc::Global;
use std::fs::{File, OpenOptions};
use std::io::ErrorKind;
use std::os::unix::fs::FileExt;
use std::rt::Files;
use std::{fs, io};

// The file, in the current folder.
const NAME: &str = "dcr.tape";

// A file with more bytes is a fault: 64 MiB, some three times what the longest tape takes.
const MAX_BYTES: usize = 67_108_864;

// How many bytes are read at once.
const PIECE: usize = 16_384;

/// A [`Disk`] over the file `dcr.tape` in the current folder. The file is opened, and made where it is missing, at the
/// first call, which reads all of it. From then on reads are answered from memory, so that a read repeats what was
/// read or written. A file of more than 64 MiB is a fault, and so is want of memory for its bytes. The file is locked for as
/// long as the disk lives: one that another process has locked is a fault, with nothing read and nothing written, and so is
/// one that is a symbolic link.
///
/// A sync makes the data of the file and its length durable, and the first one the file's entry in its folder too, but where
/// the folder may not be read.
/// After a write or a sync of the file that failed all further ones fail, since the system may have dropped what was
/// written.
///
/// This is a trusted edge: what a real file takes, and what a crash leaves of it, is not proved.
#[derive(Drop)]
pub struct FileDisk<R> {
    alloc: Global,
    rt: R,
    opened: Option<OpenFile>,
    faults: u64,
}

// The file, once it is open.
#[derive(Drop)]
pub(crate) struct OpenFile {
    file: File,
    bytes: Vec<u8>,
    // The file's entry in its folder is durable.
    entered: bool,
    // A write or a sync has failed.
    lost: bool,
}

impl<R: Files<File = File>> FileDisk<R> {
    ghost use Rattle.dcr_base.specs.FileDisk.{is_open, content_of, view_of_file};

    /// A disk over the file. The file is not opened yet.
    pub fn new(alloc: Global, rt: R) -> FileDisk<R>
        ensures unopened { (⟦<FileDisk<R> as Disk>⟧.view result).told ≡ false }
        ensures no_faults { ⟦<FileDisk<R> as Disk>⟧.faults result ≡ 0 }
    {
        FileDisk {
            alloc,
            rt,
            opened: None,
            faults: 0,
        }
    }

    // Opens the file where it isn't open.
    fn open_now(&mut self) -> io::Result<()>
        ensures opened { OnOk result (IsTrue (is_open self.new.opened)) }
        ensures kept { IsTrue (is_open self.old.opened) → self.new.opened ≡ self.old.opened }
        ensures faults { self.new.faults ≡ self.old.faults }
    {
        if self.opened.is_none() {
            self.opened = Some(open_file(self.alloc, &self.rt)?);
        }
        Ok(())
    }

    // The content, once the file is open.
    fn bytes(&self) -> &[u8]
        ensures { result.now ≡ content_of self.now.opened }
    {
        match &self.opened {
            Some(opened) => opened.bytes.as_slice(),
            None => &[],
        }
    }

    fn write_open(&mut self, at: u64, bytes: &[u8]) -> io::Result<()>
        ensures wrote { OnOk result (Wrote at bytes.now
            (view_of_file self.old.opened) (view_of_file self.new.opened)) }
        ensures writes { Writes at bytes.now
            (view_of_file self.old.opened) (view_of_file self.new.opened) }
        ensures faults { self.new.faults ≡ self.old.faults }
    {
        self.open_now()?;
        match &mut self.opened {
            Some(opened) => opened.write_at(at, bytes),
            None => Err(io::Error::from(ErrorKind::NotFound)),
        }
    }

    fn sync_open(&mut self) -> io::Result<()>
        ensures opened { OnOk result (IsTrue (is_open self.new.opened)) }
        ensures stays { Stays (view_of_file self.old.opened) (view_of_file self.new.opened) }
        ensures faults { self.new.faults ≡ self.old.faults }
    {
        self.open_now()?;
        match &mut self.opened {
            Some(opened) => opened.sync(&self.rt),
            None => Err(io::Error::from(ErrorKind::NotFound)),
        }
    }

    // Counts a fault.
    fn fault(&mut self) -> Failed
        ensures opened { self.new.opened ≡ self.old.opened }
        ensures counts { (self.old.faults ≤ self.new.faults) × Rose self.old.faults self.new.faults }
    {
        self.faults = self.faults.saturating_add(1);
        Failed
    }
}

impl<R: Files<File = File>> Disk for FileDisk<R> {
    ghost use Rattle.dcr_base.specs.FileDisk.{file_view, failed_calls};

    ghost view = { file_view };

    ghost faults = { failed_calls };

    fn len(&mut self) -> Result<u64, Failed> {
        match self.open_now() {
            Ok(()) => Ok(self.bytes().len() as u64),
            Err(_) => Err(self.fault()),
        }
    }

    fn read(&mut self, at: u64, buf: &mut [u8]) -> Result<usize, Failed> {
        match self.open_now() {
            Ok(()) => Ok(read_from(self.bytes(), at, buf)),
            Err(_) => Err(self.fault()),
        }
    }

    fn write_at(&mut self, at: u64, bytes: &[u8]) -> Result<(), Failed> {
        match self.write_open(at, bytes) {
            Ok(()) => Ok(()),
            Err(_) => Err(self.fault()),
        }
    }

    fn sync(&mut self) -> Result<(), Failed> {
        match self.sync_open() {
            Ok(()) => Ok(()),
            Err(_) => Err(self.fault()),
        }
    }
}

impl OpenFile {
    fn write_at(&mut self, at: u64, bytes: &[u8]) -> io::Result<()>
        ensures within { OnOk result (at ≤ length self.old.bytes.items) }
        ensures written { OnOk result
            (self.new.bytes.items ≡ written at bytes.now self.old.bytes.items) }
        ensures torn { Torn at (length bytes.now) self.old.bytes.items self.new.bytes.items }
    {
        if self.lost || at > self.bytes.len() as u64 {
            return Err(io::Error::from(ErrorKind::InvalidInput));
        }
        write_over(&mut self.bytes, at as usize, bytes)?;
        self.lost = true;
        self.file.write_all_at(bytes, at)?;
        self.lost = false;
        Ok(())
    }

    fn sync<R: Files<File = File>>(&mut self, rt: &R) -> io::Result<()>
        ensures { self.new.bytes.items ≡ self.old.bytes.items }
    {
        if self.lost {
            return Err(io::Error::from(ErrorKind::BrokenPipe));
        }
        self.lost = true;
        if self.entered {
            self.file.sync_data()?;
        } else {
            self.file.sync_all()?;
            sync_folder(rt)?;
            self.entered = true;
        }
        self.lost = false;
        Ok(())
    }
}

// Whether the name is a symbolic link's.
fn is_link<R: Files<File = File>>(rt: &R) -> bool {
    match fs::symlink_metadata(rt, NAME) {
        Ok(found) => found.is_symlink(),
        Err(_) => false,
    }
}

// Makes the entries of the current folder durable. One that may not be read can't be opened for that, and is left out.
fn sync_folder<R: Files<File = File>>(rt: &R) -> io::Result<()> {
    match File::open(rt, ".") {
        Ok(folder) => folder.sync_all(),
        Err(e) if e.kind() == ErrorKind::PermissionDenied => Ok(()),
        Err(e) => Err(e),
    }
}

// Opens the file, makes it where it is missing, and reads all of it.
fn open_file<R: Files<File = File>>(alloc: Global, rt: &R) -> io::Result<OpenFile> {
    if is_link(rt) {
        return Err(io::Error::from(ErrorKind::InvalidInput));
    }
    let file = OpenOptions::new()
        .read(true)
        .write(true)
        .create(true)
        .open(rt, NAME)?;
    if file.try_lock().is_err() {
        return Err(io::Error::from(ErrorKind::ResourceBusy));
    }
    let bytes = read_whole(alloc, &file)?;
    Ok(OpenFile {
        file,
        bytes,
        entered: false,
        lost: false,
    })
}

fn read_whole(alloc: Global, file: &File) -> io::Result<Vec<u8>> {
    let mut bytes = Vec::new(alloc);
    let mut piece = [0; PIECE];
    for _ in 0..u64::MAX {
        match file.read_at(&mut piece, bytes.len() as u64) {
            Ok(0) => return Ok(bytes),
            Ok(n) => bytes.extend_from_slice(&piece[..n])?,
            Err(e) => {
                if e.kind() != ErrorKind::Interrupted {
                    return Err(e);
                }
            }
        }
        if bytes.len() > MAX_BYTES {
            return Err(io::Error::from(ErrorKind::FileTooLarge));
        }
    }
    Err(io::Error::from(ErrorKind::TimedOut))
}
