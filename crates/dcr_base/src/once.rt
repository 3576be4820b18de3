ghost use Rattle.std.specs.Prelude.{ℕ, List, Option, Result, ⊤};
ghost use Rattle.std.specs.Io.{ReadsAtMost, WritesAtMost};
ghost use Rattle.std.specs.Io.KnownBytes.{ReadConsumes, WriteAppends};
ghost use Rattle.std.specs.declared.io.Error.{Error};

use std::io;
use std::io::{Read, Write};

/// A reader of std that is asked once at a time. Each reader of std is one.
///
/// std tells of no call that it was made. Here a call leaves `answered` behind, which nothing else gives: so a contract
/// can say what was asked, how often, and what became of the answer.
pub trait ReadOnce {
    /// The bytes that reads will give from here on, where they are known.
    ghost left: { Self → Option (List ℕ) };

    /// That a reader that stood so was asked once, answered this, and stands so since.
    ghost answered: { Self → Result ℕ Error → Self → Type 0 };

    /// Asks once, and hands on the answer.
    fn read_once(&mut self, buf: &mut [u8]) -> io::Result<usize>
        ensures within { ReadsAtMost result buf.new }
        ensures moved { ReadConsumes (left self.old) (left self.new) result buf.new }
        ensures asked { answered self.old result self.new };
}

impl<R: Read> ReadOnce for R {
    ghost left = { R.remaining };

    ghost answered = { λ _ _ _. ⊤ };

    fn read_once(&mut self, buf: &mut [u8]) -> io::Result<usize> {
        self.read(buf)
    }
}

/// A writer of std that is asked once at a time, as [`ReadOnce`] is for readers. Each writer of std is one.
pub trait WriteOnce {
    /// The bytes that the writer holds, where they are known.
    ghost taken: { Self → Option (List ℕ) };

    /// That a writer that stood so was asked once, answered this, and stands so since.
    ghost answered: { Self → Result ℕ Error → Self → Type 0 };

    /// Asks once, and hands on the answer.
    fn write_once(&mut self, bytes: &[u8]) -> io::Result<usize>
        ensures within { WritesAtMost result bytes.now }
        ensures appended { WriteAppends (taken self.old) (taken self.new) result bytes.now }
        ensures asked { answered self.old result self.new };
}

impl<W: Write> WriteOnce for W {
    ghost taken = { W.contents };

    ghost answered = { λ _ _ _. ⊤ };

    fn write_once(&mut self, bytes: &[u8]) -> io::Result<usize> {
        self.write(bytes)
    }
}
