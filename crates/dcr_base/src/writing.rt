ghost use Rattle.std.specs.Prelude.{◌≡◌, ◌<◌, ◌++◌, Some, codes, length, take, IfErr, OnOk};
ghost use Rattle.std.specs.Fmt.{decimal};
ghost use Rattle.std.specs.Io.KnownBytes.{Appends};
ghost use Rattle.dcr_base.specs.Count.{CountsFault};

use crate::{Failed, Sink};
use std::error::Error;
use std::fmt;

/// A sink failed before it had taken all bytes.
#[derive(Clone, Copy, Debug, PartialEq, Eq)]
pub struct WriteFault {
    /// How many bytes it took before, from the front.
    pub written: usize,
}

impl fmt::Display for WriteFault {
    ghost output = { λ fault.
        Some (codes "the output failed after " ++ decimal fault.written ++ codes " bytes") };

    fn fmt<W: fmt::Write>(&self, f: &mut fmt::Formatter<W>) -> fmt::Result {
        write!(f, "the output failed after {} bytes", self.written)
    }
}

impl Error for WriteFault {}

/// Writes all the bytes. It takes no memory. `WriteFault` comes exactly where a write failed; the
/// sink then has the first `written` bytes and no more. What is read beside it stays as it was.
pub fn write_all<O: Sink>(sink: &mut O, bytes: &[u8]) -> Result<(), WriteFault>
    ensures all { OnOk result (Appends (O.takes sink.old).bytes (O.takes sink.new).bytes bytes.now) }
    ensures front { IfErr result (λ fault.
        Appends (O.takes sink.old).bytes (O.takes sink.new).bytes (take fault.written bytes.now)) }
    ensures not_all { IfErr result (λ fault. fault.written < length bytes.now) }
    ensures counts { CountsFault result (O.takes sink.old).faults (O.takes sink.new).faults }
    ensures apart { O.source_side sink.new ≡ O.source_side sink.old }
{
    let mut written = 0;
    while written < bytes.len() {
        match sink.write(&bytes[written..]) {
            Ok(n) => written += n,
            Err(Failed) => return Err(WriteFault { written }),
        }
    }
    Ok(())
}
