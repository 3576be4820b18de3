ghost use Rattle.std.specs.Prelude.{◌≡◌, ◌<◌, ◌≤◌, ◌+◌, ℕ, length, drop, vec_len, Some, IsSome, IfSome, IfOk, OnOk, OnErr};
ghost use Rattle.std.specs.Io.KnownBytes.{IsAtEnd};
ghost use Rattle.dcr_base.specs.ReadStop.{CountsRead, message_of};
ghost use Rattle.dcr_base.specs.declared.reading.ReadStop.TheVariants.{NoMemory};

use crate::{Failed, Source};
use std::alloc::{AllocError, AllocFailed, Global};
use std::error::Error;
use std::fmt;

/// Why an input was not read to its end. The bytes read so far are lost.
#[derive(Clone, Copy, Debug, PartialEq, Eq)]
pub enum ReadStop {
    /// More bytes came than the limit.
    TooLong,
    /// A read failed.
    ReadFault,
    /// Memory was wanted and could not be had.
    NoMemory,
}

impl fmt::Display for ReadStop {
    ghost output = { λ stop. Some (message_of stop) };

    fn fmt<W: fmt::Write>(&self, f: &mut fmt::Formatter<W>) -> fmt::Result {
        f.write_str(match self {
            ReadStop::TooLong => "the input is too long",
            ReadStop::ReadFault => "the input failed",
            ReadStop::NoMemory => "out of memory",
        })
    }
}

impl Error for ReadStop {}

impl From<AllocError> for ReadStop {
    ghost from_gives = { λ _ stop. stop ≡ NoMemory };

    fn from(_: AllocError) -> ReadStop {
        ReadStop::NoMemory
    }
}

impl<T: Drop> From<AllocFailed<T>> for ReadStop {
    ghost from_gives = { λ _ stop. stop ≡ NoMemory };

    fn from(_: AllocFailed<T>) -> ReadStop {
        ReadStop::NoMemory
    }
}

// What one read asks for at most.
const CHUNK: usize = 4096;

/// All bytes left, up to the end of input. It asks for `limit` + 1 bytes at most in all, so that
/// one more than the limit is seen, and takes memory as bytes come.
///
/// `TooLong` comes where more than `limit` bytes came, `ReadFault` where a read failed, and
/// `NoMemory` where there was no room for what came. A read that failed is told by `ReadFault`, and
/// none is tried again. An error leaves the source after the bytes read so far.
pub fn read_all<S: Source>(alloc: Global, source: &mut S, limit: usize) -> Result<Vec<u8>, ReadStop>
    ensures within { IfOk result (λ bytes. vec_len bytes ≤ limit) }
    ensures all { IfOk result (λ bytes. IfSome (S.gives source.old).bytes (λ left. bytes.items ≡ left)) }
    ensures has_ended { OnOk result (S.has_ended source.new) }
    ensures ended { OnOk result (IsAtEnd (S.gives source.new).bytes) }

    ensures too_long { result ≡ Err ReadStop.TooLong
        → IfSome (S.gives source.old).bytes (λ left. limit < length left) }
    ensures one_too_many { result ≡ Err ReadStop.TooLong
        → IfSome (S.gives source.old).bytes (λ left. (S.gives source.new).bytes ≡ Some (drop (limit + 1) left)) }
    ensures lost { OnErr result (IfSome (S.gives source.old).bytes
        (λ left. (k : ℕ) × (k ≤ limit + 1) × ((S.gives source.new).bytes ≡ Some (drop k left)))) }

    ensures told { IsSome (S.gives source.old).bytes → IsSome (S.gives source.new).bytes }
    ensures counts { CountsRead result (S.gives source.old).faults (S.gives source.new).faults }
{
    let mut bytes = Vec::new(alloc);
    let mut chunk = [0; CHUNK];
    loop {
        let room = limit - bytes.len();
        let most = room.min(CHUNK - 1) + 1;
        match source.read(&mut chunk[..most]) {
            Err(Failed) => return Err(ReadStop::ReadFault),
            Ok(0) => return Ok(bytes),
            Ok(n) if n > room => return Err(ReadStop::TooLong),
            Ok(n) => bytes.extend_from_slice(&chunk[..n])?,
        }
    }
}
