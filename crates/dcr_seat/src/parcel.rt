ghost use Rattle.std.specs.Prelude.{◌≡◌, ◌+◌, ◌≤◌, ◌++◌, [], length, true, false, List, ℕ};
ghost use Rattle.std.specs.Io.KnownBytes.{Appends};
ghost use Rattle.dcr_base.specs.Count.{Fails};
ghost use Rattle.dcr_base.specs.Side.{Adds};

use arrayvec::ArrayVec;
use dcr_base::{Sink, write_all};
use std::marker::Model;

// How many bytes are sent by one write at most.
const MOST: usize = 4096;

/// Bytes that are sent by one write. Contracts see them.
#[derive(Drop)]
pub(crate) struct Parcel {
    bytes: ArrayVec<u8, MOST>,
}

impl Model for Parcel {
    ghost use Rattle.std.specs.Prelude.{ℕ, List};

    ghost Value = { List ℕ };

    ghost view = { λ parcel. parcel.bytes.items };
}

impl Parcel {
    /// No byte.
    pub(crate) fn new() -> Parcel
        ensures { result ≡ [] }
    {
        Parcel {
            bytes: ArrayVec::new(),
        }
    }

    /// Lays bytes behind the others.
    pub(crate) fn put(&mut self, bytes: &[u8])
        requires { length self.old + length bytes.now ≤ 4096 }
        ensures { self.new ≡ self.old ++ bytes.now }
    {
        let Ok(()) = self.bytes.try_extend_from_slice(bytes) else {
            unreachable!()
        };
    }

    /// Sends the bytes. Whether all of them were taken; else the sink failed, which took a front of them.
    pub(crate) fn send<O: Sink>(&self, sink: &mut O) -> bool
        ensures sent { result ≡ true → Adds self.now (O.takes sink.old) (O.takes sink.new) }
        ensures failed { result ≡ false → Fails (O.takes sink.old).faults (O.takes sink.new).faults }
        ensures front { (text : List ℕ) × Appends (O.takes sink.old).bytes (O.takes sink.new).bytes text }
        ensures apart { O.source_side sink.new ≡ O.source_side sink.old }
    {
        write_all(sink, self.bytes.as_slice()).is_ok()
    }
}
