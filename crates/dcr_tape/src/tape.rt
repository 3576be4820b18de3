ghost use Rattle.std.specs.Prelude.{◌≡◌, ◌⊎◌, ◌+◌, ◌^◌, ◌<◌, ◌≤◌, ◌++◌, [], ◌∷◌, true, false, length, List, is_none, IsTrue, OnOk, OnErr};
ghost use Rattle.std.specs.Option.{ForSome};
ghost use Rattle.dcr_base.specs.Count.{CountsFault};
ghost use Rattle.dcr_base.specs.Disk.{IsSteady, LeavesOnly};
ghost use Rattle.dcr_tape.specs.Tape.{StandsFor, payload_bytes};

use crate::durable::write_durably;
use crate::{DiskFault, TapeEntry};
use dcr_base::Disk;

/// The entries that a tape may have at most.
pub const MAX_EXECUTIONS: u32 = 1_200_000;

// How many bytes stand before the records of a part.
pub(crate) const HEADER: u64 = 64;

/// The executions of a case on a disk, which its content stands for (`TapeHolds`, `StandsFor`). It is stopped once a call of
/// the disk has failed. Contracts see the disk, the part in force, the number of entries, and, of a tape that isn't
/// renewed, its entries.
#[derive(Drop)]
pub struct Tape<D> {
    pub(crate) disk: D,
    // Where the part in force begins.
    pub(crate) start: u64,
    pub(crate) digest: [u8; 32],
    pub(crate) count: u32,
    // Of a part of width 8 its entries, for its renewal.
    pub(crate) unrenewed: Option<Vec<TapeEntry>>,
    pub(crate) stopped: bool,
    ghost near: { start ≤ 2 ^ 62 },
    ghost within: { count ≤ 1200000 },
    ghost as_many: { ForSome unrenewed (λ entries. length entries.items ≡ count) },
}

impl<D: Disk> Tape<D> {
    ghost use Rattle.dcr_tape.specs.Kept.{TapeHolds};

    /// Puts an entry on the tape: a write of the record, a sync, a write of its gate, a sync; takes no memory. The tape
    /// is renewed, not stopped, and has fewer than 1,200,000 entries.
    ///
    /// After Ok each image that a crash may leave has the entry. `DiskFault` comes where a call of the disk failed; the
    /// tape is then stopped, and whether it has the entry shows when it is opened again. A crash at any moment leaves
    /// the entries from before, with the new one or without it.
    pub fn append(&mut self, entry: TapeEntry) -> Result<(), DiskFault>
        requires running { self.old.stopped ≡ false }
        requires renewed { IsTrue (is_none self.old.unrenewed) }
        requires room { self.old.count < MAX_EXECUTIONS }

        ensures kept { (E : List TapeEntry) → TapeHolds D.view self.old E
            → OnOk result (TapeHolds D.view self.new (E ++ entry ∷ [])) }
        ensures any_moment { (E : List TapeEntry) → TapeHolds D.view self.old E
            → IsSteady (D.view self.old.disk)
            → LeavesOnly (D.view self.old.disk) (D.view self.new.disk)
            (λ c. StandsFor self.old.digest E c ⊎ StandsFor self.old.digest (E ++ entry ∷ []) c) }
        ensures steady { (E : List TapeEntry) → TapeHolds D.view self.old E
            → IsSteady (D.view self.old.disk) → OnOk result (IsSteady (D.view self.new.disk)) }

        ensures counted { OnOk result (self.new.count ≡ self.old.count + 1) }
        ensures running { OnOk result (self.new.stopped ≡ false) }
        ensures stopped { OnErr result (self.new.stopped ≡ true) }
        ensures same { (self.new.digest ≡ self.old.digest) × (self.new.unrenewed ≡ self.old.unrenewed) }
        ensures faults { CountsFault result (D.faults self.old.disk) (D.faults self.new.disk) }
    {
        self.stopped = true;
        let gate = self.start + HEADER + 12 * u64::from(self.count);
        let behind = payload(entry, self.count);
        write_durably(&mut self.disk, gate + 1, &behind)?;
        write_durably(&mut self.disk, gate, &[1])?;
        self.count += 1;
        self.stopped = false;
        Ok(())
    }

    /// Whether a call of the disk has failed. Nothing more is put on a tape that is stopped.
    pub fn stopped(&self) -> bool
        ensures { result ≡ self.now.stopped }
    {
        self.stopped
    }

    /// Whether the records are 12 bytes wide.
    pub fn renewed(&self) -> bool
        ensures { result ≡ is_none self.now.unrenewed }
    {
        self.unrenewed.is_none()
    }

    /// How many entries the tape has.
    pub fn entries(&self) -> u32
        ensures { result ≡ self.now.count }
    {
        self.count
    }

    /// The disk, as the last call left it.
    pub fn into_disk(self) -> D
        ensures { result ≡ self.disk }
    {
        self.disk
    }
}

// What is written of a record before its gate is opened: all but its gate, and the gate behind it, which is shut.
pub(crate) fn payload(entry: TapeEntry, number: u32) -> [u8; 12]
    ensures { result ≡ payload_bytes number entry }
{
    let [e1, e2] = entry.event.to_be_bytes();
    let [s1, s2] = entry.site.to_be_bytes();
    let [n1, n2, n3, n4] = number.to_be_bytes();
    [e1, e2, s1, s2, n1, n2, n3, n4, 0, 0, 0, 0]
}

/// Where a run keeps its executions: on a tape, or nowhere; the disk is then not called.
#[derive(Drop)]
pub enum Store<D> {
    /// No tape.
    Off(D),
    /// A tape.
    On(Tape<D>),
}
