ghost use Rattle.std.specs.Prelude.{◌≡◌, ◌+◌, ◌-◌, ◌<◌, ◌≤◌, ◌++◌, ℕ, length, drop, IsTrue, IfOk, OnOk, IsErr};
ghost use Rattle.dcr_base.specs.Count.{CountsFault};
ghost use Rattle.dcr_base.specs.Disk.{DiskView, Stays, Writes, Wrote, Durable, bytes_at};

use crate::Failed;

/// Where bytes are kept: a file. Its answers are those of one content, which stays but for what is written, and
/// which each call that succeeds tells. `Failed` comes when the outside fails.
pub trait Disk {
    /// The content, and what a crash may leave of it.
    ghost view: { Self → DiskView };

    /// How many calls have failed.
    ghost faults: { Self → ℕ };

    /// How many bytes there are.
    fn len(&mut self) -> Result<u64, Failed>
        ensures length { IfOk result (λ n. IsTrue (view self.new).told
            × (n ≡ length (view self.new).content)) }
        ensures stays { Stays (view self.old) (view self.new) }
        ensures counts { CountsFault result (faults self.old) (faults self.new) };

    /// Moves the bytes from `at` on into the front of `buf`, and answers how many: as many as `buf` and the content
    /// from there on both have.
    fn read(&mut self, at: u64, buf: &mut [u8]) -> Result<usize, Failed>
        ensures read { IfOk result (λ n. IsTrue (view self.new).told
            × (n ≡ length (bytes_at (view self.new).content at (length buf.old)))
            × (buf.new ≡ bytes_at (view self.new).content at (length buf.old) ++ drop n buf.old)) }
        ensures stays { Stays (view self.old) (view self.new) }
        ensures counts { CountsFault result (faults self.old) (faults self.new) };

    /// Writes over what is there, and behind the end. A write that begins behind the end fails. One that fails may
    /// have left any bytes where it would have written.
    fn write_at(&mut self, at: u64, bytes: &[u8]) -> Result<(), Failed>
        ensures wrote { OnOk result (Wrote at bytes.now (view self.old) (view self.new)) }
        ensures writes { Writes at bytes.now (view self.old) (view self.new) }
        ensures counts { CountsFault result (faults self.old) (faults self.new) };

    /// After it a crash leaves what a read gives.
    fn sync(&mut self) -> Result<(), Failed>
        ensures durable { OnOk result (Durable (view self.new)) }
        ensures stays { Stays (view self.old) (view self.new) }
        ensures counts { CountsFault result (faults self.old) (faults self.new) };
}
