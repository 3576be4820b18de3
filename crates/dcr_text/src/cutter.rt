ghost use Rattle.std.specs.Prelude.{◌≡◌, ◌<◌, ◌≤◌, ◌+◌, ◌++◌, [], true, false, length, take, get_or, IfOk};
ghost use Rattle.dcr_text.specs.Cutting.{Cuts, HasNoEnd, begun, without_return};
ghost use Rattle.dcr_text.specs.CutterModel.{is_line, is_long};

use dcr_set::NoMemory;
use memchr::memchr;
use std::alloc::Global;
use std::marker::Model;

/// What a cutter made of a piece.
#[derive(Clone, Copy, Debug, PartialEq, Eq)]
pub enum Cut {
    /// The piece ended before its line did.
    More,
    /// A line was cut off.
    Line,
    /// The line has more bytes than a line may have. It stays so.
    TooLong,
}

/// Cuts bytes that come piece by piece into lines, of at most so many bytes each. The lines are the same however the bytes
/// come. Contracts see that number, the bytes since the last line end, and whether they are a line or too many: the line
/// stays until the next piece comes.
#[derive(Drop)]
pub struct LineCutter {
    limit: usize,
    bytes: Vec<u8>,
    last: Cut,
}

impl Model for LineCutter {
    ghost use Rattle.dcr_text.specs.Cutting.{Cutter};

    ghost Value = { Cutter };

    ghost use Rattle.dcr_text.specs.CutterModel.{cutter_of, HasRoom};

    ghost view = { cutter_of };

    ghost invariant = { HasRoom };
}

impl LineCutter {
    /// For lines of at most so many bytes before their line ends, a carriage return among them. All its memory is taken
    /// here, one byte for each of `limit`; where it can't be had the answer is `NoMemory`.
    pub fn new(alloc: Global, limit: usize) -> Result<LineCutter, NoMemory>
        ensures { IfOk result (λ cutter. cutter ≡ record { limit = limit; bytes = []; is_line = false; is_long = false }) }
    {
        let bytes = Vec::with_capacity(alloc, limit)?;
        Ok(LineCutter {
            limit,
            bytes,
            last: Cut::More,
        })
    }

    /// Takes bytes of the piece, from its front, up to the first line end, and answers how many were used and what comes
    /// of them: `Line` exactly where a line end was reached with at most so many bytes before it, `TooLong` exactly where
    /// one byte more has none, and `More` exactly where the piece ended first. Once it was `TooLong` it uses nothing and
    /// answers the same. Takes no memory.
    pub fn take(&mut self, piece: &[u8]) -> (usize, Cut)
        ensures { Cuts self.old piece.now result.0 result.1 self.new }
    {
        if self.is_too_long() {
            return (0, Cut::TooLong);
        }
        let room = self.begin();
        let end = line_end(piece);
        if end > room {
            self.give_up();
            return (room + 1, Cut::TooLong);
        }
        if end == piece.len() {
            self.add(piece, Cut::More);
            return (end, Cut::More);
        }
        self.add(&piece[..end], Cut::Line);
        (end + 1, Cut::Line)
    }

    /// The line that was cut off by the last piece, without its line end and without one carriage return before that.
    pub fn line(&self) -> &[u8]
        requires { self.now.is_line ≡ true }
        ensures { result.now ≡ without_return self.now.bytes }
    {
        let bytes = self.bytes.as_slice();
        match bytes.last() {
            Some(b'\r') => &bytes[..bytes.len() - 1],
            _ => bytes,
        }
    }

    // Whether the line has too many bytes.
    fn is_too_long(&self) -> bool
        ensures { result ≡ self.now.is_long }
    {
        matches!(self.last, Cut::TooLong)
    }

    // Forgets a line that was cut off, and answers for how many bytes more there is room.
    fn begin(&mut self) -> usize
        requires { self.old.is_long ≡ false }
        ensures begun { self.new ≡ record { limit = self.old.limit; bytes = begun self.old; is_line = false; is_long = false } }
        ensures room { result + length (begun self.old) ≡ self.old.limit }
    {
        if let Cut::Line = self.last {
            self.bytes.clear();
        }
        self.last = Cut::More;
        self.limit - self.bytes.len()
    }

    // Adds bytes for which there is room, with what comes of the piece.
    fn add(&mut self, bytes: &[u8], cut: Cut)
        requires { length self.old.bytes + length bytes.now ≤ self.old.limit }
        ensures { self.new ≡ record { limit = self.old.limit; bytes = self.old.bytes ++ bytes.now; is_line = is_line cut; is_long = is_long cut } }
    {
        let Ok(()) = self.bytes.extend_from_slice(bytes) else {
            unreachable!()
        };
        self.last = cut;
    }

    // From here on the line is too long.
    fn give_up(&mut self)
        ensures { self.new ≡ record self.old { is_line = false; is_long = true } }
    {
        self.last = Cut::TooLong;
    }
}

// The place of the first line end, or the length where there is none.
fn line_end(piece: &[u8]) -> usize
    ensures within { result ≤ length piece.now }
    ensures no_end { HasNoEnd (take result piece.now) }
    ensures stands { result < length piece.now → get_or piece.now result 0 ≡ 10 }
{
    match memchr(b'\n', piece) {
        Some(end) => end,
        None => piece.len(),
    }
}
