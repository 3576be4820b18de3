// What the texts of the table spell. In a text `~n` is a line end, `~xHH` a byte, `~{NAME}` a piece that was named before,

// and what stands between two back quotes is repeated: `3,TEXT` three times with commas between, `3*TEXT` with nothing
// between, where each `#` in TEXT is the number of the copy, counted from 0, or from 7 in `3+7,TEXT`.
ghost use Rattle.std.specs.Prelude.{◌<◌, IfOk};

use dcr_text::{decimal, read_decimal};
use std::alloc::Global;
use std::io;
use std::io::ErrorKind;

// A named piece.
#[derive(Drop)]
struct Piece {
    name: String,
    bytes: Vec<u8>,
}

// The named pieces of a table.
#[derive(Drop)]
pub(crate) struct Pieces {
    named: Vec<Piece>,
}

pub(crate) fn wrong() -> io::Error {
    io::Error::from(ErrorKind::InvalidData)
}

impl Pieces {
    pub(crate) fn new(alloc: Global) -> Pieces {
        Pieces {
            named: Vec::new(alloc),
        }
    }

    // Adds what the text spells to the end of the piece of this name, which begins empty.
    pub(crate) fn add(&mut self, alloc: Global, name: &str, text: &str) -> io::Result<()> {
        let mut bytes = Vec::new(alloc);
        self.spell(alloc, text, &mut bytes)?;
        for piece in self.named.iter_mut() {
            if piece.name.as_str() == name {
                piece.bytes.extend_from_slice(&bytes)?;
                return Ok(());
            }
        }
        let name = String::from_str(alloc, name)?;
        self.named.push(Piece { name, bytes })?;
        Ok(())
    }

    fn find(&self, name: &str) -> io::Result<&[u8]> {
        for piece in self.named.iter() {
            if piece.name.as_str() == name {
                return Ok(piece.bytes.as_slice());
            }
        }
        Err(wrong())
    }

    // Adds what the text spells to the end of these bytes.
    pub(crate) fn spell(&self, alloc: Global, text: &str, to: &mut Vec<u8>) -> io::Result<()> {
        let mut is_repeated = false;
        for part in text.split('`') {
            if is_repeated {
                self.spell_copies(alloc, part, to)?;
            } else {
                self.spell_once(part, to)?;
            }
            is_repeated = !is_repeated;
        }
        Ok(())
    }

    // The same, and a line end.
    pub(crate) fn spell_line(&self, alloc: Global, text: &str, to: &mut Vec<u8>) -> io::Result<()> {
        self.spell(alloc, text, to)?;
        to.push(b'\n')?;
        Ok(())
    }

    // A text in which nothing is repeated.
    fn spell_once(&self, text: &str, to: &mut Vec<u8>) -> io::Result<()> {
        let mut parts = text.split('~');
        to.extend_from_slice(parts.next().unwrap_or("").as_bytes())?;
        for part in parts {
            if let Some(rest) = part.strip_prefix("n") {
                to.push(b'\n')?;
                to.extend_from_slice(rest.as_bytes())?;
            } else if let Some(rest) = part.strip_prefix("x") {
                let [high, low, rest @ ..] = rest.as_bytes() else {
                    return Err(wrong());
                };
                to.push(16 * digit(*high)? + digit(*low)?)?;
                to.extend_from_slice(rest)?;
            } else if let Some((name, rest)) = part.split_once('}') {
                to.extend_from_slice(self.find(name.strip_prefix("{").unwrap_or(""))?)?;
                to.extend_from_slice(rest.as_bytes())?;
            } else {
                return Err(wrong());
            }
        }
        Ok(())
    }

    // So many copies of a text.
    fn spell_copies(&self, alloc: Global, text: &str, to: &mut Vec<u8>) -> io::Result<()> {
        let (first, count, between, text) = match counted(text, '*') {
            Some((first, count, text)) => (first, count, "", text),
            None => match counted(text, ',') {
                Some((first, count, text)) => (first, count, ",", text),
                None => return Err(wrong()),
            },
        };
        let mut piece = Vec::new(alloc);
        self.spell_once(text, &mut piece)?;
        if between.is_empty() && !piece.contains(&b'#') {
            to.extend_from_slice(&piece.repeat(alloc, count)?)?;
            return Ok(());
        }
        for number in 0..count {
            if number > 0 {
                to.extend_from_slice(between.as_bytes())?;
            }
            push_numbered(&piece, first.saturating_add(number as u64), to)?;
        }
        Ok(())
    }
}

// The first number, how many there are, and the text behind this character.
fn counted(text: &str, mark: char) -> Option<(u64, usize, &str)> {
    let (count, text) = text.split_once(mark)?;
    let (count, first) = count.split_once('+').unwrap_or((count, "0"));
    let first = read_decimal(first.as_bytes())?;
    let count = usize::try_from(read_decimal(count.as_bytes())?).ok()?;
    Some((first, count, text))
}

// The bytes with this number in the place of each `#`.
fn push_numbered(piece: &[u8], number: u64, to: &mut Vec<u8>) -> io::Result<()> {
    for byte in piece {
        if *byte == b'#' {
            if decimal(number, to).is_err() {
                return Err(io::Error::from(ErrorKind::OutOfMemory));
            }
        } else {
            to.push(*byte)?;
        }
    }
    Ok(())
}

// The value of a digit of base 16.
fn digit(byte: u8) -> io::Result<u8>
    ensures { IfOk result (λ value. value < 16) }
{
    match byte {
        b'0'..=b'9' => Ok(byte - b'0'),
        b'a'..=b'f' => Ok(byte - b'a' + 10),
        _ => Err(wrong()),
    }
}
