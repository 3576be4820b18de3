// Lines of a few words, names and numbers. Nothing is added to a line for which memory ran out.
ghost use Rattle.std.specs.Prelude.{◌≡◌, ◌++◌, codes, decimal, List, ℕ, IfOk};

use dcr_graph::Name;
use dcr_set::NoMemory;
use dcr_text::decimal;
use std::alloc::Global;

/// A line, or that there was no memory for it.
pub(crate) type Line = Result<Vec<u8>, NoMemory>;

/// The line that these words are.
pub(crate) fn line(alloc: Global, words: &[u8]) -> Line
    ensures { IfOk result (λ line. line.items ≡ words.now) }
{
    and(Ok(Vec::new(alloc)), words)
}

/// A line, and these words behind it.
pub(crate) fn and(line: Line, words: &[u8]) -> Line
    ensures { (text : List ℕ) → IfOk line (λ line. line.items ≡ text) → IfOk result (λ line. line.items ≡ text ++ words.now) }
{
    let mut line = line?;
    line.extend_from_slice(words)?;
    Ok(line)
}

/// A line, and a number behind it.
pub(crate) fn and_number(line: Line, n: u32) -> Line
    ensures { (text : List ℕ) → IfOk line (λ line. line.items ≡ text) → IfOk result (λ line. line.items ≡ text ++ decimal n) }
{
    let mut line = line?;
    decimal(u64::from(n), &mut line)?;
    Ok(line)
}

/// A line, and a name behind it.
pub(crate) fn and_name(line: Line, name: &Name) -> Line
    ensures { (text : List ℕ) → IfOk line (λ line. line.items ≡ text) → IfOk result (λ line. line.items ≡ text ++ name.now) }
{
    and(line, name.text().as_bytes())
}

/// These words and a name.
pub(crate) fn named(alloc: Global, words: &[u8], name: &Name) -> Line
    ensures { IfOk result (λ line. line.items ≡ words.now ++ name.now ++ codes "\n") }
{
    and(and_name(line(alloc, words), name), b"\n")
}

/// These words and a number.
pub(crate) fn numbered(alloc: Global, words: &[u8], n: u32) -> Line
    ensures { IfOk result (λ line. line.items ≡ words.now ++ decimal n ++ codes "\n") }
{
    and(and_number(line(alloc, words), n), b"\n")
}

/// These words and two numbers.
pub(crate) fn numbered_twice(alloc: Global, words: &[u8], m: u32, n: u32) -> Line
    ensures { IfOk result (λ line. line.items ≡ words.now ++ decimal m ++ codes " " ++ decimal n ++ codes "\n") }
{
    let line = and(and_number(line(alloc, words), m), b" ");
    and(and_number(line, n), b"\n")
}

/// These words, a word and a number.
pub(crate) fn worded(alloc: Global, words: &[u8], word: &[u8], n: u32) -> Line
    ensures { IfOk result (λ line. line.items ≡ words.now ++ word.now ++ codes " " ++ decimal n ++ codes "\n") }
{
    let line = and(and(line(alloc, words), word), b" ");
    and(and_number(line, n), b"\n")
}

/// These words, a number and a word.
pub(crate) fn numbered_word(alloc: Global, words: &[u8], n: u32, word: &[u8]) -> Line
    ensures { IfOk result (λ line. line.items ≡ words.now ++ decimal n ++ codes " " ++ word.now ++ codes "\n") }
{
    let line = and(and_number(line(alloc, words), n), b" ");
    and(and(line, word), b"\n")
}
