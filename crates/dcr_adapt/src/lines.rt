// The lines of a text. The last is one only where it has a byte.
ghost use Rattle.std.specs.Prelude.{◌≡◌, ◌<◌, ◌^◌, ◌∷◌, length};
ghost use Rattle.dcr_adapt.specs.Stages.{line_texts};

use memchr::memchr;

/// How many lines there are.
pub(crate) fn count_lines(bytes: &[u8]) -> u32
    requires { length bytes.now < 2 ^ 32 }
    ensures { result ≡ length (line_texts bytes.now) }
{
    let mut rest = bytes;
    let mut count = 0;
    while !rest.is_empty() {
        rest = cut(rest).1;
        count += 1;
    }
    count
}

/// The first line of a text that has a byte, without its end, and what stands behind it.
pub(crate) fn cut(text: &[u8]) -> (&[u8], &[u8])
    requires { 0 < length text.now }
    ensures lines { line_texts text.now ≡ result.0.now ∷ line_texts result.1.now }
    ensures shorter { length result.1.now < length text.now }
{
    match memchr(b'\n', text) {
        Some(at) => (&text[..at], &text[at + 1..]),
        None => (text, &text[text.len()..]),
    }
}
