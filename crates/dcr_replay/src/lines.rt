// The lines of a text, from the first on.
ghost use Rattle.std.specs.Prelude.{◌≡◌, IsTrue, IsNone, ◌↔◌, [], drop, option_map, slice_get, Some, None};
ghost use Rattle.dcr_text.specs.Lines.{line_of, lines_of, whole, says};
ghost use Rattle.dcr_replay.specs.HeadLines.{behind};
ghost use Rattle.dcr_replay.specs.EntryLines.{begins_with_digit};

use memchr::memchr;
use std::marker::Model;

/// A line: the bytes up to a line end, or those behind the last line end, which are a line without its end.
#[derive(Clone, Copy)]
pub(crate) struct Line<'a> {
    pub text: &'a [u8],
    pub ended: bool,
}

impl<'a> Line<'a> {
    /// The text of a line that has its end.
    pub(crate) fn whole(self) -> Option<&'a [u8]>
        ensures { option_map (λ text. text.now) result ≡ whole (line_of self.entry.text.now self.entry.ended) }
    {
        if self.ended { Some(self.text) } else { None }
    }

    /// Whether the line has its end and is this text.
    pub(crate) fn says(self, text: &[u8]) -> bool
        ensures { result ≡ says text.now (line_of self.entry.text.now self.entry.ended) }
    {
        self.ended && self.text == text
    }

    /// Whether the line is taken as an entry.
    pub(crate) fn begins_with_digit(self) -> bool
        ensures { result ≡ begins_with_digit self.entry.text.now }
    {
        match self.text {
            [] => false,
            [first, ..] => *first >= b'0' && *first <= b'9',
        }
    }
}

/// What is behind a word that the text begins with.
pub(crate) fn behind<'a>(text: &'a [u8], word: &[u8]) -> Option<&'a [u8]>
    ensures { option_map (λ rest. rest.now) result ≡ behind word.now text.now }
{
    if !text.starts_with(word) {
        return None;
    }
    Some(&text[word.len()..])
}

/// The lines of a text that are still to come. Contracts see their list.
#[derive(Drop)]
pub(crate) struct Lines<'a> {
    // The first of them, cut once. None: none is left.
    line: Option<Line<'a>>,
    // What is behind it.
    rest: &'a [u8],
}

impl<'a> Model for Lines<'a> {
    ghost use Rattle.std.specs.Prelude.{List};
    ghost use Rattle.dcr_text.specs.Lines.{Line};

    ghost Value = { List Line };

    ghost use Rattle.dcr_replay.specs.LinesModel.{lines_left};

    ghost view = { lines_left };
}

impl<'a> Lines<'a> {
    /// All lines of the text.
    pub(crate) fn of(text: &'a [u8]) -> Lines<'a>
        ensures { result ≡ lines_of text.now }
    {
        if text.is_empty() {
            return Lines {
                line: None,
                rest: text,
            };
        }
        match memchr(b'\n', text) {
            Some(at) => Lines {
                line: Some(Line {
                    text: &text[..at],
                    ended: true,
                }),
                rest: &text[at + 1..],
            },
            None => Lines {
                line: Some(Line { text, ended: false }),
                rest: &text[text.len()..],
            },
        }
    }

    /// The first line, which is not taken. None exactly where no line is left.
    pub(crate) fn first(&self) -> Option<Line<'a>>
        ensures { option_map (λ line. line_of line.text.now line.ended) result ≡ slice_get self.now 0 }
    {
        self.line
    }

    /// Takes the first line, where there is one.
    pub(crate) fn pass(&mut self)
        ensures { self.new ≡ drop 1 self.old }
    {
        if self.line.is_some() {
            *self = Lines::of(self.rest);
        }
    }
}
