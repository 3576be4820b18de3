ghost use Rattle.std.specs.Prelude.{◌≡◌, Some};
ghost use Rattle.dcr_replay.specs.Words.{word_of};

use std::fmt;

/// What a text is found to be.
#[derive(Clone, Copy, Debug, PartialEq, Eq)]
pub enum Verdict {
    /// The report of a legal history with so many entries.
    Valid { entries: u32 },
    /// No such report: the first wrong line, counted from 1, and what it should have been.
    Invalid { line: u32, kind: Wrong },
}

/// What is expected in the place of a wrong line.
#[derive(Clone, Copy, Debug, PartialEq, Eq)]
pub enum Wrong {
    /// The version.
    Head,
    /// A graph that is accepted.
    Graph,
    /// A cover of the graph that is accepted.
    Cover,
    /// The opening marking.
    Opening,
    /// The next entry.
    Entry,
    /// The next entry with the answer to its call.
    Outcome,
    /// The marks of the next site.
    Site,
    /// Whether the marking after the history is accepting.
    Verdict,
    /// The number of entries.
    End,
    /// Nothing more.
    Extra,
}

impl Wrong {
    /// The word that it is printed as.
    pub fn word(self) -> &'static str
        ensures { result.now ≡ word_of self }
    {
        match self {
            Wrong::Head => "head",
            Wrong::Graph => "graph",
            Wrong::Cover => "cover",
            Wrong::Opening => "open",
            Wrong::Entry => "entry",
            Wrong::Outcome => "outcome",
            Wrong::Site => "site",
            Wrong::Verdict => "verdict",
            Wrong::End => "end",
            Wrong::Extra => "extra",
        }
    }
}

impl fmt::Display for Wrong {
    ghost output = { λ kind. Some (word_of kind) };

    fn fmt<W: fmt::Write>(&self, f: &mut fmt::Formatter<W>) -> fmt::Result {
        f.write_str(self.word())
    }
}
