ghost use Rattle.std.specs.Prelude.{◌≡◌, ◌↔◌, [], IsTrue, length, slice_get};
ghost use Rattle.std.specs.Option.{option_copied};

use crate::Call;
use dcr_graph::SiteMark;
use std::marker::Model;

/// A list of calls, as a session makes them. Contracts see the list.
#[derive(Drop)]
pub struct CallList {
    calls: Vec<Call>,
}

impl Model for CallList {
    ghost use Rattle.std.specs.Prelude.{List};
    ghost use Rattle.dcr_journal.specs.declared.call.Call.{Call};

    ghost Value = { List Call };

    ghost view = { λ l. l.calls.items };
}

impl CallList {
    /// The list of these calls. Takes no memory.
    pub fn new(calls: Vec<Call>) -> CallList
        ensures { result ≡ calls.items }
    {
        CallList { calls }
    }

    /// How many calls there are.
    pub fn len(&self) -> usize
        ensures { result ≡ length self.now }
    {
        self.calls.len()
    }

    /// Whether there are none.
    pub fn is_empty(&self) -> bool
        ensures { IsTrue result ↔ (self.now ≡ []) }
    {
        self.calls.is_empty()
    }

    /// The call at a place, from 0. None exactly where the place is not below the length.
    pub fn get(&self, i: usize) -> Option<&Call>
        ensures { option_copied result ≡ slice_get self.now i }
    {
        self.calls.get(i)
    }
}

/// The marks of the sites, in order. Contracts see the list.
#[derive(Drop)]
pub struct MarkList {
    marks: Vec<SiteMark>,
}

impl Model for MarkList {
    ghost use Rattle.std.specs.Prelude.{List};
    ghost use Rattle.dcr_graph.specs.declared.marking.SiteMark.{SiteMark};

    ghost Value = { List SiteMark };

    ghost view = { λ l. l.marks.items };
}

impl MarkList {
    /// The list of these marks. Takes no memory.
    pub fn new(marks: Vec<SiteMark>) -> MarkList
        ensures { result ≡ marks.items }
    {
        MarkList { marks }
    }

    /// How many marks there are.
    pub fn len(&self) -> usize
        ensures { result ≡ length self.now }
    {
        self.marks.len()
    }

    /// Whether there are none.
    pub fn is_empty(&self) -> bool
        ensures { IsTrue result ↔ (self.now ≡ []) }
    {
        self.marks.is_empty()
    }

    /// The marks at a place, from 0. None exactly where the place is not below the length.
    pub fn get(&self, i: usize) -> Option<&SiteMark>
        ensures { option_copied result ≡ slice_get self.now i }
    {
        self.marks.get(i)
    }
}
