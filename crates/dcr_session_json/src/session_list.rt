ghost use Rattle.std.specs.Prelude.{◌≡◌, ◌↔◌, [], IsTrue, length, option_map, slice_get};

use dcr_journal::CallList;
use std::marker::Model;

/// The sessions of a case, each the list of its calls, numbered from 0. Contracts see the list of these lists.
#[derive(Drop)]
pub struct SessionList {
    sessions: Vec<CallList>,
}

impl Model for SessionList {
    ghost use Rattle.std.specs.Prelude.{List};
    ghost use Rattle.dcr_journal.specs.declared.call.Call.{Call};

    ghost Value = { List (List Call) };

    ghost view = { λ l. l.sessions.items };
}

impl SessionList {
    /// The list of these sessions. Takes no memory.
    pub fn new(sessions: Vec<CallList>) -> SessionList
        ensures { result ≡ sessions.items }
    {
        SessionList { sessions }
    }

    /// How many sessions there are.
    pub fn len(&self) -> usize
        ensures { result ≡ length self.now }
    {
        self.sessions.len()
    }

    /// Whether there are none.
    pub fn is_empty(&self) -> bool
        ensures { IsTrue result ↔ (self.now ≡ []) }
    {
        self.sessions.is_empty()
    }

    /// The calls of the session with this number. None exactly where the number is not below the length.
    pub fn get(&self, i: usize) -> Option<&CallList>
        ensures { option_map (λ calls. calls.now) result ≡ slice_get self.now i }
    {
        self.sessions.get(i)
    }

    /// All sessions.
    pub fn all(&self) -> &[CallList]
        ensures { result.now ≡ self.now }
    {
        &self.sessions
    }
}
