ghost use Rattle.std.specs.Prelude.{◌≡◌, ◌-◌, ◌≤◌, length, take, drop, vec_len, IfOk};
ghost use Rattle.dcr_set.specs.declared.id.TheConstants.{MAX_ATOMS};

use crate::Name;
use dcr_set::NoMemory;
use std::alloc::Global;
use std::marker::Model;

/// The names of a graph's atoms in order, and their text joined, each behind a comma: so the names of atoms that follow
/// one another are one piece of it, and a list of them is written without a walk over them. Contracts see the names.
#[derive(Drop)]
pub struct AtomNames {
    names: Vec<Name>,
    joined: Vec<u8>,
    // Where each name's comma stands in the text, and last where the text ends.
    starts: Vec<u32>,
}

impl Model for AtomNames {
    ghost use Rattle.std.specs.Prelude.{List, ℕ};

    ghost Value = { List (List ℕ) };

    ghost use Rattle.dcr_graph.specs.AtomNamesModel.{names_in, IsJoined};

    ghost view = { names_in };

    ghost invariant = { IsJoined };
}

impl AtomNames {
    ghost use Rattle.std.specs.Prelude.{◌<◌, slice_index_or, []};
    ghost use Rattle.std.specs.List.{range_with_len};
    ghost use Rattle.dcr_graph.specs.Names.{comma_names};

    /// These names. `NoMemory` where memory could not be had.
    pub fn new(alloc: Global, names: Vec<Name>) -> Result<AtomNames, NoMemory>
        requires { vec_len names ≤ MAX_ATOMS }
        ensures { IfOk result (λ all. all ≡ names.items) }
    {
        let mut joined = Vec::new(alloc);
        let mut starts = Vec::with_capacity(alloc, names.len() + 1)?;
        starts.push(0)?;
        for i in 0..names.len() {
            joined.push(b',')?;
            joined.extend_from_slice(names[i].text().as_bytes())?;
            starts.push(joined.len() as u32)?;
        }
        Ok(AtomNames {
            names,
            joined,
            starts,
        })
    }

    /// How many names there are.
    pub(crate) fn count(&self) -> u16
        ensures count { result ≡ length self.now }
        ensures most { length self.now ≤ MAX_ATOMS }
    {
        self.names.len() as u16
    }

    /// The name under a number.
    pub(crate) fn name(&self, number: u16) -> &Name
        requires { number < length self.now }
        ensures { result.now ≡ slice_index_or self.now number [] }
    {
        &self.names[usize::from(number)]
    }

    /// The names from one number on and before another, each behind a comma.
    pub(crate) fn run(&self, from: u16, to: u16) -> &[u8]
        requires from { from ≤ to }
        requires to { to ≤ length self.now }
        ensures { result.now ≡ comma_names self.now (range_with_len from (to - from)) }
    {
        let start = self.starts[usize::from(from)] as usize;
        let end = self.starts[usize::from(to)] as usize;
        piece(&self.joined, start, end)
    }
}

// A text from one place on and before another.
fn piece(text: &[u8], start: usize, end: usize) -> &[u8]
    requires up { start ≤ end }
    requires within { end ≤ length text.now }
    ensures { result.now ≡ take (end - start) (drop start text.now) }
{
    &text[start..end]
}
