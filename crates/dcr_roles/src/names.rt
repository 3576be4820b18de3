ghost use Rattle.std.specs.Prelude.{◌≡◌, [], true, false, None, slice_get, Some, IfOk, OnOk, MatchOption};
ghost use Rattle.dcr_graph.specs.IndexModel.{number_at};
ghost use Rattle.dcr_graph.specs.Names.{is_name};
ghost use Rattle.dcr_roles.specs.Numbering.{GoesOn, IsNumbering};

use crate::numbers::{Numbers, find, put};
use dcr_graph::{Name, NameStop};
use dcr_set::NoMemory;
use std::alloc::Global;
use std::collections::BTreeMap;

/// The roles that a file names, each once, and their numbers in the order in which they were first met.
#[derive(Drop)]
pub(crate) struct RoleNames<'v> {
    pub(crate) names: Vec<Name>,
    pub(crate) numbers: Numbers<'v>,
}

impl<'v> RoleNames<'v> {
    /// No role yet.
    pub(crate) fn new(alloc: Global) -> RoleNames<'v>
        ensures numbered { IsNumbering result.numbers result.names.items }
        ensures none { result.names.items ≡ [] }
    {
        RoleNames {
            names: Vec::new(alloc),
            numbers: BTreeMap::new(alloc),
        }
    }

    /// The number of the role with this name, which has one from now on. None exactly where the text is no name. After
    /// `NoMemory` nothing is known of the roles.
    pub(crate) fn number(&mut self, alloc: Global, text: &'v str) -> Result<Option<usize>, NoMemory>
        requires { IsNumbering self.old.numbers self.old.names.items }
        ensures numbered { OnOk result (IsNumbering self.new.numbers self.new.names.items) }
        ensures goes_on { OnOk result (GoesOn self.old.names.items self.new.names.items) }
        ensures number { IfOk result (λ found. MatchOption found (is_name text.now ≡ false) (λ number. slice_get self.new.names.items number ≡ Some text.now)) }
    {
        if let Some(number) = find(&self.numbers, text.as_bytes()) {
            return Ok(Some(number));
        }
        match Name::read(alloc, text) {
            Ok(name) => Ok(Some(self.add(name, text.as_bytes())?)),
            Err(NameStop::NotName) => Ok(None),
            Err(NameStop::NoMemory) => Err(NoMemory),
        }
    }

    // Gives the next number to a name, the text of which this is.
    fn add(&mut self, name: Name, text: &'v [u8]) -> Result<usize, NoMemory>
        requires numbered { IsNumbering self.old.numbers self.old.names.items }
        requires same { text.now ≡ name }
        requires named { is_name name ≡ true }
        requires new { number_at self.old.numbers text.now ≡ None }
        ensures numbered { OnOk result (IsNumbering self.new.numbers self.new.names.items) }
        ensures goes_on { OnOk result (GoesOn self.old.names.items self.new.names.items) }
        ensures number { IfOk result (λ number. slice_get self.new.names.items number ≡ Some text.now) }
    {
        let number = self.names.len();
        put(&mut self.numbers, text, number)?;
        self.names.push(name)?;
        Ok(number)
    }
}
