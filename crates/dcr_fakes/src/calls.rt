ghost use Rattle.std.specs.Prelude.{◌≡◌, ◌≤◌, ◌↔◌, IsTrue};
ghost use Rattle.dcr_fakes.specs.CallLog.{no_calls, counted, faulted, FailsNext};

use dcr_base::Failed;
use std::marker::Model;

/// The calls that a fake has had, and which of all its calls fail. Contracts see the numbers of
/// those that fail, and two counts, which stop at their largest value.
#[derive(Drop)]
pub(crate) struct Calls {
    // Numbers of calls, counted from 1.
    failing: Vec<u32>,
    made: u64,
    faults: u64,
}

impl Model for Calls {
    ghost use Rattle.dcr_fakes.specs.CallLog.{CallLog};

    ghost Value = { CallLog };

    ghost use Rattle.dcr_fakes.specs.CallsModel.{log_of};

    ghost view = { log_of };
}

impl Calls {
    /// No call yet.
    pub(crate) fn new(failing: Vec<u32>) -> Calls
        ensures { result ≡ no_calls failing.items }
    {
        Calls {
            failing,
            made: 0,
            faults: 0,
        }
    }

    /// Counts a call, and answers whether it is one that fails.
    pub(crate) fn count(&mut self) -> bool
        ensures fails { IsTrue result ↔ FailsNext self.old }
        ensures counted { self.new ≡ counted self.old }
    {
        self.made = self.made.saturating_add(1);
        let number = self.made;
        self.failing.iter().any(|call| u64::from(*call) == number)
    }

    /// Counts a fault, and gives the answer of the call that failed.
    pub(crate) fn fault(&mut self) -> Failed
        ensures counted { self.new ≡ faulted self.old }
        ensures never_falls { self.old.faults ≤ self.new.faults }
    {
        self.faults = self.faults.saturating_add(1);
        Failed
    }
}
