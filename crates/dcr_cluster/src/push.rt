// What is done under the journal's lock.
ghost use Rattle.std.specs.Prelude.{◌≡◌, [], ◌++◌};
ghost use Rattle.dcr_cell.specs.Asking.{sites_of};
ghost use Rattle.dcr_cluster.specs.Calls.{ending};
ghost use Rattle.dcr_cluster.specs.Entering.{Entered, MayEnter, Pushed};

use crate::Halt;
use dcr_base::Disk;
use dcr_cell::{Kept, StoreName};
use dcr_journal::{Call, Outcome};
use dcr_turn::{FrontRow, Pass, TurnGuard};

/// Lays the fronts beside the journal, makes the entry, and takes them back. What was found becomes what the call is told.
pub(crate) fn enter<D: Disk, N: StoreName<D>>(
    guard: &mut TurnGuard<'_, Kept<D, N>, N>,
    pass: &mut Pass<N>,
    fronts: &mut FrontRow<N>,
    call: &Call,
    found: &mut Outcome,
) -> Result<(), Halt>
    requires none { guard.old.enlisted ≡ [] }
    requires ready { MayEnter D.view D.faults N.cluster N.first N.capacity N.turn guard.old pass.old call.now found.old (sites_of fronts.old ++ guard.old.enlisted) }
    ensures { Entered D.view D.faults N.cluster N.first N.capacity N.turn guard.old guard.new pass.old pass.new fronts.old fronts.new call.now found.old (ending found.new result) }
{
    guard.enlist_row(fronts);
    let ended = push(guard, pass, call, found);
    guard.dismiss_row(fronts);
    ended
}

// Makes the one entry of the call: as it was found, or as a fault where the tape failed to keep the execution.
fn push<D: Disk, N: StoreName<D>>(
    guard: &mut TurnGuard<'_, Kept<D, N>, N>,
    pass: &mut Pass<N>,
    call: &Call,
    found: &mut Outcome,
) -> Result<(), Halt>
    requires { MayEnter D.view D.faults N.cluster N.first N.capacity N.turn guard.old pass.old call.now found.old guard.old.enlisted }
    ensures { Pushed D.view D.faults N.cluster N.first N.capacity guard.old guard.new pass.old pass.new call.now found.old (ending found.new result) }
{
    if guard.is_faulted() {
        return Err(Halt::Stopped {
            at: pass.seen() - 1,
        });
    }
    if guard.spare() == 0 {
        return Err(Halt::Full {
            capacity: pass.seen(),
        });
    }
    guard.kept().tell(call, found);
    guard.push(pass, *call, found);
    Ok(())
}
