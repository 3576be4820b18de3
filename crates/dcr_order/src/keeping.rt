ghost use Rattle.std.specs.Prelude.{◌≡◌, ◌++◌, ◌∷◌, [], List};
ghost use Rattle.dcr_journal.specs.declared.call.Call.TheVariants.{Exec};
ghost use Rattle.dcr_journal.specs.declared.call.Outcome.TheVariants.{Done};
ghost use Rattle.dcr_journal.specs.declared.call.Entry.{Entry};
ghost use Rattle.dcr_journal.specs.Run.{HasNoFault};
ghost use Rattle.dcr_cell.specs.Keeping.{IsToldAs, kept_as};
ghost use Rattle.dcr_cell.specs.Stored.{CanKeep, StoreStands};

use dcr_base::Disk;
use dcr_cell::StoreName;
use dcr_set::{EventId, SiteId};
use dcr_tape::{DiskFault, Store, TapeEntry};

/// Whether an execution is kept: it is put on the tape, where there is one. Where that fails the tape is stopped. Takes no memory.
pub(crate) fn keep<D: Disk, N: StoreName<D>>(
    store: &mut Store<D>,
    site: SiteId,
    event: EventId,
) -> bool
    requires { CanKeep store.old }
    ensures told { (J : List Entry) → StoreStands D.view D.faults N.first N.cluster.old J store.old → IsToldAs N.first Done (kept_as result) }
    ensures kept { (J : List Entry) (entry : Entry) → StoreStands D.view D.faults N.first N.cluster.old J store.old → HasNoFault J
        → entry.call ≡ Exec site event → entry.outcome ≡ kept_as result
        → StoreStands D.view D.faults N.first N.cluster.old (J ++ entry ∷ []) store.new }
{
    let tape = match store {
        Store::Off(_) => return true,
        Store::On(tape) => tape,
    };
    let entry = TapeEntry {
        event: event.0,
        site: site.0,
    };
    match tape.append(entry) {
        Ok(()) => true,
        Err(DiskFault) => false,
    }
}
