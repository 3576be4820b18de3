// The report of a run.
ghost use Rattle.std.specs.Prelude.{◌≡◌, IsTrue};
ghost use Rattle.dcr_json.specs.Built.{IsCase};
ghost use Rattle.dcr_report.specs.Report.{report_text};
ghost use Rattle.dcr_app.specs.Outside.{Wrote};
ghost use Rattle.dcr_app.specs.Stored.{IsRunOn};

use dcr_base::{Sink, Status};
use dcr_journal::Closed;
use dcr_json::Case;
use dcr_report::{ReportStop, write_report_by_threads};
use std::alloc::Global;
use std::thread::Threads;

/// Writes the report of a run, which is due with this status.
pub(crate) fn report<O: Sink, R: Threads + Sync>(
    rt: &R,
    alloc: Global,
    case: &Case,
    closed: &Closed,
    due: Status,
    output: &mut O,
) -> Status
    requires case { IsCase case.now }
    requires run { IsRunOn case.now.graph case.now.cover.owned closed.now }
    ensures { Wrote due (report_text case.now.nested case.now.cover closed.now.opening closed.now.history.entries) result
        (O.takes output.old) (O.takes output.new) }
{
    match write_report_by_threads(
        rt,
        alloc,
        &case.nested,
        &case.graph,
        &case.cover,
        closed,
        output,
    ) {
        Ok(()) => due,
        Err(ReportStop::WriteFault) => Status::WriteFault,
        Err(ReportStop::NoMemory) => Status::NoMemory,
    }
}

/// The same of sessions of which one may have wanted memory. Then nothing is written.
pub(crate) fn report_unless<O: Sink, R: Threads + Sync>(
    rt: &R,
    alloc: Global,
    no_memory: bool,
    case: &Case,
    closed: &Closed,
    due: Status,
    output: &mut O,
) -> Status
    requires case { IsCase case.now }
    requires run { IsRunOn case.now.graph case.now.cover.owned closed.now }
    ensures wrote { Wrote due (report_text case.now.nested case.now.cover closed.now.opening closed.now.history.entries) result
        (O.takes output.old) (O.takes output.new) }
    ensures wanted { IsTrue no_memory → result ≡ Status.NoMemory }
{
    if no_memory {
        return Status::NoMemory;
    }
    report(rt, alloc, case, closed, due, output)
}
