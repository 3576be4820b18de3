ghost use Rattle.std.specs.Prelude.{◌≡◌, ◌<◌, ◌++◌, length, OnOk, OnErr};
ghost use Rattle.dcr_graph.specs.Projection.{FitsAtoms};
ghost use Rattle.dcr_journal.specs.Run.{IsInRange};
ghost use Rattle.dcr_line.specs.Line.{call_text, entry_text, mark_text, name_of};
ghost use Rattle.dcr_line.specs.Fits.{FitsEntry};
ghost use Rattle.dcr_line.specs.Grown.{StartsWith};

use crate::put::{put_call, put_number, put_outcome, put_sets, put_space};
use dcr_graph::{Graph, Marking, SiteMark};
use dcr_journal::{Call, Entry};
use dcr_proj::Cover;
use dcr_set::{EventId, NoMemory};

/// Adds the text of a call to `out`, without a line end: its word, and the names of its site and its event
/// where it has them. The site and the event are ones that there are. Where memory runs out, `out` is as it
/// was.
pub fn write_call(
    call: &Call,
    graph: &Graph,
    cover: &Cover,
    out: &mut Vec<u8>,
) -> Result<(), NoMemory>
    requires { IsInRange (length cover.now.names) (length graph.now.names) call.now }
    ensures added { OnOk result (out.new.items
        ≡ out.old.items ++ call_text cover.now.names graph.now.names call.now) }
    ensures unchanged { OnErr result (out.new.items ≡ out.old.items) }
{
    let start = out.len();
    let written = put_call(call, graph, cover, out);
    if written.is_err() {
        out.truncate(start);
    }
    written
}

/// Adds the name of an atom to `out`. Where memory runs out, `out` is as it was.
pub fn write_event(e: EventId, graph: &Graph, out: &mut Vec<u8>) -> Result<(), NoMemory>
    requires { e < length graph.now.names }
    ensures added { OnOk result (out.new.items ≡ out.old.items ++ name_of graph.now.names e) }
    ensures unchanged { OnErr result (out.new.items ≡ out.old.items) }
{
    out.extend_from_slice(graph.name(e).text().as_bytes())?;
    Ok(())
}

/// Adds the text of a site's marks to `out`, without a line end: the names of the executed, the pending and
/// the included atoms, ascending by their numbers, `-` for none. The room of each set is the number of
/// atoms. Where memory runs out, `out` is as it was.
pub fn write_mark(mark: &SiteMark, graph: &Graph, out: &mut Vec<u8>) -> Result<(), NoMemory>
    requires { FitsAtoms (length graph.now.names)
        mark.now.executed mark.now.pending mark.now.included }
    ensures added { OnOk result (out.new.items ≡ out.old.items
        ++ mark_text graph.now.names mark.now.executed mark.now.pending mark.now.included) }
    ensures unchanged { OnErr result (out.new.items ≡ out.old.items) }
{
    let start = out.len();
    let written = put_sets(&mark.executed, &mark.pending, &mark.included, graph, out);
    if written.is_err() {
        out.truncate(start);
    }
    written
}

/// Adds the text of a whole marking to `out`, in the form of a site's marks. The room of each set is the
/// number of atoms. Where memory runs out, `out` is as it was.
pub fn write_marking(marking: &Marking, graph: &Graph, out: &mut Vec<u8>) -> Result<(), NoMemory>
    requires { FitsAtoms (length graph.now.names)
        marking.now.executed marking.now.pending marking.now.included }
    ensures added { OnOk result (out.new.items ≡ out.old.items
        ++ mark_text graph.now.names marking.now.executed marking.now.pending marking.now.included) }
    ensures unchanged { OnErr result (out.new.items ≡ out.old.items) }
{
    let start = out.len();
    let written = put_sets(
        &marking.executed,
        &marking.pending,
        &marking.included,
        graph,
        out,
    );
    if written.is_err() {
        out.truncate(start);
    }
    written
}

/// Adds the text of an entry of the journal to `out`, without a line end: its place, its session, how many
/// calls the session had made before, the call and the outcome. The numbers in it are those of sites and
/// atoms that there are, and the outcome is of its call's kind. Where memory runs out, `out` is as it was.
pub fn write_entry(
    place: u32,
    entry: &Entry,
    graph: &Graph,
    cover: &Cover,
    out: &mut Vec<u8>,
) -> Result<(), NoMemory>
    requires { FitsEntry (length cover.now.names) (length graph.now.names) entry.now }
    ensures added { OnOk result (out.new.items
        ≡ out.old.items ++ entry_text cover.now.names graph.now.names place entry.now) }
    ensures unchanged { OnErr result (out.new.items ≡ out.old.items) }
{
    let start = out.len();
    let written = put_entry(place, entry, graph, cover, out);
    if written.is_err() {
        out.truncate(start);
    }
    written
}

// As `write_entry`, but for what is left where memory runs out.
fn put_entry(
    place: u32,
    entry: &Entry,
    graph: &Graph,
    cover: &Cover,
    out: &mut Vec<u8>,
) -> Result<(), NoMemory>
    requires { FitsEntry (length cover.now.names) (length graph.now.names) entry.now }
    ensures added { OnOk result (out.new.items
        ≡ out.old.items ++ entry_text cover.now.names graph.now.names place entry.now) }
    ensures kept { StartsWith out.old.items out.new.items }
{
    put_number(place, out)?;
    put_number(entry.session, out)?;
    put_number(entry.seq, out)?;
    put_call(&entry.call, graph, cover, out)?;
    put_space(out)?;
    put_outcome(&entry.outcome, graph, out)
}
