// The lines behind the entries, each without its end.
ghost use Rattle.std.specs.Prelude.{◌≡◌, ◌<◌, ◌++◌, codes, decimal, length, OnOk, OnErr};
ghost use Rattle.std.specs.Option.{ForSome};
ghost use Rattle.dcr_graph.specs.Projection.{FitsAtoms};
ghost use Rattle.dcr_line.specs.Grown.{StartsWith};
ghost use Rattle.dcr_report.specs.Report.{site_text, verdict_text};

use dcr_graph::{Graph, Name, SiteMark};
use dcr_line::{write_event, write_mark};
use dcr_set::{EventId, NoMemory};
use dcr_text::decimal;

/// Adds the line of a site to `out`, without its end: the site's name and its marks. The room of each set is
/// the number of atoms. Where memory runs out, `out` is as it was.
pub fn write_site(
    site: &Name,
    mark: &SiteMark,
    graph: &Graph,
    out: &mut Vec<u8>,
) -> Result<(), NoMemory>
    requires { FitsAtoms (length graph.now.names)
        mark.now.executed mark.now.pending mark.now.included }
    ensures added { OnOk result (out.new.items
        ≡ out.old.items ++ site_text graph.now.names site.now mark.now) }
    ensures unchanged { OnErr result (out.new.items ≡ out.old.items) }
{
    let start = out.len();
    let written = put_site(site, mark, graph, out);
    if written.is_err() {
        out.truncate(start);
    }
    written
}

// As `write_site`, but for what is left where memory runs out.
fn put_site(site: &Name, mark: &SiteMark, graph: &Graph, out: &mut Vec<u8>) -> Result<(), NoMemory>
    requires { FitsAtoms (length graph.now.names)
        mark.now.executed mark.now.pending mark.now.included }
    ensures added { OnOk result (out.new.items
        ≡ out.old.items ++ site_text graph.now.names site.now mark.now) }
    ensures kept { StartsWith out.old.items out.new.items }
{
    out.extend_from_slice(b"site ")?;
    out.extend_from_slice(site.text().as_bytes())?;
    out.push(b' ')?;
    write_mark(mark, graph, out)
}

/// Adds the line of the verdict to `out`, without its end: accepting where nothing is waited for, else the
/// atom that is. Where memory runs out, `out` is as it was.
pub fn write_verdict(
    waits: Option<EventId>,
    graph: &Graph,
    out: &mut Vec<u8>,
) -> Result<(), NoMemory>
    requires { ForSome waits (λ e. e < length graph.now.names) }
    ensures added { OnOk result (out.new.items ≡ out.old.items ++ verdict_text graph.now.names waits) }
    ensures unchanged { OnErr result (out.new.items ≡ out.old.items) }
{
    let start = out.len();
    let written = put_verdict(waits, graph, out);
    if written.is_err() {
        out.truncate(start);
    }
    written
}

// As `write_verdict`, but for what is left where memory runs out.
fn put_verdict(waits: Option<EventId>, graph: &Graph, out: &mut Vec<u8>) -> Result<(), NoMemory>
    requires { ForSome waits (λ e. e < length graph.now.names) }
    ensures added { OnOk result (out.new.items ≡ out.old.items ++ verdict_text graph.now.names waits) }
    ensures kept { StartsWith out.old.items out.new.items }
{
    let Some(e) = waits else {
        out.extend_from_slice(b"verdict accepting")?;
        return Ok(());
    };
    out.extend_from_slice(b"verdict waits ")?;
    write_event(e, graph, out)
}

/// Adds the last line to `out`, without its end: how many entries there are. Where memory runs out, `out` is
/// as it was.
pub fn write_end(count: u32, out: &mut Vec<u8>) -> Result<(), NoMemory>
    ensures added { OnOk result (out.new.items ≡ out.old.items ++ (codes "end " ++ decimal count)) }
    ensures unchanged { OnErr result (out.new.items ≡ out.old.items) }
{
    let start = out.len();
    let written = put_end(count, out);
    if written.is_err() {
        out.truncate(start);
    }
    written
}

// As `write_end`, but for what is left where memory runs out.
fn put_end(count: u32, out: &mut Vec<u8>) -> Result<(), NoMemory>
    ensures added { OnOk result (out.new.items ≡ out.old.items ++ (codes "end " ++ decimal count)) }
    ensures kept { StartsWith out.old.items out.new.items }
{
    out.extend_from_slice(b"end ")?;
    decimal(u64::from(count), out)
}
