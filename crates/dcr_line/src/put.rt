// The words of lines, added to a text. Where memory runs out, what was added stays: the callers take it away.
ghost use Rattle.std.specs.Prelude.{◌≡◌, ◌<◌, ◌++◌, length, drop, codes, decimal, OnOk};
ghost use Rattle.dcr_set.specs.EventSet.{numbers_from};
ghost use Rattle.dcr_graph.specs.Names.{comma_names};
ghost use Rattle.dcr_graph.specs.Projection.{FitsAtoms};
ghost use Rattle.dcr_journal.specs.Run.{IsInRange};
ghost use Rattle.dcr_line.specs.Line.{call_text, list_text, mark_text, outcome_text};
ghost use Rattle.dcr_line.specs.Fits.{FitsOutcome};
ghost use Rattle.dcr_line.specs.Grown.{StartsWith};

use dcr_graph::{Graph, Name};
use dcr_journal::{Call, Outcome};
use dcr_proj::Cover;
use dcr_set::{EventSet, NoMemory};
use dcr_text::decimal;

/// Adds these bytes.
pub(crate) fn put(text: &[u8], out: &mut Vec<u8>) -> Result<(), NoMemory>
    ensures added { OnOk result (out.new.items ≡ out.old.items ++ text.now) }
    ensures kept { StartsWith out.old.items out.new.items }
{
    out.extend_from_slice(text)?;
    Ok(())
}

/// Adds a number and a space.
pub(crate) fn put_number(n: u32, out: &mut Vec<u8>) -> Result<(), NoMemory>
    ensures added { OnOk result (out.new.items ≡ out.old.items ++ (decimal n ++ codes " ")) }
    ensures kept { StartsWith out.old.items out.new.items }
{
    decimal(u64::from(n), out)?;
    put_space(out)
}

/// Adds a word and a name behind it.
pub(crate) fn put_named(word: &[u8], name: &Name, out: &mut Vec<u8>) -> Result<(), NoMemory>
    ensures added { OnOk result (out.new.items ≡ out.old.items ++ (word.now ++ name.now)) }
    ensures kept { StartsWith out.old.items out.new.items }
{
    put(word, out)?;
    put(name.text().as_bytes(), out)
}

/// Adds a word and the list of a set behind it: its events run by run, the first run without the comma before it.
fn put_list(word: &[u8], set: &EventSet, graph: &Graph, out: &mut Vec<u8>) -> Result<(), NoMemory>
    requires { length set.now ≡ length graph.now.names }
    ensures added { OnOk result (out.new.items
        ≡ out.old.items ++ (word.now ++ list_text graph.now.names set.now)) }
    ensures kept { StartsWith out.old.items out.new.items }
{
    put(word, out)?;
    match set.first() {
        None => put(b"-", out),
        Some(first) => {
            let end = set.first_missing_from(first.0);
            put(behind_first(graph.names_from(first, end)), out)?;
            put_runs(set, end, graph, out)
        }
    }
}

// What stands behind the first byte of a text.
fn behind_first(text: &[u8]) -> &[u8]
    requires { 0 < length text.now }
    ensures { result.now ≡ drop 1 text.now }
{
    &text[1..]
}

/// Adds the names of the events from this number on, each behind a comma: those of a run in one piece.
fn put_runs(set: &EventSet, from: u16, graph: &Graph, out: &mut Vec<u8>) -> Result<(), NoMemory>
    requires { length set.now ≡ length graph.now.names }
    ensures added { OnOk result (out.new.items
        ≡ out.old.items ++ comma_names graph.now.names (numbers_from set.now from)) }
    ensures kept { StartsWith out.old.items out.new.items }
{
    let mut next = from;
    while let Some(first) = set.first_from(next) {
        next = set.first_missing_from(first.0);
        put(graph.names_from(first, next), out)?;
    }
    Ok(())
}

/// Adds a space: one byte, without a copy of a slice.
pub(crate) fn put_space(out: &mut Vec<u8>) -> Result<(), NoMemory>
    ensures added { OnOk result (out.new.items ≡ out.old.items ++ codes " ") }
    ensures kept { StartsWith out.old.items out.new.items }
{
    out.push(b' ')?;
    Ok(())
}

/// Adds the three sets of a marking, each behind its word.
pub(crate) fn put_sets(
    executed: &EventSet,
    pending: &EventSet,
    included: &EventSet,
    graph: &Graph,
    out: &mut Vec<u8>,
) -> Result<(), NoMemory>
    requires { FitsAtoms (length graph.now.names) executed.now pending.now included.now }
    ensures added { OnOk result (out.new.items
        ≡ out.old.items ++ mark_text graph.now.names executed.now pending.now included.now) }
    ensures kept { StartsWith out.old.items out.new.items }
{
    put_list(b"executed ", executed, graph, out)?;
    put_list(b" pending ", pending, graph, out)?;
    put_list(b" included ", included, graph, out)
}

/// Adds a call.
pub(crate) fn put_call(
    call: &Call,
    graph: &Graph,
    cover: &Cover,
    out: &mut Vec<u8>,
) -> Result<(), NoMemory>
    requires { IsInRange (length cover.now.names) (length graph.now.names) call.now }
    ensures added { OnOk result (out.new.items
        ≡ out.old.items ++ call_text cover.now.names graph.now.names call.now) }
    ensures kept { StartsWith out.old.items out.new.items }
{
    match *call {
        Call::Exec(i, e) => {
            put_named(b"exec ", cover.name(i), out)?;
            put_named(b" ", graph.name(e), out)
        }
        Call::Look(i) => put_named(b"look ", cover.name(i), out),
        Call::Enabled(i) => put_named(b"enabled ", cover.name(i), out),
        Call::Accepting => put(b"accepting", out),
    }
}

/// Adds an outcome.
pub(crate) fn put_outcome(
    outcome: &Outcome,
    graph: &Graph,
    out: &mut Vec<u8>,
) -> Result<(), NoMemory>
    requires { FitsOutcome (length graph.now.names) outcome.now }
    ensures added { OnOk result (out.new.items
        ≡ out.old.items ++ outcome_text graph.now.names outcome.now) }
    ensures kept { StartsWith out.old.items out.new.items }
{
    match outcome {
        Outcome::Done => put(b"done", out),
        Outcome::NotHere => put(b"not-here", out),
        Outcome::Excluded => put(b"excluded", out),
        Outcome::Condition(e) => put_named(b"condition ", graph.name(*e), out),
        Outcome::Milestone(e) => put_named(b"milestone ", graph.name(*e), out),
        Outcome::Faulted => put(b"faulted", out),
        Outcome::Marks(mark) => {
            put_sets(&mark.executed, &mark.pending, &mark.included, graph, out)
        }
        Outcome::Can(set) => put_list(b"can ", set, graph, out),
        Outcome::AllDone => put(b"yes", out),
        Outcome::Waits(e) => put_named(b"waits ", graph.name(*e), out),
    }
}
