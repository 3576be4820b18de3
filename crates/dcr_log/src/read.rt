ghost use Rattle.std.specs.Prelude.{◌≡◌, ◌<◌, ◌+◌, ◌^◌, ℕ, [], ◌∷◌, true, false, codes, drop, length, vec_len, option_map, slice_get, None, if◌then◌else◌, IfOk, IfErr, OnOk, IsSome};
ghost use Rattle.std.specs.List.{All};
ghost use Rattle.std.specs.Option.{option_and_then, unwrap_or};
ghost use Rattle.std.specs.Str.{is_utf8};
ghost use Rattle.csv.specs.Reading.{expected_len};
ghost use Rattle.csv.specs.Records.{fields_of};
ghost use Rattle.dcr_log.specs.Records.{Record, records_of, has_field, is_header, is_event, first_bad_behind, first_bad, TellsBad};
ghost use Rattle.dcr_log.specs.Traces.{name_in, event_in, traces_of};
ghost use Rattle.dcr_log.specs.Left.{left_of, IsGoing, HasRead, TellsUneven, stop_by};
ghost use Rattle.dcr_log.specs.Gathered.{with_event, IsGathering};
ghost use Rattle.dcr_log.specs.declared.trace.Trace.{Trace};

use crate::gathering::Gathering;
use crate::{LogStop, Trace};
use csv::{ByteRecord, ErrorKind, Reader, ReaderBuilder};
use dcr_set::NoMemory;
use std::alloc::Global;
use std::str;

/// The traces of a log, in order of first appearance, each with the events of its records in order. `Bad` comes exactly
/// where a record is bad, with the first one's number, the header being record 0; a log without records is bad at 0.
/// `NoMemory` may come in the place of any answer.
///
/// The log is a table of CSV, of fewer than 2^32 bytes, whose first record begins with the fields `case` and `event`. Each
/// later one has as many fields, and begins with the name of a trace and the text of an event. What stands in further
/// fields is passed over; a byte order mark at the start and empty lines are no records.
pub fn read_log(alloc: Global, bytes: &[u8]) -> Result<Vec<Trace>, LogStop>
    requires { length bytes.now < 2 ^ 32 }
    ensures good { OnOk result (first_bad (records_of bytes.now) ≡ None) }
    ensures traces { IfOk result (λ traces.
        traces.items ≡ traces_of (drop 1 (records_of bytes.now))) }
    ensures few { IfOk result (λ traces. vec_len traces < 2 ^ 32) }
    ensures short { IfOk result (λ traces.
        All (λ (trace : Trace). length trace.events < 2 ^ 32) traces.items) }
    ensures bad { IfErr result (TellsBad (first_bad (records_of bytes.now))) }
{
    let mut reader = ReaderBuilder::new()
        .has_headers(false)
        .from_reader(alloc, bytes);
    let mut fields = ByteRecord::new(alloc);
    read_header(&mut reader, &mut fields)?;
    read_events(alloc, &mut reader, &mut fields)
}

// Reads the header.
fn read_header(reader: &mut Reader<&[u8]>, fields: &mut ByteRecord) -> Result<(), LogStop>
    requires going { IsGoing reader.old }
    requires first { expected_len reader.old ≡ None }
    ensures read { OnOk result ((header : Record) × HasRead reader.old reader.new header × (is_header header ≡ true)) }
    ensures bad { IfErr result (TellsBad (first_bad (left_of reader.old))) }
{
    let found = read_next(reader, fields, 0)?;
    if found && spells_header(fields) {
        return Ok(());
    }
    Err(LogStop::Bad { row: 0 })
}

// Reads the records behind the header, of which the last record was read.
fn read_events(
    alloc: Global,
    reader: &mut Reader<&[u8]>,
    fields: &mut ByteRecord,
) -> Result<Vec<Trace>, LogStop>
    requires going { IsGoing reader.old }
    requires header { IsSome (expected_len reader.old) }
    requires few { length (left_of reader.old) + 1 < 2 ^ 32 }
    ensures good { OnOk result
        (first_bad_behind (unwrap_or (expected_len reader.old) 0) (left_of reader.old) ≡ None) }
    ensures traces { IfOk result (λ traces. traces.items ≡ traces_of (left_of reader.old)) }
    ensures bad { IfErr result (TellsBad (option_map (λ k. k + 1)
        (first_bad_behind (unwrap_or (expected_len reader.old) 0) (left_of reader.old)))) }
{
    let mut gathering = Gathering::new(alloc)?;
    let mut count: u32 = 0;
    while read_next(reader, fields, count + 1)? {
        if !take_event(alloc, fields, &mut gathering)? {
            return Err(LogStop::Bad { row: count + 1 });
        }
        count += 1;
    }
    Ok(gathering.traces)
}

// Adds the event of a record to its trace, and answers whether the record tells one.
fn take_event(
    alloc: Global,
    fields: &ByteRecord,
    gathering: &mut Gathering,
) -> Result<bool, NoMemory>
    requires { IsGathering gathering.old }
    ensures told { IfOk result (λ told. told ≡ is_event (fields_of fields.now)) }
    ensures gathers { IfOk result (λ told. told ≡ true → IsGathering gathering.new) }
    ensures added { IfOk result (λ told. told ≡ true → gathering.new.traces.items
        ≡ with_event gathering.old.traces.items (name_in (fields_of fields.now)) (event_in (fields_of fields.now))) }
{
    let Some(name) = field(fields, 0) else {
        return Ok(false);
    };
    let Some(event) = event_text(fields) else {
        return Ok(false);
    };
    gathering.add(alloc, name, event)
}

// Reads the next record, and answers whether there was one. `Bad` with its number where it has another number of fields
// than those before it.
fn read_next(
    reader: &mut Reader<&[u8]>,
    fields: &mut ByteRecord,
    number: u32,
) -> Result<bool, LogStop>
    requires { IsGoing reader.old }
    ensures found { IfOk result (λ found. found ≡ true → HasRead reader.old reader.new (fields_of fields.new)) }
    ensures none { IfOk result (λ found. found ≡ false → left_of reader.old ≡ []) }
    ensures uneven { IfErr result (TellsUneven number (expected_len reader.old) (left_of reader.old)) }
{
    match reader.read_byte_record(fields) {
        Ok(found) => Ok(found),
        Err(error) => Err(stop_of(error.kind(), number)),
    }
}

// What an error of the reader stops with. Bytes in memory can be read, so that memory alone is wanting where it isn't the
// number of fields.
fn stop_of(kind: &ErrorKind, number: u32) -> LogStop
    ensures { result ≡ stop_by number kind.now }
{
    match kind {
        ErrorKind::UnequalLengths { .. } => LogStop::Bad { row: number },
        _ => LogStop::NoMemory,
    }
}

// Whether a record begins as the header does.
#[tactic(auto, unfolding(crate::specs::Records::is_header))]
fn spells_header(fields: &ByteRecord) -> bool
    ensures { result ≡ is_header (fields_of fields.now) }
{
    is_field(fields, 0, b"case") && is_field(fields, 1, b"event")
}

// Whether the field at a place is there, and is this text.
fn is_field(fields: &ByteRecord, place: usize, text: &[u8]) -> bool
    ensures { result ≡ has_field (fields_of fields.now) place text.now }
{
    match field(fields, place) {
        Some(found) => found == text,
        None => false,
    }
}

// The text of an event that a record has behind the name.
fn event_text(fields: &ByteRecord) -> Option<&str>
    ensures { option_map (λ text. text.now) result
        ≡ option_and_then (λ bytes. if is_utf8 bytes then Some bytes else None) (slice_get (fields_of fields.now) 1) }
{
    str::from_utf8(field(fields, 1)?).ok()
}

// The field at a place.
fn field(fields: &ByteRecord, place: usize) -> Option<&[u8]>
    ensures { option_map (λ bytes. bytes.now) result ≡ slice_get (fields_of fields.now) place }
{
    fields.get(place)
}
