// What stands in a text that may be a part.
ghost use Rattle.std.specs.Prelude.{◌≡◌, ◌<◌, ℕ, List, Some, length, IfOk, IfSome};
ghost use Rattle.serde_json.specs.View.{view};
ghost use Rattle.hex.specs.Hex.{encode_lower, IsBytes};
ghost use Rattle.dcr_part.specs.PartText.{part_value, told_text};
ghost use Rattle.dcr_part.specs.Read.{AreFields, FitFields, IsFound, IsTold};
ghost use Rattle.dcr_part.specs.Told.{Told};

use crate::PartHead;
use crate::alphabet::{read_alphabet, read_name};
use crate::numbers::{member_number, read_opening};
use crate::tables::read_tables;
use dcr_format::{member_text, read_json};
use dcr_graph::{Marking, Name, Table};
use dcr_set::{EventSet, MAX_ATOMS, NoMemory, SiteId};
use hex::FromHex;
use serde_json::Value;
use std::alloc::Global;

/// How many sites a case may have.
const MAX_SITES: u16 = 64;

/// What is written in a text, each part by itself. That the text is a part is another matter.
#[derive(Drop)]
pub(crate) struct Fields {
    pub(crate) head: PartHead,
    pub(crate) own: EventSet,
    pub(crate) names: Vec<Option<Name>>,
    pub(crate) tables: Vec<Table>,
    pub(crate) opening: Marking,
}

/// What is written in the bytes of a text. Where they are the text of what is told, that is found.
pub(crate) fn fields_in(alloc: Global, bytes: &[u8]) -> Result<Option<Fields>, NoMemory>
    ensures fit { IfOk result (λ found. IfSome found FitFields) }
    ensures read { (P : Told) → IsTold P → bytes.now ≡ told_text P → IfOk result (λ found. IsFound found (AreFields P)) }
{
    let Some((_, line)) = bytes.split_last() else {
        return Ok(None);
    };
    let Some(value) = read_json(alloc, line)? else {
        return Ok(None);
    };
    read_fields(alloc, &value)
}

// The same of the JSON value of the line.
fn read_fields(alloc: Global, value: &Value) -> Result<Option<Fields>, NoMemory>
    ensures fit { IfOk result (λ found. IfSome found FitFields) }
    ensures read { (P : Told) → IsTold P → view value.now ≡ part_value P → IfOk result (λ found. IsFound found (AreFields P)) }
{
    let Some(atoms) = member_number(value, "atoms", MAX_ATOMS + 1) else {
        return Ok(None);
    };
    let Some(head) = read_head(alloc, value)? else {
        return Ok(None);
    };
    let Some(alphabet) = read_alphabet(alloc, value, atoms)? else {
        return Ok(None);
    };
    let Some(tables) = read_tables(alloc, value, atoms)? else {
        return Ok(None);
    };
    let Some(opening) = read_opening(value, atoms) else {
        return Ok(None);
    };
    Ok(Some(Fields {
        head,
        own: alphabet.own,
        names: alphabet.names,
        tables,
        opening,
    }))
}

// Whose part it is.
fn read_head(alloc: Global, value: &Value) -> Result<Option<PartHead>, NoMemory>
    ensures digest { IfOk result (λ found. IfSome found (λ head. (length head.digest ≡ 32) × IsBytes head.digest)) }
    ensures site { IfOk result (λ found. IfSome found (λ head. head.site < 64)) }
    ensures read { (P : Told) → IsTold P → view value.now ≡ part_value P → IfOk result (λ found. found ≡ Some P.head) }
{
    let Some(digits) = member_text(value, "digest") else {
        return Ok(None);
    };
    let Some(digest) = read_digest(digits) else {
        return Ok(None);
    };
    let Some(site) = member_number(value, "number", MAX_SITES) else {
        return Ok(None);
    };
    let Some(text) = member_text(value, "site") else {
        return Ok(None);
    };
    let Some(name) = read_name(alloc, text)? else {
        return Ok(None);
    };
    Ok(Some(PartHead {
        digest,
        site: SiteId(site),
        name,
    }))
}

// The bytes that a text of 64 hex digits writes.
fn read_digest(text: &str) -> Option<[u8; 32]>
    ensures bytes { IfSome result (λ digest. (length digest ≡ 32) × IsBytes digest) }
    ensures read { (digest : List ℕ) → length digest ≡ 32 → IsBytes digest → text.now ≡ encode_lower digest → result ≡ Some digest }
{
    <[u8; 32] as FromHex>::from_hex(text).ok()
}
