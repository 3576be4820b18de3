ghost use Rattle.std.specs.Prelude.{◌≡◌, ◌≢◌, IfOk, IfSome, IsErrOf, MatchBool};
ghost use Rattle.dcr_part.specs.PartOf.{IsPartOf};
ghost use Rattle.dcr_part.specs.Read.{AreFields, FitFields, IsFound};
ghost use Rattle.dcr_part.specs.Whole.{Whole, IsWhole, part_of, part_text};

use crate::fields::{Fields, fields_in};
use crate::graph::graph_of;
use crate::names::{are_distinct, are_names_of};
use crate::write::written;
use crate::{PartHead, PartStop};
use dcr_graph::Name;
use dcr_proj::project;
use dcr_set::NoMemory;
use dcr_site::Site;
use std::alloc::Global;

/// A site's part of a case, as it was read: whose it is, what the events that it hears of are called, and the site itself,
/// which stands at the opening.
#[derive(Drop)]
pub struct Part {
    /// The digest of the case, and the site's number and name.
    pub head: PartHead,
    /// At the number of each atom of the case its name, where it is of the site's alphabet.
    pub names: Vec<Option<Name>>,
    /// The site at the opening.
    pub site: Site,
}

/// The part that the bytes are the text of. `NotAPart` exactly where they are the text of no case's part, byte for byte.
/// What is read is the part of every case within the limits that has this text: they are alike at the site. `NoMemory` may
/// come in the place of any answer.
pub fn read_part(alloc: Global, bytes: &[u8]) -> Result<Part, PartStop>
    ensures some_case { IfOk result (λ part. (W : Whole) × IsWhole W × (bytes.now ≡ part_text W) × IsPartOf W part) }
    ensures each_case { IfOk result (λ part. (W : Whole) → IsWhole W → bytes.now ≡ part_text W → IsPartOf W part) }
    ensures not_a_part { IsErrOf result PartStop.NotAPart → (W : Whole) → IsWhole W → bytes.now ≢ part_text W }
{
    let Some(part) = part_in(alloc, bytes)? else {
        return Err(PartStop::NotAPart);
    };
    Ok(part)
}

// The same, or none.
fn part_in(alloc: Global, bytes: &[u8]) -> Result<Option<Part>, NoMemory>
    ensures some_case { IfOk result (λ found. IfSome found (λ part. (W : Whole) × IsWhole W × (bytes.now ≡ part_text W) × IsPartOf W part)) }
    ensures each_case { IfOk result (λ found. (W : Whole) → IsWhole W → bytes.now ≡ part_text W → IsFound found (IsPartOf W)) }
{
    let Some(fields) = fields_in(alloc, bytes)? else {
        return Ok(None);
    };
    part_from(alloc, fields, bytes)
}

// The part that these fields make, where the bytes are its text.
fn part_from(alloc: Global, fields: Fields, bytes: &[u8]) -> Result<Option<Part>, NoMemory>
    requires { FitFields fields }
    ensures some_case { IfOk result (λ found. IfSome found (λ part. (W : Whole) × IsWhole W × (bytes.now ≡ part_text W) × IsPartOf W part)) }
    ensures each_case { IfOk result (λ found. (W : Whole) → IsWhole W → AreFields (part_of W) fields → bytes.now ≡ part_text W → IsFound found (IsPartOf W)) }
{
    let Fields {
        head,
        own,
        names,
        tables,
        opening,
    } = fields;
    let Some(graph) = graph_of(alloc, tables, own.room())? else {
        return Ok(None);
    };
    let projection = project(alloc, &graph, &own)?;
    if !are_names_of(&names, projection.alphabet()) {
        return Ok(None);
    }
    if !are_distinct(&names) {
        return Ok(None);
    }
    let _name = head.name.text();
    let mark = projection.start(&opening);
    let text = written(alloc, &head, &graph, &projection, &names, &mark)?;
    if !are_same(text.as_slice(), bytes) {
        return Ok(None);
    }
    let site = Site::open(projection, &opening);
    Ok(Some(Part { head, names, site }))
}

// Whether the text has these bytes.
fn are_same(text: &[u8], bytes: &[u8]) -> bool
    ensures { MatchBool result (bytes.now ≡ text.now) (bytes.now ≢ text.now) }
{
    text == bytes
}
