ghost use Rattle.std.specs.Prelude.{◌≡◌, ◌<◌, ◌≤◌, length, Some, Err, IfOk};
ghost use Rattle.serde_json.specs.View.{view};
ghost use Rattle.dcr_format.specs.Size.{size};
ghost use Rattle.dcr_format.specs.Facts.{Judges, first};
ghost use Rattle.dcr_json.specs.Built.{case_of, IsCase};
ghost use Rattle.dcr_json.specs.Case.{case_in, file_in, value_in};
ghost use Rattle.dcr_json.specs.Facts.{case_facts, shape_facts};
ghost use Rattle.dcr_json.specs.Refusing.{Says};
ghost use Rattle.dcr_json.specs.Written.{spelled_in, written_in};

use crate::Case;
use crate::file::FileText;
use dcr_format::{CaseStop, read_json};
use serde_json::Value;
use std::alloc::Global;

// The most bytes of a case file.
const MAX_BYTES: usize = 16_777_216;

/// The case that the bytes of a file spell, or the first refusal that holds of them, as the definition says
/// it, both ways. `NoMemory` may come in the place of any answer but `TooLong`, which takes no memory.
#[tactic(auto, unfolding(crate::specs::Case::case_in))]
pub fn read_case(alloc: Global, bytes: &[u8]) -> Result<Case, CaseStop>
    ensures says { Says case_of result (case_in bytes.now) }
    ensures fits { IfOk result IsCase }
    ensures too_long { 16777216 < length bytes.now → result ≡ Err CaseStop.TooLong }
{
    let value = read_file(alloc, bytes)?;
    let case = read_value(alloc, &value)?;
    Ok(case)
}

/// The JSON value that the bytes of a file are: its size is at most their number. `TooLong` and `NotJson` exactly where
/// the definition refuses them so. `NoMemory` may come in the place of any answer but `TooLong`, which takes no memory.
#[tactic(auto, unfolding(crate::specs::Case::file_in))]
pub fn read_file(alloc: Global, bytes: &[u8]) -> Result<Value, CaseStop>
    ensures says { Says view result (file_in bytes.now) }
    ensures small { IfOk result (λ value. size (view value) ≤ 16777216) }
    ensures too_long { 16777216 < length bytes.now → result ≡ Err CaseStop.TooLong }
{
    if bytes.len() > MAX_BYTES {
        return Err(CaseStop::TooLong);
    }
    let Some(value) = read_json(alloc, bytes)? else {
        return Err(CaseStop::NotJson);
    };
    Ok(value)
}

/// The case that the JSON value of a file spells, or the first refusal of the facts of a case file: the shape of each
/// member, then the limits of each, and then what it is built of. Its shape is tried without memory; `NoMemory` may come
/// in the place of any other answer.
pub fn read_value(alloc: Global, value: &Value) -> Result<Case, CaseStop>
    requires { size (view value.now) ≤ 16777216 }
    ensures facts { Judges (first (case_facts (view value.now))) result }
    ensures case { IfOk result (λ case. case_of case ≡ spelled_in (written_in (view value.now))) }
    ensures says { Says case_of result (value_in (view value.now)) }
    ensures fits { IfOk result IsCase }
    ensures misshapen { (stop : CaseStop) → first (shape_facts (view value.now)) ≡ Some stop → result ≡ Err stop }
{
    let file = FileText::shape(value)?;
    file.limits(alloc)?;
    let case = file.build(alloc)?;
    Ok(case)
}
