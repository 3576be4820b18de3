ghost use Rattle.std.specs.Prelude.{◌≡◌, ◌≤◌, length, option_map, IfOk, IfSome};
ghost use Rattle.serde_json.specs.View.{view};
ghost use Rattle.dcr_format.specs.SizeLaws.{json_in};
ghost use Rattle.dcr_format.specs.Size.{size};

use dcr_set::NoMemory;
use serde_json::Value;
use std::alloc::Global;

/// The most bytes of a canonical text: those of a cover of 64 sites, each of which owns 1,024 atoms, where all names
/// have 64 bytes. The text of a graph within the limits is shorter.
pub const MAX_BYTES: usize = 4_396_481;

// That is just how long the text of a cover can be: 64 sites, each with its name and those of 1,024 atoms, all of 64 bytes.
const _: () = prove!(MAX_BYTES == 64 * (11 + 1_024 * 67 - 1 + 10 + 64 + 2) + 63 + 2);

/// The JSON value that the bytes are: its size is at most their number. None exactly where they are none.
/// `NoMemory` where memory could not be had.
pub fn read_json(alloc: Global, bytes: &[u8]) -> Result<Option<Value>, NoMemory>
    ensures json { IfOk result (λ found. option_map view found ≡ json_in bytes.now) }
    ensures size { IfOk result (λ found. IfSome found (λ value. size (view value) ≤ length bytes.now)) }
{
    match Value::from_slice(alloc, bytes) {
        Ok(value) => Ok(Some(value)),
        Err(error) => {
            if error.is_memory() {
                return Err(NoMemory);
            }
            Ok(None)
        }
    }
}
