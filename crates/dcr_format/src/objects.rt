ghost use Rattle.std.specs.Prelude.{◌≡◌, option_map, OnOk};
ghost use Rattle.serde_json.specs.Data.{boolean, string};
ghost use Rattle.serde_json.specs.View.{members_view};
ghost use Rattle.dcr_format.specs.Objects.{with_entry};

use dcr_set::NoMemory;
use serde_json::{Map, Value};
use std::alloc::Global;

/// Puts the truth value under this key, where there is one. `NoMemory` where memory could not be had.
pub fn put_mark(
    members: &mut Map<String, Value>,
    alloc: Global,
    key: &str,
    mark: Option<bool>,
) -> Result<(), NoMemory>
    ensures { OnOk result (members_view members.new.entries
        ≡ with_entry key.now (option_map boolean mark) (members_view members.old.entries)) }
{
    if let Some(mark) = mark {
        serde_json::put(members, alloc, key, Value::Bool(mark))?;
    }
    Ok(())
}

/// Puts the text under this key, where there is one. `NoMemory` where memory could not be had.
pub fn put_text(
    members: &mut Map<String, Value>,
    alloc: Global,
    key: &str,
    text: Option<&str>,
) -> Result<(), NoMemory>
    ensures { OnOk result (members_view members.new.entries
        ≡ with_entry key.now (option_map (λ text. string text.now) text.entry) (members_view members.old.entries)) }
{
    if let Some(text) = text {
        serde_json::put(members, alloc, key, Value::try_from_str(alloc, text)?)?;
    }
    Ok(())
}
