ghost use Rattle.std.specs.Prelude.{◌≡◌, option_map};
ghost use Rattle.serde_json.specs.View.{view};
ghost use Rattle.dcr_graph_json.specs.Shape.{is_event};
ghost use Rattle.dcr_graph_json.specs.Written.{label_in, name_in, parent_in, writes_mark};

use dcr_format::{may_have_mark, may_have_text, member_mark, member_text};
use serde_json::Value;

// Whether a value is an event.
pub(crate) fn is_event(value: &Value) -> bool
    ensures { result ≡ is_event (view value.now) }
{
    member_text(value, "name").is_some()
        && may_have_text(value, "parent")
        && may_have_text(value, "label")
        && may_have_mark(value, "executed")
        && may_have_mark(value, "pending")
        && may_have_mark(value, "included")
}

// The name of an event.
pub(crate) fn name(event: &Value) -> &str
    ensures { result.now ≡ name_in (view event.now) }
{
    match member_text(event, "name") {
        Some(text) => text,
        None => "",
    }
}

// The name of its parent, where it has one.
pub(crate) fn parent(event: &Value) -> Option<&str>
    ensures { option_map (λ text. text.now) result ≡ parent_in (view event.now) }
{
    member_text(event, "parent")
}

// Its label, where one is written.
pub(crate) fn label(event: &Value) -> Option<&str>
    ensures { option_map (λ text. text.now) result ≡ label_in (view event.now) }
{
    member_text(event, "label")
}

// Whether a mark is written, whatever it is.
pub(crate) fn writes_mark(event: &Value) -> bool
    ensures { result ≡ writes_mark (view event.now) }
{
    member_mark(event, "executed").is_some()
        || member_mark(event, "pending").is_some()
        || member_mark(event, "included").is_some()
}
