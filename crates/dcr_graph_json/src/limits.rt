ghost use Rattle.std.specs.Prelude.{◌≡◌, ◌<◌, ◌^◌, length, map, not, position};
ghost use Rattle.serde_json.specs.View.{items_view, view};
ghost use Rattle.dcr_format.specs.Size.{items_size};
ghost use Rattle.dcr_format.specs.Facts.{refusal};
ghost use Rattle.dcr_graph_json.specs.Limits.{has_short_label, label_bytes, labels_fact};

use crate::event::label;
use dcr_format::{CaseStop, LimitKind, MAX_LABEL};
use serde_json::Value;

// Whether each written label is within its limit, or the first that is not.
pub(crate) fn try_labels(events: &[Value]) -> Result<(), CaseStop>
    requires { items_size (items_view events.now) < 2 ^ 32 }
    ensures { refusal result ≡ labels_fact (map view events.now) }
{
    if let Some(i) = first_long(events) {
        return Err(CaseStop::Limit {
            kind: LimitKind::Label,
            count: label_len(&events[i]) as u32,
        });
    }
    Ok(())
}

// The first event with a label that is too long.
fn first_long(events: &[Value]) -> Option<usize>
    ensures { result ≡ position (λ v. not (has_short_label (view v))) events.now }
{
    events.iter().position(|event| !has_short_label(event))
}

// Whether the label is within its limit, where one is written.
fn has_short_label(event: &Value) -> bool
    ensures { result ≡ has_short_label (view event.now) }
{
    label_len(event) <= MAX_LABEL
}

// The bytes of a label that is written.
fn label_len(event: &Value) -> usize
    ensures { result ≡ label_bytes (view event.now) }
{
    match label(event) {
        Some(text) => text.len(),
        None => 0,
    }
}
