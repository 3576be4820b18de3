ghost use Rattle.std.specs.Prelude.{◌≡◌, ◌<◌, ◌≤◌, ◌^◌, length, map, not, option_map, position, is_some, IfSome};
ghost use Rattle.std.specs.List.{list_all};
ghost use Rattle.std.specs.Option.{ForSome};
ghost use Rattle.serde_json.specs.Find.{as_str};
ghost use Rattle.serde_json.specs.View.{items_view, view};
ghost use Rattle.dcr_format.specs.Size.{items_size, size};
ghost use Rattle.dcr_format.specs.Facts.{each, refusal};
ghost use Rattle.dcr_format.specs.Members.{elements_or_none};
ghost use Rattle.dcr_format.specs.declared.stop.CaseStop.TheVariants.{Shape};
ghost use Rattle.dcr_format.specs.declared.stop.Part.TheVariants as part;
ghost use Rattle.dcr_session_json.specs.Limits.{call_count};
ghost use Rattle.dcr_session_json.specs.Shape.{is_session};
ghost use Rattle.dcr_session_json.specs.Written.{calls_in, text_in};

use dcr_format::{CaseStop, Part, elements};
use serde_json::Value;

// The values of the sessions, and none where there is no such member. None exactly where it is there and is no array.
pub(crate) fn read_array(sessions: Option<&Value>) -> Option<&[Value]>
    requires { ForSome sessions (λ v. size (view v.now) < 2 ^ 32) }
    ensures values { option_map (λ vs. map view vs.now) result ≡ elements_or_none (option_map (λ v. view v.now) sessions.entry) }
    ensures few { IfSome result (λ vs. items_size (items_view vs.now) < 2 ^ 32) }
{
    match sessions {
        Some(sessions) => elements(sessions),
        None => Some(&[]),
    }
}

// Whether each of the values is a session, or the first that is none.
pub(crate) fn try_sessions(values: &[Value]) -> Result<(), CaseStop>
    requires { length values.now < 2 ^ 32 }
    ensures { refusal result ≡ each is_session (Shape part.Session) (map view values.now) }
{
    if let Some(k) = first_other(values) {
        return Err(CaseStop::Shape {
            part: Part::Session,
            index: k as u32,
        });
    }
    Ok(())
}

// The first value that is no session.
fn first_other(values: &[Value]) -> Option<usize>
    ensures { result ≡ position (λ v. not (is_session (view v))) values.now }
{
    values.iter().position(|value| !is_session(value))
}

// Whether a value is a session.
fn is_session(value: &Value) -> bool
    ensures { result ≡ is_session (view value.now) }
{
    match elements(value) {
        Some(calls) => are_texts(calls),
        None => false,
    }
}

// Whether each of the values is a text.
fn are_texts(values: &[Value]) -> bool
    ensures { result ≡ list_all (λ v. is_some (as_str (view v))) values.now }
{
    values.iter().all(|value| value.is_string())
}

// The values of the calls of a session.
pub(crate) fn calls(session: &Value) -> &[Value]
    ensures calls { map view result.now ≡ calls_in (view session.now) }
    ensures few { items_size (items_view result.now) ≤ size (view session.now) }
{
    match elements(session) {
        Some(calls) => calls,
        None => &[],
    }
}

// The text of a call.
pub(crate) fn text(call: &Value) -> &str
    ensures { result.now ≡ text_in (view call.now) }
{
    match call.as_str() {
        Some(text) => text,
        None => "",
    }
}

// The number of the calls of all sessions.
pub(crate) fn count_calls(sessions: &[Value]) -> usize
    requires { items_size (items_view sessions.now) < 2 ^ 32 }
    ensures number { result ≡ call_count (map view sessions.now) }
    ensures fits { result < 2 ^ 32 }
{
    let mut count = 0;
    for session in sessions {
        count += calls(session).len();
    }
    count
}
