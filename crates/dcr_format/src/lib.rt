//! What the formats of a case file share: why one is refused, the limits, the members of JSON values, how large a value
//! can be (no larger than the text that it was read from), and the facts of a format in the order in which they are tried.
#![tactic(auto)]

mod json_value;
mod laws;
mod limits;
mod members;
mod objects;
mod stop;

pub use json_value::{MAX_BYTES, read_json};
pub use laws::{facts_are_told, no_value_is_larger_than_its_text, parts_are_smaller};
pub use limits::{
    MAX_ATOMS, MAX_CALLS, MAX_LABEL, MAX_NODES, MAX_RELATIONS, MAX_SESSIONS, MAX_SITES, try_count,
};
pub use members::{
    array_or_none, elements, may_have_mark, may_have_text, member, member_array, member_mark,
    member_text,
};
pub use objects::{put_mark, put_text};
pub use stop::{CaseStop, LimitKind, Part};
