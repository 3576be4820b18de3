//! Case files: the case that the bytes of a file spell, or why they are refused; and the text of a case.
#![tactic(auto)]

mod case;
mod file;
mod laws;
mod read;
mod text;
mod version;

pub use case::Case;
pub use dcr_cover_json::{cover_text, read_cover_text};
pub use dcr_format::{CaseStop, LimitKind, Part};
pub use dcr_graph_json::{graph_text, read_graph_text};
pub use dcr_session_json::SessionList;
pub use laws::{
    accepted_is_spelled, no_bytes_want_memory, opening_is_written, when_each_refusal_comes,
};
pub use read::{read_case, read_file, read_value};
pub use text::case_text;
