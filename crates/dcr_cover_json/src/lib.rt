//! The cover of a case file: its shape, its limit, the sites that it writes and what they own, and its text.
#![tactic(auto)]

mod accepted;
mod cover;
mod index;
mod laws;
mod read;
mod shape;
mod site;
mod sites;
mod stop;
mod text;
mod written;

pub use accepted::see_cover;
pub use cover::check;
pub use laws::{covers_are_read_back, refusals_of_covers};
pub use read::read_cover_text;
pub use site::SiteText;
pub use stop::CoverStop;
pub use text::{cover_text, cover_value};
pub use written::CoverText;
