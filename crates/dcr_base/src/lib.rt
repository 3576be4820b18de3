//! The traits of the outside: where bytes come from and where they go, the loops that read and
//! write them to the end, and the status that a run ends with.
#![tactic(auto)]

mod disk;
mod door;
mod failed;
mod file_disk;
mod gate;
mod link;
mod once;
mod overwrite;
mod reading;
mod sink;
mod source;
mod status;
mod std_sink;
mod std_source;
mod writing;

pub use disk::Disk;
pub use door::Door;
pub use failed::Failed;
pub use file_disk::FileDisk;
pub use gate::{Gate, OpenGate};
pub use link::{Link, Spent};
pub use once::{ReadOnce, WriteOnce};
pub use overwrite::{read_from, write_over};
pub use reading::{ReadStop, read_all};
pub use sink::Sink;
pub use source::Source;
pub use status::Status;
pub use std_sink::StdSink;
pub use std_source::StdSource;
pub use writing::{WriteFault, write_all};
