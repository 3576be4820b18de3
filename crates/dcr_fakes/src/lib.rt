//! A source, a sink, links with their door, and a disk in memory, for tests, and a gate that holds calls. All but the gate
//! tell all that they hold, and fail at the calls that a test names.
#![tactic(auto)]

mod calls;
mod disk_call;
mod hold_gate;
mod image;
mod mem_disk;
mod mem_door;
mod mem_link;
mod mem_sink;
mod mem_source;

pub use disk_call::DiskCall;
pub use hold_gate::{Hold, HoldGate};
pub use mem_disk::MemDisk;
pub use mem_door::MemDoor;
pub use mem_link::MemLink;
pub use mem_sink::MemSink;
pub use mem_source::MemSource;
