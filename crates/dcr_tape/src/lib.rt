//! The tape: the executions of a case on a disk, such that one that was answered is never lost.
#![tactic(auto)]

mod cause;
mod durable;
mod entry;
mod find;
mod head;
mod laws;
mod open;
mod record;
mod records;
mod renew;
mod stop;
mod tape;
mod width;

pub use cause::TapeCause;
pub use entry::TapeEntry;
pub use laws::{each_content_is, no_cause, one_cause, one_list};
pub use open::{TapeRefused, open_tape};
pub use stop::{DiskFault, RenewStop};
pub use tape::{MAX_EXECUTIONS, Store, Tape};
