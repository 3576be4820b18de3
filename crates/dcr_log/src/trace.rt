use crate::{TextList, TraceName};

/// A trace: what one case of the log did.
#[derive(Drop)]
pub struct Trace {
    /// Its name.
    pub name: TraceName,
    /// The texts of its events, in the order of their records. They are texts of the log, and no atoms.
    pub events: TextList,
}
