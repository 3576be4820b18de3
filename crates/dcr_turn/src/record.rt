use dcr_journal::Entry;
use std::collections::LinkedList;

/// Who has seen a beginning of the journal's list. No value of it is made.
pub enum Holder {
    /// The journal itself, which has seen all.
    Journal,
    /// The site of this number.
    Site(u16),
    /// The session of this number.
    Session(u32),
}

/// How much of the journal's list somebody has seen. No value of it is made.
pub struct Record {
    pub holder: Holder,
    pub seen: LinkedList<Entry>,
}
