/// An execution on a tape: the number of an event, executed at the site of this number. A tape takes any numbers; which
/// of them are events and sites of its case its reader knows.
#[derive(Clone, Copy, Debug, PartialEq, Eq)]
pub struct TapeEntry {
    pub event: u16,
    pub site: u16,
}
