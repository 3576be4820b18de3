/// A call that a disk in memory has had, and whether it failed.
#[derive(Debug, Drop)]
pub enum DiskCall {
    /// It was asked for its length.
    Len {
        failed: bool,
    },
    /// It was asked for so many bytes from an offset on.
    Read {
        at: u64,
        count: usize,
        failed: bool,
    },
    /// These bytes were to be written from an offset on.
    Write {
        at: u64,
        bytes: Vec<u8>,
        failed: bool,
    },
    /// What was written was to be made durable.
    Sync {
        failed: bool,
    },
}
