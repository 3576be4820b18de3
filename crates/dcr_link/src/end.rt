use dcr_cluster::Halt;

/// Why a session over a link has ended.
#[derive(Clone, Copy, Debug, PartialEq, Eq)]
pub enum WorkCause {
    /// The link's input has ended.
    Ended,
    /// The link failed.
    LinkFault,
    /// A line had more than 200 bytes before its line end.
    LongLine,
    /// 200,000 lines were answered, and a further byte came.
    ManyLines,
    /// A call halted.
    Halted(Halt),
    /// Memory was wanted and could not be had.
    NoMemory,
}

/// How a session over a link has ended.
#[derive(Clone, Copy, Debug, PartialEq, Eq)]
pub struct WorkEnd {
    /// How many calls were made.
    pub calls: u32,
    pub cause: WorkCause,
}
