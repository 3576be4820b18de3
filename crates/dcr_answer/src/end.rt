/// Why a site answers no more over a link.
#[derive(Clone, Copy, Debug, PartialEq, Eq)]
pub enum AnswerEnd {
    /// The link has ended, behind a whole message or question, or before anything came.
    Ended,
    /// The link has ended within one.
    Torn,
    /// What came is nothing that the site may be asked.
    NotOurs,
    /// A read or a write failed.
    LinkFault,
    /// 2^64 - 1 messages and questions came.
    Full,
}
