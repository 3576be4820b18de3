/// What a porter brings that is asked for the next link.
#[derive(Drop)]
pub enum Brought<L> {
    /// A link.
    Link(L),
    /// Nobody is there now. Somebody may be later.
    Nobody,
    /// It is shut, for ever.
    Shut,
}
