use dcr_seat::Seat;

/// A site as its order knows it.
#[derive(Drop)]
pub enum Place<L> {
    /// No link of it is there.
    Away,
    /// It has a link, which has greeted as this site, and has answered all that it was asked.
    Here(Seat<L>),
}
