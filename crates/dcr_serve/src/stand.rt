/// How a door stands, as a desk found it.
#[derive(Clone, Copy, Debug, PartialEq, Eq)]
pub enum DoorStand {
    /// It has given a link each time that it was asked.
    Open,
    /// It was asked and had none to give.
    Shut,
    /// It has failed.
    Failed,
}
