/// A link that the porter brought and that has no place yet.
#[derive(Drop)]
pub struct Guest<L> {
    /// The link.
    pub link: L,
    /// Its number, as its porter counts its links.
    pub number: u64,
}
