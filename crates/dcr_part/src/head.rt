use dcr_graph::Name;
use dcr_set::SiteId;

/// Whose part it is: the digest that names the case, and the site's number and name.
#[derive(Drop)]
pub struct PartHead {
    /// The digest that names the case.
    pub digest: [u8; 32],
    /// The site's number in the case, which is below 64.
    pub site: SiteId,
    /// The site's name.
    pub name: Name,
}
