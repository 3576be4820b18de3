use dcr_cluster::Halt;
use dcr_set::SiteId;

/// Why a call made no entry.
#[derive(Clone, Copy, Debug, PartialEq, Eq)]
pub enum Unmade {
    /// The calls take no entry any more.
    Halted(Halt),
    /// The call asks this site, which has no link, or whose link was ended as it was asked.
    Away(SiteId),
}
