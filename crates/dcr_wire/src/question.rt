use dcr_set::SiteId;

/// What a site is asked to tell beside its decisions.
#[derive(Clone, Copy, Debug, PartialEq, Eq)]
pub enum Asked {
    /// The marks that it tracks.
    Marks,
    /// Which of its events may be executed.
    Can,
    /// The first of its events for which it waits.
    Waits,
}

/// What the journal node asks a site to tell, once the site has heard of so many executions as there are in its stream.
/// The number is that of the entries then.
#[derive(Clone, Copy, Debug, PartialEq, Eq)]
pub struct Question {
    pub number: u32,
    pub site: SiteId,
    pub asked: Asked,
    pub count: u32,
}
