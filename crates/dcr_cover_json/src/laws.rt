ghost use Rattle.dcr_cover_json.specs.Laws.{AreReadBack};
ghost use Rattle.dcr_cover_json.specs.Refusals.{RefusalsAreTheFormats};

/// When sites are a cover of a nested graph, and when each refusal comes: each exactly there, and no other.
pub fn refusals_of_covers()
    ensures { RefusalsAreTheFormats }
{}

/// The value of an accepted cover is of the right shape, within the limit and without a refusal, and it means that very
/// cover; what is so means an accepted cover. Its canonical text is one line that is read as the value, and no two
/// accepted covers of one graph have one text.
pub fn covers_are_read_back()
    ensures { AreReadBack }
{}
