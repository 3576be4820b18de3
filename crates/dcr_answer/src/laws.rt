ghost use Rattle.dcr_answer.specs.Laws.{ASiteCouldSay};

use dcr_base::Link;

/// What comes over a link from a site that talks as `answer_asks` does, begun at the opening, is what its machine could say.
pub fn a_site_could_say<L: Link>()
    ensures { ASiteCouldSay L.has_ended L.gives L.takes }
{}
