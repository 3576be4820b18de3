ghost use Rattle.dcr_part.specs.Laws.{LocalRulesAreEnough, PartsTellNoMore};

/// The projection of the local rules to what a site owns is the projection of the rules that they come from. So a site that is
/// opened from its local rules alone stands where the case's own site does.
pub fn local_rules_are_enough()
    ensures { LocalRulesAreEnough }
{}

/// Two cases that are alike at a site have one part there, byte for byte: where the digest, the site's number and name, its
/// projection, the names on its alphabet and the opening marks that it tracks are the same. So a part tells nothing else: no
/// name, label or relation of others'.
pub fn what_a_part_tells()
    ensures { PartsTellNoMore }
{}
