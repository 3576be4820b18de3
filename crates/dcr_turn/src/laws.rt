ghost use Rattle.dcr_turn.specs.Laws.{CoveredMarksStay, CoveredCallsStay, CoveredCountStays};

/// What follows from a front that covers a list: marks of a site that has seen the front alone are right after the
/// whole list, and a session's calls in the list are those in the front.
pub fn covered_fronts_are_enough()
    ensures marks { CoveredMarksStay }
    ensures calls { CoveredCallsStay }
    ensures count { CoveredCountStays }
{}
