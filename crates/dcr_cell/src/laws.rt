ghost use Rattle.dcr_cell.specs.Laws.{AnswersHold, WaitsHold};

/// A decision that was made before the journal's lock was taken holds at the entry's place: the asked site's front has
/// missed no execution of its alphabet, so that its marks are those after all entries. The same holds of all sites
/// together, which are asked whether the marking is accepting.
pub fn a_decision_holds()
    ensures answers { AnswersHold }
    ensures waits { WaitsHold }
{}
