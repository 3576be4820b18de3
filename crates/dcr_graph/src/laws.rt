ghost use Rattle.dcr_graph.specs.Laws.{CauseIsWhatBlocks, WaitsForTheLeast};

/// The cause of an event at a marking is the first of what blocks it, both ways: that the event isn't included; else
/// the least condition event of it that is included and not executed; else the least milestone event of it that is
/// included and pending; and there is none exactly where none of these holds.
pub fn the_cause_is_the_first_that_blocks()
    ensures { CauseIsWhatBlocks }
{}

/// What a marking waits for is the least atom that is included and pending, both ways; there is none exactly where no
/// atom is.
pub fn the_least_that_waits_is_told()
    ensures { WaitsForTheLeast }
{}
