ghost use Rattle.dcr_engine.specs.Laws.{OrderedIsTold};

/// A run of the graph in which nothing failed, with every call of the sessions and no other, in the order of one worker, is
/// the told run: the sessions one after the other.
pub fn ordered_is_told()
    ensures { OrderedIsTold }
{}
