ghost use Rattle.dcr_conform.specs.Laws.{EachTraceHasAnAnswer, NoTraceHasTwo};

/// Over each graph, from each marking, a trace is judged in one way and in no other.
pub fn each_trace_has_one_answer()
    ensures some { EachTraceHasAnAnswer }
    ensures one { NoTraceHasTwo }
{}
