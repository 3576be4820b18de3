ghost use Rattle.dcr_work.specs.Order.{HistoryInOrder};

/// What follows for the history of a cluster that is closed with the passes that `run_sessions` gave back: of two sessions
/// of one worker every entry of the earlier one stands before every entry of the later one.
pub fn history_in_worker_order()
    ensures { HistoryInOrder }
{}
