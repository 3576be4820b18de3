ghost use Rattle.dcr_session_json.specs.Laws.{AreReadBack};

/// The value of sessions that are within the limits, and whose calls are ones of these sites and atoms, is of the right
/// shape and within the limits, each of its texts is a call, and it means those very sessions: over names that are names
/// and distinct.
pub fn sessions_are_read_back()
    ensures { AreReadBack }
{}
