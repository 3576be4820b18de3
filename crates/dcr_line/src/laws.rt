ghost use Rattle.dcr_line.specs.CallLine.{CallLinesAreRead};
ghost use Rattle.dcr_line.specs.EntryLine.{EntryLinesAreRead, EntryTextsAreOne};
ghost use Rattle.dcr_line.specs.MarkLine.{MarksAreRead};

/// A line is read as a call exactly where it is the text of that call and its site and its event are ones
/// that there are: over names that are names and distinct.
pub fn call_lines_are_read()
    ensures { CallLinesAreRead }
{}

/// A text is read as marks exactly where it is the text of those marks and their sets have a place for each
/// atom: over names that are names and distinct.
pub fn marks_are_read()
    ensures { MarksAreRead }
{}

/// A line is read as an entry with its place exactly where it is their text, its numbers have 32 bits, its
/// sites and events are ones that there are, and its outcome is of its call's kind: over names that are
/// names and distinct.
pub fn entry_lines_are_read()
    ensures { EntryLinesAreRead }
{}

/// One text is that of one entry at one place: over names that are names and distinct.
pub fn l5()
    ensures { EntryTextsAreOne }
{}
