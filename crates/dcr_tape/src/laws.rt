ghost use Rattle.dcr_tape.specs.Laws.{EachContentIs, NoCause, OneCause, OneList};

/// A content has at most one part in force, and stands for at most one list of executions.
pub fn one_list()
    ensures { OneList }
{}

/// At most one of `NotTape`, `OtherGraph`, `BadTape` and `Long` stands in a content, for a case.
pub fn one_cause()
    ensures { OneCause }
{}

/// None of them stands in a content that stands for at most 1,000,000 executions of the case.
pub fn no_cause()
    ensures { NoCause }
{}

/// Each content is empty, or stands for at most 1,000,000 executions of the case, or shows a cause for which it is refused.
pub fn each_content_is()
    ensures { EachContentIs }
{}
