ghost use Rattle.dcr_adapt.specs.Refusals.{StagesAreTheLines, RefusalsAreTheStages, OneOfTheTwo};

/// A text is refused as stages exactly where this is so, in words: it has not 1 to 16 lines, and then the answer is their
/// number; or it has, each stage before one is accepted, and the line of that one is no case, or it is one whose policy is
/// refused, or it is accepted by itself, and the least atom of the case before that has no name of its atoms has this name.
/// It is given as stages exactly where it has 1 to 16 lines, each is a case with a policy that denies no call of its
/// sessions, and no atom of one is none of the next. And one of the two holds.
pub fn when_each_stage_is_refused()
    ensures refusals { RefusalsAreTheStages }
    ensures stages { StagesAreTheLines }
    ensures either { OneOfTheTwo }
{}
