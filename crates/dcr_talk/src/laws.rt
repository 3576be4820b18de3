ghost use Rattle.dcr_talk.specs.Laws.{AnswersAreTrue, AnswersComeInOrder, ABeginningIsOfTheFirst};

/// Where the journal is right and all that the machine of a site was handed is true, so is all that it answers.
pub fn answers_are_true()
    ensures { AnswersAreTrue }
{}

/// What a machine answers to more than it was handed comes behind what it has answered.
pub fn answers_come_in_order()
    ensures { AnswersComeInOrder }
{}

/// A beginning of the bytes of messages that is whole frames is of the first of these messages, and of no others.
pub fn a_beginning_is_of_the_first()
    ensures { ABeginningIsOfTheFirst }
{}
