ghost use Rattle.dcr_seat.specs.Laws.{PartsAreHonest, AProposalIsRight, AWithdrawalIsRight, ATrueVoteIsRight, ATrueAnswerIsRight};

/// Of what a site's machine could say, each part of a talk in which all was answered is just what the machine answers to what was
/// asked, whatever else was asked and said behind it.
pub fn parts_are_honest()
    ensures { PartsAreHonest }
{}

/// A right journal goes on: it stays right by a proposal, by one that is taken back, and by a true vote and a true answer that are
/// handed to it.
pub fn a_right_journal_goes_on()
    ensures proposal { AProposalIsRight }
    ensures withdrawal { AWithdrawalIsRight }
    ensures vote { ATrueVoteIsRight }
    ensures answer { ATrueAnswerIsRight }
{}
