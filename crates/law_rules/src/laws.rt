// Theorems of the laws and of their answers: each function is one, and does nothing.

ghost use Rattle.law_rules.specs.Answer.{OneNetworkAnswerLaw, SameAnswerLaw};
ghost use Rattle.law_rules.specs.Laws.{
  SameOutputsLaw,
  SameSidesLaw,
  OneNetworkRightSideLaw,
  NetworkLawNumbersLaw,
};

/// Both sides of each law do the same where they are typed alike; a left side has one right side;
/// and the laws are numbered from 1 to `LAST_NETWORK_LAW`.
pub fn side_laws()
    ensures same_outputs { SameOutputsLaw }
    ensures same_sides { SameSidesLaw }
    ensures one_right_side { OneNetworkRightSideLaw }
    ensures numbers { NetworkLawNumbersLaw }
{}

/// A law has at most one answer, which does the same as the network at hand where both are typed
/// alike.
pub fn answer_laws()
    ensures one_answer { OneNetworkAnswerLaw }
    ensures same { SameAnswerLaw }
{}
