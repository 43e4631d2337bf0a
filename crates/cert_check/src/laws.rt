// Laws of certificates: each function is a law, and does nothing.

ghost use Rattle.cert_check.specs.Laws.{
  DerivedSameLaw,
  SameStreamLaw,
  KeptTypesLaw,
  OneNextLaw,
  OneCheckAnswerLaw,
  AppliedLaw,
  AnswerStandsLaw,
  MostStepsIs,
};

/// What is derived from a network has its types and outputs the same: in alike environments, and
/// so on every stream of typed samples.
pub fn derivation_laws()
    ensures same { DerivedSameLaw }
    ensures same_stream { SameStreamLaw }
    ensures kept_types { KeptTypesLaw }
{}

/// A step leads from a network to at most one other, and a check has at most one answer but for
/// lack of memory: so it accepts if and only if the steps derive the target, and else it tells the
/// first fault.
pub fn one_answer_laws()
    ensures one_next { OneNextLaw }
    ensures one_answer { OneCheckAnswerLaw }
{}

/// How many steps a certificate may have, as a number.
pub fn limit_laws()
    ensures { MostStepsIs }
{}

/// What `apply_steps` answers is derived by the steps, so a check of it as the target accepts them;
/// and behind each step its law's answer stands at its position.
pub fn applied_laws()
    ensures applied { AppliedLaw }
    ensures stands { AnswerStandsLaw }
{}
