// Theorems of the laws and of their answers: each function is one, and does nothing.

ghost use Rattle.expr_laws.specs.Answer.{AnswerValueLaw, OneAnswerLaw};
ghost use Rattle.expr_laws.specs.Laws.{OneRightSideLaw, LawNumbersLaw, SidesTypeLaw, SidesValueLaw};

/// Each law keeps the value and the type of a typed left side; a left side determines its right
/// side; the laws are numbered from 1 to `LAST_EXPRESSION_LAW`.
pub fn side_laws()
    ensures values { SidesValueLaw }
    ensures types { SidesTypeLaw }
    ensures one_right_side { OneRightSideLaw }
    ensures numbers { LawNumbersLaw }
{}

/// A law has at most one answer, which has the value of the expression at hand where both are typed
/// alike.
pub fn answer_laws()
    ensures one_answer { OneAnswerLaw }
    ensures values { AnswerValueLaw }
{}
