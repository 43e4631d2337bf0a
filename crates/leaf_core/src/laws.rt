// What holds of every expression.

ghost use Rattle.leaf_core.specs.TypingLaws.{EqualityLaw, ExactnessLaw, OneExpressionTypeLaw, SoundnessLaw};
ghost use Rattle.leaf_core.specs.PartLaws.{SamePartLaw};

/// A typed expression has values of its type, and one type; the checking walk answers it if and
/// only if the expression has it within the limits; the test that `equal` makes is equality.
pub fn typing_laws()
    ensures sound { SoundnessLaw }
    ensures one_type { OneExpressionTypeLaw }
    ensures exact { ExactnessLaw }
    ensures equality { EqualityLaw }
{}

/// Where a part of a typed expression, however deep, is replaced by one of its type and its value,
/// the whole keeps its type and its value.
pub fn part_laws()
    ensures same { SamePartLaw }
{}
