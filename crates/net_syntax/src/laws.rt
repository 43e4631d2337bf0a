// Laws of types and of places: each function is a law, and does nothing.

ghost use Rattle.net_syntax.specs.SamePlace.{SamePlaceLaw};
ghost use Rattle.net_meaning.specs.Laws.{TypedOutputsLaw, AlikeLaw, SameLaw, OneTypeLaw, WithinLaw};
ghost use Rattle.net_syntax.specs.TypingLaws.{
  OneListLaw,
  PositionLaw,
  AllReachedLaw,
  InOrderLaw,
  OneTypeAtLaw,
};

/// A typed network outputs typed values, the same ones in alike environments, and it has one
/// output type and one list of expressions: each that is a child of a network in it, at its
/// position, in the order of the positions. What stands at a position has one type there.
pub fn typing_laws()
    ensures typed { TypedOutputsLaw }
    ensures alike { AlikeLaw }
    ensures same { SameLaw }
    ensures one_type { OneTypeLaw }
    ensures one_list { OneListLaw }
    ensures positions { PositionLaw }
    ensures all_reached { AllReachedLaw }
    ensures in_order { InOrderLaw }
    ensures within { WithinLaw }
    ensures one_type_at { OneTypeAtLaw }
{}

/// Where what stands at a position of a typed network, in continuations and in networks that will
/// be frozen too, or inside its expressions, is replaced by what has its type there and does the
/// same there, the whole keeps its type and outputs the same.
pub fn replacing_laws()
    ensures same { SamePlaceLaw }
{}
