// Laws of the walk and of the check: each function is a law, and does nothing.

ghost use Rattle.net_types.specs.TypingLaws.{WalkLaw, CheckLaw, TypeFaultLaw, SizeLaw};

/// The walk answers a type if and only if the network has it within the limits, and the check
/// exactly what is within all limits; each fault stands at a part of the network that can have it.
/// No network within the limits is refused for its size.
pub fn typing_laws()
    ensures walk { WalkLaw }
    ensures check { CheckLaw }
    ensures faults { TypeFaultLaw }
    ensures sizes { SizeLaw }
{}
