// Laws of the optimiser: each function is a law, and does nothing.

ghost use Rattle.net_opt.specs.Laws.{MostTakenIs, OptimisedDerivesLaw, OneOptimisedLaw};

/// How many steps are taken at most, as a number.
pub fn limit_laws()
    ensures { MostTakenIs }
{}

/// The steps derive the answer, so a check of them accepts it. There is one answer: two runs of the
/// optimiser on one network take the same steps to the same network.
pub fn optimised_laws()
    ensures derives { OptimisedDerivesLaw }
    ensures one { OneOptimisedLaw }
{}
