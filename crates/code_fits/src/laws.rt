// The laws of layouts and of programs: it does nothing.

ghost use Rattle.code_fits.specs.FitLaw.{FitLaw};
ghost use Rattle.code_fits.specs.Programs.{ProgramOutputs, ProgramStands};

/// Where functions fit their layouts, they keep to them at each sample, whose steps are from 1 to
/// 2^63 - 1 and whose values fit: each statement's value, each parameter and each register of an
/// expression's code is of its type, each list within the bound of its elements' type, each queue
/// within its room, and what cells count has 63 bits. So the program of a typed network outputs the
/// network's stream, and all that stands while it runs fits.
pub fn fit_laws()
    ensures fits { FitLaw }
    ensures outputs { ProgramOutputs }
    ensures stands { ProgramStands }
{}
