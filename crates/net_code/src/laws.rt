// The law of code: it does nothing.

ghost use Rattle.net_code.specs.Calls.{CallsLaw};
ghost use Rattle.net_code.specs.CodeLaw.{CodeLaw, CodeMachineLaw, LeafCodeLaw};

/// The code of any network does what the network's machine does; that of a typed network outputs
/// the network's stream, on any samples and from whatever is kept at the start, also where each of its
/// expressions is run as the code of that. At each sample it
/// calls at most as many steps as the network weighs.
pub fn code_laws()
    ensures machine { CodeMachineLaw }
    ensures outputs { CodeLaw }
    ensures leaves { LeafCodeLaw }
    ensures calls { CallsLaw }
{}
