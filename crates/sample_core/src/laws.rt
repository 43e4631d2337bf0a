// Laws of the definitions that contracts cite.

ghost use Rattle.sample_core.specs.ReadingLaws.{ReadingLaw, OneValueLaw, ReadAgainLaw, NoValueLaw, FaultLaw, LeftmostLaw};

/// Reading and spelling: what is read at the front is spelled there, and what is spelled there is
/// read; bytes spell one value of a type, if any; a printed value is read again before any byte
/// that does not go on its last word; and a fault is answered if and only if the bytes begin as a
/// value of the type does, up to a place where the wanted does not stand.
pub fn reading_laws()
    ensures found { ReadingLaw }
    ensures one { OneValueLaw }
    ensures again { ReadAgainLaw }
    ensures none { NoValueLaw }
    ensures fault { FaultLaw }
    ensures leftmost { LeftmostLaw }
{}
