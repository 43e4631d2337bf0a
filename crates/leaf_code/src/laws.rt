// The laws of the code of expressions: they do nothing.

ghost use Rattle.leaf_code.specs.Fitting.{LeafFitLaw, LeafValueLaw};

/// The code of any expression computes the expression's value. Of a typed one each step's value is of
/// its register's type, with lists within the bounds of their elements' types, where those that it
/// makes itself are.
pub fn leaf_laws()
    ensures value { LeafValueLaw }
    ensures fits { LeafFitLaw }
{}
