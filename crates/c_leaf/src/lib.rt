//! Values and expressions as C, pure logic.
//!
//! `specs/Representing` says which objects of C represent which values. `specs/LeafC` has the C of an
//! expression's code: a local a step, and functions that compare values. `specs/LeafCLaw` says that it has a
//! result, which represents the expression's value.
//! `specs/Within` has functions that test an input's lists, and says what they tell.
#![tactic(auto)]

ghost use Rattle.c_leaf.specs.LeafCLaw.{SameLaw, LeafCLaw, ConstantLaw};
ghost use Rattle.c_leaf.specs.Within.{WithinLaw, OfferedLaw, ValuesOfferedLaw};

/// The C function of a typed expression's code answers what represents its value; those that compare
/// values answer whether they are the same.
pub fn leaf_c_laws()
    ensures same { SameLaw }
    ensures leaf { LeafCLaw }
    ensures constant { ConstantLaw }
{}

/// The C function that tests an input answers whether each list in it is within its array: so exactly
/// whether it represents a value.
pub fn within_laws()
    ensures within { WithinLaw }
    ensures offered { OfferedLaw }
    ensures values { ValuesOfferedLaw }
{}
