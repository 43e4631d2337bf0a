//! C as data, with a meaning, pure logic.
//!
//! `specs/Syntax` is the C that is printed, as trees: terms, commands, functions. `specs/Object` says what
//! objects hold, and `specs/Meaning` what C99 makes of a tree: a rule a kind of node. What C leaves undefined
//! has no result: a number that overflows, an index outside, an object that is not set.
#![tactic(auto)]

ghost use Rattle.c_meaning.specs.Wrapping.{WrappingLaw};

/// Sum, difference, product and negation through `uint64_t` have a result: the number modulo 2^64, read as
/// signed.
pub fn c_laws()
    ensures wrapping { WrappingLaw }
{}
