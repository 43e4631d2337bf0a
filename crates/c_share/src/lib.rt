//! Equal functions of C once, pure logic.
//!
//! `specs/Sharing` says which files have the functions of another one, but each that equals an earlier one once:
//! all that call it call that one. Two functions are equal once their callees have their new numbers.
#![tactic(auto)]

ghost use Rattle.c_share.specs.Sharing.{ShareLaw};

/// Where equal functions stand once, each does what it did, at its new number.
pub fn share_laws()
    ensures { ShareLaw }
{}
