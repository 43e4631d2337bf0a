//! The C of a program as a tree, and what it outputs, pure logic.
//!
//! `specs/FunctionC` has the C of a function of a network's code, `specs/ProgramC` that of a program: a file
//! of C functions, of which each calls earlier ones. `specs/Samples` says what a program hands to it, and
//! `specs/FileLaw` what it outputs. `specs/Guarded` has a step that refuses what it can't take.
#![tactic(auto)]

ghost use Rattle.c_file.specs.FileLaw.{CheckedFileLaw, FileLaw, HandsLaw};
ghost use Rattle.c_file.specs.Guarded.{GuardedFileLaw};

/// The C of a typed network's program, run on samples, has a result at each, and outputs the network's
/// stream; with a checked or a guarded step also on calls that it refuses. All samples whose lists are not too long can
/// be handed to it.
pub fn file_laws()
    ensures file { FileLaw }
    ensures checked { CheckedFileLaw }
    ensures guarded { GuardedFileLaw }
    ensures hands { HandsLaw }
{}
