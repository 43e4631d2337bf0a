//! Values on streams of bytes, as C, pure logic.
//!
//! `specs/Streams` says what a stream is, and what the functions over it do that are written by hand.
//! `specs/Writing` and `specs/Reading` have the C functions that write and read the values of a type with parts,
//! each over those of its parts; `specs/Filter` has those of a filter, one behind the other.
#![tactic(auto)]

ghost use Rattle.c_stream.specs.Writing.{WritingLaw};
ghost use Rattle.c_stream.specs.Reading.{ReadingLaw};
ghost use Rattle.c_stream.specs.Filter.{FilterLaw, ProgramFilterLaw};

use sample_core::reading_laws;

/// The C function that writes values of a type writes their spelling, the one that reads them reads a value
/// exactly where one is spelled, where those that are written by hand do what is said of them; so do those of a
/// filter, linked behind any functions, also with a program's input and output.
pub fn stream_laws()
    ensures writing { WritingLaw }
    ensures reading { ReadingLaw }
    ensures filter { FilterLaw }
    ensures program { ProgramFilterLaw }
{
    reading_laws();
}
