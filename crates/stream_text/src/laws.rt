// What the answers of a reader of lines tell of its stream, as laws of the definitions.

ghost use Rattle.stream_text.specs.Hearing.{BeginLaw, MoreLaw, EndLaw, FaultyLaw, UnreadLaw, TurnsLaw};
ghost use Rattle.stream_text.specs.LineFaults.{LineFaultLaw};
ghost use Rattle.stream_text.specs.LineLaws.{LineLaw, StepLaw, WholeValueLaw};
ghost use Rattle.stream_text.specs.Limits.{StreamLimitsAre};
ghost use Rattle.stream_text.specs.WrittenStreams.{WrittenLaw};

use sample_core::reading_laws;

/// How much is read of what is counted, as numbers.
pub fn limit_laws()
    ensures { StreamLimitsAre }
{}

/// Successive calls answer the samples of the text in order; where one answers that there is none
/// more, these are all, and where one answers a line's fault, these are those before it. Where one
/// answers `Read` or `ReadTurns`, they are those of the bytes that were read. A line is read as a
/// sample if and only if it holds it: line 1 the value's spelling, a later line a step and the
/// value's spelling or `=`; and it has a fault if and only if that fault's row of the table of
/// faults holds. A timed list that is written is read back.
pub fn stream_laws()
    ensures begins { BeginLaw }
    ensures more { MoreLaw }
    ensures ends { EndLaw }
    ensures faulty { FaultyLaw }
    ensures unread { UnreadLaw }
    ensures turns { TurnsLaw }
    ensures value { WholeValueLaw }
    ensures step { StepLaw }
    ensures line { LineLaw }
    ensures fault { LineFaultLaw }
    ensures written { WrittenLaw }
{
    reading_laws();
}
