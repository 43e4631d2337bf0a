// Laws of patterns: each function is a law, and does nothing.

ghost use Rattle.law_patterns.specs.PatternLaws.{PatternOneRightSideLaw, NetOneRightSideLaw};

/// Where each letter of the right side stands in the left one, a left side determines its right
/// side.
pub fn pattern_laws()
    ensures expressions { PatternOneRightSideLaw }
    ensures networks { NetOneRightSideLaw }
{}
