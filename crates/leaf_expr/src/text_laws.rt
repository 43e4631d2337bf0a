// What texts of types and expressions mean, as laws of the definitions.

ghost use Rattle.leaf_expr.specs.{Grammar.leaf, Limits.TextLimitsAre, WordReading.NumberLaw, WordReading.NaturalLaw};
ghost use Rattle.leaf_expr.specs.ReadLaws.{FoundLaw, OnlyLaw, OneReadingLaw, TokenFaultLaw, OneFaultLaw};
ghost use Rattle.leaf_expr.specs.Text.{ReadTextLaw, OneTextLaw, TextFaultLaw, PrintedLaw, PrintedTypeLaw, PrintedTextLaw};
ghost use Rattle.leaf_expr.specs.TextRows.{TypeRows, WordRows, UnaryRows, BinaryRows, LongRows, MergeIs, GateIs, TagIs, AttachIs, FaultRows};

/// Reading at the front of tokens: what is read is in the grammar, what is in the grammar is read
/// whatever follows, there is one reading, a fault is answered if and only if it is the first token
/// that doesn't fit, by its place and kind, and there is one fault.
pub fn reading_laws()
    ensures found { FoundLaw leaf }
    ensures only { OnlyLaw leaf }
    ensures one { OneReadingLaw leaf }
    ensures fault { TokenFaultLaw leaf }
    ensures one_fault { OneFaultLaw leaf }
{}

/// Reading a whole text: the same, with nothing behind the tree.
pub fn whole_text_laws()
    ensures texts { ReadTextLaw }
    ensures one_text { OneTextLaw }
    ensures text_fault { TextFaultLaw }
{}

/// What is printed is read back, before any bytes that don't go on its last word.
pub fn printing_laws()
    ensures printed { PrintedLaw }
    ensures printed_type { PrintedTypeLaw }
    ensures printed_text { PrintedTextLaw }
{}

/// A number has one spelling, and only that is read.
pub fn number_laws()
    ensures integers { NumberLaw }
    ensures naturals { NaturalLaw }
{}

/// How much a text may have of what is counted, as numbers.
pub fn limit_laws()
    ensures { TextLimitsAre }
{}

/// Each form of the grammar, read once.
pub fn grammar_rows()
    ensures types { TypeRows }
    ensures words { WordRows }
    ensures unary { UnaryRows }
    ensures binary { BinaryRows }
    ensures long { LongRows }
    ensures faults { FaultRows }
{}

/// Each sugar means the core form that it stands for.
pub fn sugar_laws()
    ensures merge { MergeIs }
    ensures gate { GateIs }
    ensures tag { TagIs }
    ensures attach { AttachIs }
{}
