// Laws of names; types worked by hand.

ghost use Rattle.c_text.specs.NameText.{NameLaw};
ghost use Rattle.c_text.specs.TypeRows.{DeclaredRows, ZeroedRows, BracesRows, MeantRows, PlaceRows, KindRows, ResultRows, SignedRows};

/// Under any prefix, two names are two texts.
pub fn name_laws()
    ensures { NameLaw }
{}

/// Types, places and numbers, as they are printed and meant.
pub fn type_rows()
    ensures declared { DeclaredRows }
    ensures zeroed { ZeroedRows }
    ensures braces { BracesRows }
    ensures meant { MeantRows }
    ensures places { PlaceRows }
    ensures kinds { KindRows }
    ensures results { ResultRows }
    ensures signed { SignedRows }
{}
