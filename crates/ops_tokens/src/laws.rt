//! Laws of the definitions.

ghost use Rattle.std.specs.Prelude.{ℕ, List};
ghost use Rattle.ops_tokens.specs.WordShapes.{HasShapeOfItsKind};
ghost use Rattle.ops_tokens.specs.Cut.{FallsIntoTokens};
ghost use Rattle.ops_tokens.specs.CutPlaces.{HavePlaces};
ghost use Rattle.ops_tokens.specs.TokenRows.{AreAngleRows, AreNumberRows, AreEndRows, ArePlaceRows};

/// Tokens of texts that are easily read otherwise, and the places of some.
pub fn token_rows()
    ensures angles { AreAngleRows }
    ensures numbers { AreNumberRows }
    ensures ends { AreEndRows }
    ensures places { ArePlaceRows }
{}

/// White space and comments vanish, a longest run of letters is a word, and what stands between
/// bars is a symbol.
pub fn text_falls_into_tokens()
    ensures { FallsIntoTokens }
{}

/// Each token stands at its first byte, but a bar without a second one is wrong at the end of the text.
pub fn tokens_have_places()
    ensures { HavePlaces }
{}

/// Variables, integers and floating-point numbers are exactly the words of their shapes.
pub fn words_have_the_shapes_of_their_kinds()
    ensures { (word : List ℕ) → HasShapeOfItsKind word }
{}
