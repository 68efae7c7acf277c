//! Laws of full matches and the choices that they stand for. Each function here does nothing: its contract
//! is the law.

ghost use Rattle.conflict_parts.specs.Choices.{LivingRowsDiffer, LivingRowsMatch, MatchesAreLivingRows};

/// The free living rows of a program's network stand for the choices of its conflict set, one for each.
pub fn living_rows_are_choices()
    ensures match_where_free { LivingRowsMatch }
    ensures all { MatchesAreLivingRows }
    ensures once { LivingRowsDiffer }
{}
