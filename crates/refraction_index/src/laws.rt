//! Laws of what the index tells. Each function here does nothing: its contract is the law.

ghost use Rattle.refraction_index.specs.Beside.{ChoicesComeApart, MatchesComeApart, MatchesGoOn};
ghost use Rattle.refraction_index.specs.StillFired.{LastFiringTells};

/// Of a choice that matches, the last firing tells whether it is fired still.
pub fn last_firing_tells()
    ensures { LastFiringTells }
{}

/// A match beside further elements is the match without them, where they block none of its condition
/// elements.
pub fn matches_come_apart()
    ensures conditions { MatchesComeApart }
    ensures choices { ChoicesComeApart }
    ensures goes_on { MatchesGoOn }
{}
