//! Laws of footprints. Each function here does nothing: its contract is the law.

ghost use Rattle.interference.specs.PhantomLaw.{FiringsDontDisturb};
ghost use Rattle.interference.specs.WordLaws.{WordsTellClashes};
ghost use Rattle.interference.specs.FootprintLaws.{FootprintsAreInRange, FootprintsAreNotEmpty, GatheredAskTheSame, GatheredRise, OnlyStripesClash};

/// Of two instantiations whose footprints don't clash, neither disturbs the other by firing.
pub fn firings_dont_disturb()
    ensures { FiringsDontDisturb }
{}

/// A footprint asks of each lock what its candidate demands of it, and has each lock once.
pub fn footprints_are_gathered()
    ensures asks { GatheredAskTheSame }
    ensures rise { GatheredRise }
{}

/// A footprint asks for locks that there are, and for one at least where the candidate fits.
pub fn footprints_are_of_locks()
    ensures in_range { FootprintsAreInRange }
    ensures not_empty { FootprintsAreNotEmpty }
{}

/// Instantiations of rules that may not interfere clash at most because different tags share a stripe.
pub fn only_stripes_clash()
    ensures { OnlyStripesClash }
{}

/// The words of locks that few have taken leave room for a footprint exactly where it clashes with none of theirs.
pub fn words_tell_clashes()
    ensures { WordsTellClashes }
{}
