//! Worked examples of the definitions. Each function here does nothing: its contract says that the rows
//! of a record of `specs/Examples` hold.

ghost use Rattle.interference.specs.Examples.Values.{AreBuckets, ArePins, AreSplits};
ghost use Rattle.interference.specs.Examples.Footprints.{AreGrown, AreWatched, AreFootprints, AreClashes};
ghost use Rattle.interference.specs.Examples.Rules.{AreInterferences, AreParts};

/// Which bucket a value falls into.
pub fn buckets()
    ensures { AreBuckets }
{}

/// What pins an attribute, and by which attribute a class is split.
pub fn splits()
    ensures pins { ArePins }
    ensures splits { AreSplits }
{}

/// The regions that negated condition elements watch, and those that actions grow.
pub fn regions()
    ensures watched { AreWatched }
    ensures grown { AreGrown }
{}

/// Footprints, and which of them clash.
pub fn footprints()
    ensures footprints { AreFootprints }
    ensures clashes { AreClashes }
{}

/// Which rules may interfere, and parts of rules.
pub fn rules()
    ensures interferences { AreInterferences }
    ensures parts { AreParts }
{}
