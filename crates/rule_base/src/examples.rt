//! Worked examples of the definitions. Each function here does nothing: its contract says that the rows
//! of a record of `specs/Examples` hold, and the check computes them.

ghost use Rattle.rule_base.specs.Examples.Predicates.{AreColumns, AreRows};
ghost use Rattle.rule_base.specs.Examples.Matches.{AreAcceptances, AreMatches, AreConflictSets};
ghost use Rattle.rule_base.specs.Examples.Effects.{AreComputed, AreEffects, AreTrees, EachTreeIsWritten};
ghost use Rattle.rule_base.specs.Examples.Firings.{AreRuns, AreTags, AreEntries, AreEndings};
ghost use Rattle.rule_base.specs.Examples.Bases.{AreRenewals, AreForgotten, AreFromBases, AreLawful, AreUnlawful};
ghost use Rattle.rule_base.specs.Examples.Layouts.{AreLayouts};
ghost use Rattle.rule_base.specs.Examples.Soundness.{AreSound, AreUnsound};

/// Which predicates hold of two values, by how they stand to each other.
pub fn predicates()
    ensures columns { AreColumns }
    ensures rows { AreRows }
{}

/// What a condition element accepts, with a variable that is bound and one that isn't.
pub fn acceptances()
    ensures { AreAcceptances }
{}

/// Which instantiations match, and the number of the first condition element that fails.
pub fn matches()
    ensures { AreMatches }
{}

/// The conflict set and its order.
pub fn conflict_sets()
    ensures { AreConflictSets }
{}

/// What `compute` gives, and what right-hand sides do or where they fail.
pub fn effects()
    ensures computed { AreComputed }
    ensures effects { AreEffects }
    ensures trees { AreTrees }
    ensures written { EachTreeIsWritten }
{}

/// What small programs come to after some firings, and which firings are no run.
pub fn runs()
    ensures runs { AreRuns }
    ensures tags { AreTags }
    ensures entries { AreEntries }
{}

/// How runs end.
pub fn endings()
    ensures { AreEndings }
{}

/// One program under both refractions.
pub fn refractions()
    ensures renewals { AreRenewals }
    ensures forgotten { AreForgotten }
{}

/// Runs from a base, and which bases are lawful.
pub fn bases()
    ensures runs { AreFromBases }
    ensures lawful { AreLawful }
    ensures unlawful { AreUnlawful }
{}

/// Texts that pieces make.
pub fn layouts()
    ensures { AreLayouts }
{}

/// Which programs are sound, and which rules are not.
pub fn soundness()
    ensures sound { AreSound }
    ensures unsound { AreUnsound }
{}
