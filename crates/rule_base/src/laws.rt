//! Laws of the definitions. Each function here does nothing: its contract is the law.

ghost use Rattle.rule_base.specs.MatchLaws.{EachMatches, EachMatchIsListed, BindingsAreTheMatch, ConflictSetIsInOrder, NoneBeforeItself};
ghost use Rattle.rule_base.specs.RunLaws.{RunsGoOn, RunsAreTold, RunsKeepRefraction, RunsFireOnce, RunsKeepMatching, RunsFireAnew, StepsKeepStates, RunsKeepStates, StepsGiveFewTags};
ghost use Rattle.rule_base.specs.BaseLaws.{OpeningsAreLawful, LawfulBasesAreStates, RunsLeaveBases};

/// The conflict set has the choices that match, and no others.
pub fn conflict_set_is_the_match()
    ensures matches { EachMatches }
    ensures listed { EachMatchIsListed }
{}

/// The conflict set is in rising order of rules and then of tags, and has no choice twice.
pub fn conflict_set_is_in_order()
    ensures in_order { ConflictSetIsInOrder }
    ensures once { NoneBeforeItself }
{}

/// A right-hand side begins with the bindings of the match.
pub fn bindings_are_the_match()
    ensures { BindingsAreTheMatch }
{}

/// A run goes on where another ended.
pub fn runs_go_on()
    ensures { RunsGoOn }
{}

/// The journal of a run tells its choices in order, and a run keeps the refraction.
pub fn runs_are_told()
    ensures journal { RunsAreTold }
    ensures refraction { RunsKeepRefraction }
{}

/// What stays fired: under `Once` all that fires, so that nothing fires twice; under `Renewed` what goes
/// on matching, so that a choice which fires twice has stopped matching between.
pub fn refraction_holds()
    ensures once { RunsFireOnce }
    ensures matching { RunsKeepMatching }
    ensures anew { RunsFireAnew }
{}

/// A run may begin from each opening, and from where a run from a lawful base has come to.
pub fn bases_are_lawful()
    ensures openings { OpeningsAreLawful }
    ensures states { LawfulBasesAreStates }
    ensures runs { RunsLeaveBases }
{}

/// A step of a sound program leads from state to state, and so does a run.
pub fn steps_keep_states()
    ensures steps { StepsKeepStates }
    ensures runs { RunsKeepStates }
    ensures few_tags { StepsGiveFewTags }
{}
