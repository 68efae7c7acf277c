//! Laws of the definitions. Each function here does nothing: its contract is the law.

ghost use Rattle.rule_checker.specs.Laws.{CheckedAreSound, CheckedDeclareAll, ViolationsAreFirst, FrontDecides, ProgramKinds, MemoryFileKinds};
ghost use Rattle.rule_checker.specs.WrittenLaws.{RulesMeanWhatIsWritten, ChoicesFireWhatIsWritten, MakesAreWritten, OpeningsAreWritten};
ghost use Rattle.rule_checker.specs.Meanings.{AreTestMeanings, AreMatchMeanings, AreActionMeanings};
ghost use Rattle.rule_checker.specs.Rows.Programs.{ArePrograms};
ghost use Rattle.rule_checker.specs.Rows.Violations.{AreDeclarationViolations, AreConditionViolations, AreActionViolations};
ghost use Rattle.rule_checker.specs.Rows.Openings.{AreOpenings};

/// What short programs are checked to.
pub fn programs()
    ensures { ArePrograms }
{}

/// Which rule a short program violates first.
pub fn violations()
    ensures declarations { AreDeclarationViolations }
    ensures conditions { AreConditionViolations }
    ensures actions { AreActionViolations }
{}

/// What a memory file adds.
pub fn openings()
    ensures { AreOpenings }
{}

/// Checked programs are sound.
pub fn checked_programs_are_sound()
    ensures { CheckedAreSound }
{}

/// A checked program has the classes of its forms, their rules by name and their makes by class, in
/// their order and no others.
pub fn checked_programs_declare_all()
    ensures { CheckedDeclareAll }
{}

/// The first violation is where the forms before it are those of a program to which its form can't be
/// added, and there alone. So forms behind it don't matter.
pub fn violations_are_first()
    ensures first { ViolationsAreFirst }
    ensures front { FrontDecides }
{}

/// Violations of a program are never of the kind that only a memory file has, and those of a memory file
/// are of three kinds.
pub fn violations_are_of_these_kinds()
    ensures program { ProgramKinds }
    ensures memory_file { MemoryFileKinds }
{}

/// The rules of a checked program are those of its forms, in their order, and each means what is written:
/// its condition elements accept the same elements, it matches with the same tags, and it changes and
/// writes the same. What is written is said over names and values alone. So the choices that match are those
/// of the text in every memory, and what they do is what it says.
pub fn rules_mean_what_is_written()
    ensures rules { RulesMeanWhatIsWritten }
    ensures choices { ChoicesFireWhatIsWritten }
{}

/// The makes of a checked program are those of its forms, and its opening memory has what they and those of
/// the memory file make, in their order, with the attributes that are written.
pub fn makes_mean_what_is_written()
    ensures makes { MakesAreWritten }
    ensures opening { OpeningsAreWritten }
{}

/// What short rules mean as they are written.
pub fn meanings()
    ensures tests { AreTestMeanings }
    ensures matches { AreMatchMeanings }
    ensures actions { AreActionMeanings }
{}
