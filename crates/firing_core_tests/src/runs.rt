//! Runs to their ending: under both refractions, from a base on which a choice has fired before, and finished a
//! second time.

ghost use Rattle.std.specs.Prelude.{◌≡◌, ◌∷◌, [], ◌^◌, ◌<◌, ◌≤◌, IfOk, Some, length, option_map, slice_get};
ghost use Rattle.std.specs.Bool.{OnTrue};
ghost use Rattle.rule_base.specs.declared.program.Rule.{Rule};
ghost use Rattle.rule_base.specs.Base.{IsLawfulBase};
ghost use Rattle.rule_base.specs.Ending.{IsBudget};
ghost use Rattle.rule_base.specs.Opening.{IsOpening};
ghost use Rattle.rule_base.specs.Sound.{IsSound, sizes_of};

use crate::setting::{opening_of, program_of};
use commit_journal::Journal;
use firing_core::Core;
use firing_workers::{Finished, finish, run_alone};
use ops_text::{OutOfMemory, Sequence};
use rule_base::{Base, Choice, Elements, Program, Refraction};
use std::alloc::Global;
use std::sync::Arc;
use std::test::Fail;

/// The choices that a journal tells, in a line.
fn choices(alloc: Global, journal: &Journal) -> Result<String, OutOfMemory> {
    let mut text = String::new(alloc);
    for place in 0..journal.len() {
        let entry = journal.entry(place);
        let tags = entry.tags;
        text.push_str(&format!(in alloc; "{}{tags:?} ", entry.rule)?)?;
    }
    Ok(text)
}

/// The choices of a run, its ending, how many elements are left, and the next tag.
fn told(alloc: Global, finished: &Finished) -> Result<String, OutOfMemory> {
    let core = &finished.core;
    let choices = choices(alloc, core.journal())?;
    let elements = core.memory_len();
    let next = core.next();
    format!(in alloc;
        "{choices}{:?}, elements {elements}, next {next}",
        finished.ending
    )
}

/// The same of a core that is finished.
fn told_to_end(alloc: Global, core: Core) -> Result<String, OutOfMemory> {
    let finished = finish(alloc, core)?;
    told(alloc, &finished)
}

/// The same of a run, and again when its core is finished a second time.
fn told_twice(alloc: Global, finished: Finished) -> Result<(String, String), OutOfMemory> {
    let once = told(alloc, &finished)?;
    let again = told_to_end(alloc, finished.core)?;
    Ok((once, again))
}

/// The run of a program from its opening.
fn run_from_opening(
    alloc: Global,
    program: Program,
    refraction: Refraction,
    budget: u64,
) -> Result<Finished, Fail>
    requires sound { IsSound program }
    requires few_makes { length program.makes < 2 ^ 32 }
    requires budget { IsBudget budget }
{
    let opening = opening_of(alloc, &program)?;
    let base = Base::opening(alloc, opening, refraction);
    Ok(run_alone(alloc, Arc::new(alloc, program)?, base, budget)?)
}

/// The run of the program of a text from its opening.
fn run_of(alloc: Global, text: &str, refraction: Refraction, budget: u64) -> Result<Finished, Fail>
    requires short { length text.now < 1000 }
    requires budget { IsBudget budget }
{
    let program = program_of(alloc, text)?;
    run_from_opening(alloc, program, refraction, budget)
}

#[test]
fn a_run_ends_by_its_refraction(rt: HostRuntime) -> Result<(), Fail> {
    let blinks = "(literalize a)(literalize b)(make a)\
        (p tick (a) -(b) --> (write tick) (make b))\
        (p clear (b) --> (write clear) (remove 1))";
    let rows = [
        (Refraction::Once, 10, "0[1] 1[2] Quiet, elements 1, next 3"),
        // a tick stops matching by what it makes, and may fire again once that is cleared
        (
            Refraction::Renewed,
            5,
            "0[1] 1[2] 0[1] 1[3] 0[1] Spent { n: 5 }, elements 2, next 5",
        ),
    ];
    for (refraction, budget, want) in rows {
        assert!(rt; 1 <= budget && budget <= 4_000_000);
        let finished = run_of(rt.alloc(), blinks, refraction, budget)?;
        let (once, again) = told_twice(rt.alloc(), finished)?;
        assert_eq!(rt; once.as_str(), want);
        assert_eq!(rt; again.as_str(), want, "finished again");
    }
    Ok(())
}

/// Whether the rule with number 0 has one positive condition element.
fn has_one_positive(program: &Program) -> bool
    ensures { OnTrue result
        (option_map (λ (rule : Rule). rule.positives) (slice_get program.now.rules 0) ≡ Some 1) }
{
    match program.rules.get(0) {
        Some(rule) => rule.positives == 1,
        None => false,
    }
}

/// The choice of the rule with number 0 for the element with tag 1.
fn first_choice(alloc: Global) -> Result<Choice, OutOfMemory>
    ensures { IfOk result (λ choice. choice ≡ record { rule = 0; tags = 1 ∷ [] }) }
{
    let mut tags = Sequence::new(alloc);
    tags.push(1)?;
    Ok(Choice { rule: 0, tags })
}

/// The base with these elements on which the first choice has fired.
fn base_after_first(
    alloc: Global,
    program: &Program,
    elements: Elements,
) -> Result<Base, OutOfMemory>
    requires opening { IsOpening (sizes_of program.now.classes) elements }
    requires positive { option_map (λ (rule : Rule). rule.positives) (slice_get program.now.rules 0) ≡ Some 1 }
    requires some { 1 ≤ length elements }
    ensures { IfOk result (IsLawfulBase program.now) }
{
    let mut base = Base::opening(alloc, elements, Refraction::Once);
    base.fired.push(first_choice(alloc)?)?;
    Ok(base)
}

/// A core that begins there.
fn core_after_first(alloc: Global, program: Program) -> Result<Core, Fail>
    requires sound { IsSound program }
    requires few_makes { length program.makes < 2 ^ 32 }
    requires positive { option_map (λ (rule : Rule). rule.positives) (slice_get program.rules 0) ≡ Some 1 }
{
    let elements = opening_of(alloc, &program)?;
    if elements.is_empty() {
        return Err(Fail::new("no elements"));
    }
    let base = base_after_first(alloc, &program, elements)?;
    Ok(Core::new(alloc, Arc::new(alloc, program)?, base, 10)?)
}

#[test]
fn what_has_fired_before_stays_fired(rt: HostRuntime) -> Result<(), Fail> {
    let program = program_of(
        rt.alloc(),
        "(literalize a)(make a)(make a)(p r (a) --> (write x))",
    )?;
    assert!(rt; has_one_positive(&program));
    let core = core_after_first(rt.alloc(), program)?;
    let told = told_to_end(rt.alloc(), core)?;
    assert_eq!(rt; told.as_str(), "0[2] Quiet, elements 2, next 3");
    Ok(())
}
