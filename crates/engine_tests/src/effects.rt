//! What a firing does, as a value of its own.

ghost use Rattle.std.specs.Prelude.{◌^◌, ◌<◌, IsSome, length};
ghost use Rattle.std.specs.Bool.{OnTrue};
ghost use Rattle.rule_base.specs.ElementMatch.{bindings_with};
ghost use Rattle.rule_base.specs.Sound.{IsSound};
ghost use Rattle.rhs_actions.specs.Outcomes.{rule_at};

use crate::setting::{opening_of, program_of};
use ops_text::OutOfMemory;
use rhs_actions::{ChangeView, Delta, Failed, FireRefusal, fire};
use rule_base::{Cond, Elements, Program};
use std::alloc::Global;
use std::sync::Arc;
use std::test::Fail;

/// Whether the rule with number 0 has one condition element alone, which accepts the one element by its class.
fn accepts_by_class(program: &Program, elements: &Elements) -> bool
    ensures there { OnTrue result (0 < length program.now.rules) }
    ensures accepted { OnTrue result (IsSome (bindings_with (rule_at program.now 0) elements.now)) }
{
    let Some(rule) = program.rules.get(0) else {
        return false;
    };
    let conds = rule.conds.as_slice();
    if conds.len() != 1 || elements.len() != 1 {
        return false;
    }
    let cond = &conds[0];
    !cond.negated && cond.tests.is_empty() && cond.class == elements.at(0).class
}

/// What a firing does, in a line.
fn told_delta(alloc: Global, delta: &Delta) -> Result<String, OutOfMemory> {
    let effect = delta.effect();
    let mut text = String::new(alloc);
    for at in 0..effect.len() {
        let change = match effect.change(at) {
            ChangeView::Remove(tag) => format!(in alloc; "-{tag} ")?,
            ChangeView::Make { class, values } => format!(in alloc; "+{class}{values:?} ")?,
        };
        text.push_str(&change)?;
    }
    format!(in alloc;
        "{text}made {} with {}, {:?}, halts {}, of {} and {}",
        effect.makes(),
        effect.made_values(),
        effect.pieces(),
        effect.halts(),
        delta.rule().positives,
        delta.elements().len()
    )
}

/// Which action of a firing fails and why, in a line.
fn told_failed(alloc: Global, failed: &Failed) -> Result<String, OutOfMemory> {
    format!(in alloc;
        "action {} of {}: {:?}, of {}",
        failed.action(),
        failed.rule().actions.len(),
        failed.cause(),
        failed.elements().len()
    )
}

/// What comes of firing the rule with number 0 with the elements of the opening.
fn fired(alloc: Global, program: Program) -> Result<Result<Delta, FireRefusal>, Fail>
    requires sound { IsSound program }
    requires few_makes { length program.makes < 2 ^ 32 }
{
    let elements = opening_of(alloc, &program)?;
    if !accepts_by_class(&program, &elements) {
        return Err(Fail::new("not accepted"));
    }
    let program = Arc::new(alloc, program)?;
    Ok(fire(alloc, &program, 0, elements))
}

/// The firing of the rule with number 0 with the elements of the opening.
pub fn firing_of(alloc: Global, program: Program) -> Result<Delta, Fail>
    requires sound { IsSound program }
    requires few_makes { length program.makes < 2 ^ 32 }
{
    match fired(alloc, program)? {
        Ok(delta) => Ok(delta),
        Err(_) => Err(Fail::new("no effect")),
    }
}

/// What comes of the firing, in a line.
fn told_firing(alloc: Global, program: Program) -> Result<String, Fail>
    requires sound { IsSound program }
    requires few_makes { length program.makes < 2 ^ 32 }
{
    match fired(alloc, program)? {
        Ok(delta) => Ok(told_delta(alloc, &delta)?),
        Err(FireRefusal::Failed(failed)) => Ok(told_failed(alloc, &failed)?),
        Err(FireRefusal::OutOfMemory) => Err(Fail::new("out of memory")),
    }
}

#[test]
fn a_firing_is_its_effect_or_its_first_failing_action(rt: HostRuntime) -> Result<(), Fail> {
    let rows = [
        (
            "(literalize a x y)(make a ^x 3)\
             (p r (a) --> (modify 1 ^y 4) (make a ^x 7) (write 8) (halt))",
            "-1 +0[Int(3), Int(4)] +0[Int(7), Sym(0)] \
             made 2 with 4, [Put(Int(8))], halts true, of 1 and 1",
        ),
        (
            "(literalize a x)(make a)\
             (p r (a) --> (write 1) (make a ^x (compute 1 // 0)) (make a ^x (compute 1 // 0)))",
            "action 2 of 3: DivideByZero, of 1",
        ),
    ];
    for (text, want) in rows {
        let program = program_of(rt.alloc(), text)?;
        assert!(rt; program.makes.len() == 1);
        assert_eq!(rt; told_firing(rt.alloc(), program)?.as_str(), want);
    }
    Ok(())
}
