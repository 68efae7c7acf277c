//! The effect of a firing: all actions of a rule, one after another.

ghost use Rattle.std.specs.Prelude.{◌≡◌, ◌<◌, ◌≤◌, IfErr, IfOk, IsSome, Ok, OnOk, length};
ghost use Rattle.rule_base.specs.ElementMatch.{bindings_with};
ghost use Rattle.rule_base.specs.Effect.{effect};
ghost use Rattle.rule_base.specs.Sound.{IsSound};
ghost use Rattle.rhs_actions.specs.Outcomes.{rule_at};
ghost use Rattle.rhs_actions.specs.Fire.{IsFiringOf, IsRefusalOf};
ghost use Rattle.rhs_actions.specs.Refusals.{TellsFailure};

use crate::actions::act;
use crate::bindings::begin;
use crate::{Delta, Effect, EffectRefusal, Failed, FireRefusal};
use element_tests::Binds;
use rule_base::{Elements, Program, Rule};
use std::alloc::Global;
use std::sync::Arc;

/// Fires a rule of the program with the elements of its positive condition elements, which accept them:
/// what comes of it is its effect, or its first failing action.
pub fn fire(
    alloc: Global,
    program: &Arc<Program>,
    rule: u32,
    elements: Elements,
) -> Result<Delta, FireRefusal>
    requires sound { IsSound program.now.value }
    requires there { rule < length program.now.value.rules }
    requires accepted { IsSome (bindings_with (rule_at program.now.value rule) elements) }
    ensures ok { IfOk result (IsFiringOf program.now.value rule elements) }
    ensures failed { IfErr result (IsRefusalOf program.now.value rule elements) }
{
    let program = Arc::try_clone(program)?;
    let mut binds = Binds::new(alloc, 0)?;
    let mut done = Effect::new(alloc);
    let fired = fire_into(
        &program.rules.as_slice()[rule as usize],
        &elements,
        &mut binds,
        &mut done,
    );
    match fired {
        Ok(()) => Ok(Delta::new(program, rule, elements, done)),
        Err(EffectRefusal::Failed { action, cause }) => Err(FireRefusal::Failed(Failed::new(
            program, rule, elements, action, cause,
        ))),
        Err(EffectRefusal::OutOfMemory) => Err(FireRefusal::OutOfMemory),
    }
}

/// Makes an effect the one of firing the rule with the elements of its positive condition elements, which
/// accept them. The row and the effect are only room: what they held is gone, and after a refusal what
/// they hold is left open. A firing takes memory only where they have never held so much.
pub fn fire_into(
    rule: &Rule,
    elements: &Elements,
    binds: &mut Binds,
    done: &mut Effect,
) -> Result<(), EffectRefusal>
    requires few { length rule.now.actions ≤ 64 }
    requires accepted { IsSome (bindings_with rule.now elements.now) }
    ensures ok { OnOk result (effect rule.now elements.now ≡ Ok done.new) }
    ensures failed { IfErr result (TellsFailure (effect rule.now elements.now)) }
{
    begin(rule, elements, binds)?;
    done.clear();
    for (at, action) in rule.actions.as_slice().iter().enumerate() {
        if let Err(stop) = act(elements, action, binds, done) {
            return Err(stop.at(at as u32 + 1));
        }
    }
    Ok(())
}
