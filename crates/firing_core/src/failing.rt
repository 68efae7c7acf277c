//! Which condition element of a choice's rule fails in working memory.

ghost use Rattle.std.specs.Prelude.{◌≡◌, ◌+◌, ◌<◌, ◌^◌, IfOk, length};
ghost use Rattle.std.specs.List.{AllByRecursion};
ghost use Rattle.std.specs.Result.{result_err};
ghost use Rattle.rule_base.specs.Match.{match_from};
ghost use Rattle.rule_base.specs.Memory.{HasSize};
ghost use Rattle.rule_base.specs.Sound.{IsSound, sizes_of};
ghost use Rattle.firing_core.specs.Grouped.{IsWholeGroupingOf};
ghost use Rattle.firing_core.specs.Matching.{MayMatch};
ghost use Rattle.firing_core.specs.Refusals.{failing_condition};
ghost use Rattle.firing_core.specs.Store.{memory_in};

use crate::acceptance::accepts;
use crate::grouped::Grouped;
use crate::negation::accepts_some_of;
use crate::store::Store;
use element_tests::Binds;
use ops_text::OutOfMemory;
use rule_base::{Choice, Cond, Program};

/// The number of the first condition element of the choice's rule that fails, from 1, if one does. Where
/// tags are left over behind the last, it is the number past the last; where there is no such rule, none
/// fails. A positive condition element takes one look-up by its tag, and a negated one goes through the
/// elements that `accepts_some_of` names. `binds` is only room: memory is taken where the row has never
/// been so long.
pub fn failing_condition(
    program: &Program,
    store: &Store,
    grouped: &mut Grouped,
    choice: &Choice,
    binds: &mut Binds,
) -> Result<Option<u32>, OutOfMemory>
    requires sound { IsSound program.now }
    requires memory { AllByRecursion (HasSize (sizes_of program.now.classes)) (memory_in store.now) }
    requires grouped { IsWholeGroupingOf grouped.old store.now }
    ensures failing { IfOk result
        (λ number. number ≡ failing_condition program.now (memory_in store.now) choice.now) }
    ensures grouped { IsWholeGroupingOf grouped.new store.now }
{
    let Some(rule) = program.rules.get(choice.rule as usize) else {
        return Ok(None);
    };
    binds.renew(rule.vars)?;
    Ok(failing_from(
        1,
        rule.conds.as_slice(),
        store,
        grouped,
        choice.tags.as_slice(),
        binds,
    ))
}

/// The number of the first of the condition elements from this number on that fails with these tags, under
/// the row's bindings.
fn failing_from(
    number: u32,
    conds: &[Cond],
    store: &Store,
    grouped: &mut Grouped,
    tags: &[u64],
    binds: &mut Binds,
) -> Option<u32>
    requires may { MayMatch conds.now (memory_in store.now) binds.old }
    requires few { number + length conds.now < 2 ^ 32 }
    requires grouped { IsWholeGroupingOf grouped.old store.now }
    ensures failing { result
        ≡ result_err (match_from number conds.now (memory_in store.now) tags.now binds.old) }
    ensures grouped { IsWholeGroupingOf grouped.new store.now }
{
    let Some((cond, conds)) = conds.split_first() else {
        return if tags.is_empty() { None } else { Some(number) };
    };
    if cond.negated {
        if accepts_some_of(cond, store, grouped, binds) {
            return Some(number);
        }
        return failing_from(number + 1, conds, store, grouped, tags, binds);
    }
    let Some((tag, tags)) = tags.split_first() else {
        return Some(number);
    };
    let Some(element) = store.element(*tag) else {
        return Some(number);
    };
    if !accepts(cond, binds, element) {
        return Some(number);
    }
    failing_from(number + 1, conds, store, grouped, tags, binds)
}
