//! The actions of a right-hand side: each adds to an effect, or binds a variable.

ghost use Rattle.std.specs.Prelude.{◌≡◌, Ok, Err, IfErr, OnOk, option_map, slice_get};
ghost use Rattle.rule_base.specs.Bindings.{Bindings};
ghost use Rattle.rule_base.specs.Views.{element_in};
ghost use Rattle.rule_base.specs.Term.{term_value};
ghost use Rattle.rule_base.specs.Effect.{after_action, after_modify, after_remove};
ghost use Rattle.rhs_actions.specs.Refusals.{Tells};
ghost use Rattle.rhs_actions.specs.Acting.{after_bind, after_removes, reached};

use crate::Effect;
use crate::bindings::bind;
use crate::refusal::Stop;
use crate::terms::term_value;
use element_tests::Binds;
use ops_text::OutOfMemory;
use rule_base::{Action, ElementView, Elements, FaultCause, Term};

/// Does one action.
pub(crate) fn act(
    elements: &Elements,
    action: &Action,
    binds: &mut Binds,
    effect: &mut Effect,
) -> Result<(), Stop>
    ensures ok { OnOk result
        (after_action elements.now action.now (reached binds.old effect.old) ≡
        Ok (reached binds.new effect.new)) }
    ensures failed { IfErr result
        (Tells (after_action elements.now action.now (reached binds.old effect.old))) }
{
    match action {
        Action::Make { class, size, sets } => effect.make(*class, *size, sets.as_slice(), binds),
        Action::Modify { at, sets } => modify(elements, *at, sets.as_slice(), binds, effect),
        Action::Remove { at } => {
            remove_all(elements, at.as_slice(), effect)?;
            Ok(())
        }
        Action::Bind { var, term } => {
            bind_term(*var, term, binds)?;
            Ok(())
        }
        Action::Write { items } => effect.write(items.as_slice(), binds),
        Action::Halt => {
            effect.halt();
            Ok(())
        }
    }
}

/// Modifies the designated element, unless the firing has removed or modified it.
fn modify(
    elements: &Elements,
    at: u32,
    sets: &[(u32, Term)],
    binds: &Binds,
    effect: &mut Effect,
) -> Result<(), Stop>
    ensures ok { OnOk result
        (after_modify (slice_get elements.now at) sets.now (reached binds.now effect.old) ≡
        Ok (reached binds.now effect.new)) }
    ensures failed { IfErr result
        (Tells
        (after_modify (slice_get elements.now at) sets.now (reached binds.now effect.old))) }
{
    match designated(elements, at) {
        Some(element) if !effect.is_gone(element.tag) => effect.modify(element, sets, binds),
        _ => Err(Stop::Fails(FaultCause::Gone)),
    }
}

/// Removes the designated elements, one after another.
fn remove_all(elements: &Elements, at: &[u32], effect: &mut Effect) -> Result<(), OutOfMemory>
    ensures { OnOk result
        ((b : Bindings) → after_removes elements.now at.now (reached b effect.old) ≡ reached b effect.new) }
{
    for place in at {
        remove(elements, *place, effect)?;
    }
    Ok(())
}

/// Removes the designated element, unless the firing has removed or modified it.
fn remove(elements: &Elements, at: u32, effect: &mut Effect) -> Result<(), OutOfMemory>
    ensures { OnOk result
        ((b : Bindings) →
        after_remove (slice_get elements.now at) (reached b effect.old) ≡ reached b effect.new) }
{
    match designated(elements, at) {
        Some(element) if !effect.is_gone(element.tag) => effect.remove(element.tag),
        _ => Ok(()),
    }
}

/// The element that a designator counts from 0, if there is one.
fn designated(elements: &Elements, at: u32) -> Option<ElementView<'_>>
    ensures { option_map element_in result ≡ slice_get elements.now at }
{
    let at = at as usize;
    if at < elements.len() {
        Some(elements.at(at))
    } else {
        None
    }
}

/// Gives the variable what the term gives.
fn bind_term(var: u32, term: &Term, binds: &mut Binds) -> Result<(), FaultCause>
    ensures ok { OnOk result (after_bind binds.old var term.now ≡ Ok binds.new) }
    ensures failed { IfErr result (λ cause. term_value binds.old term.now ≡ Err cause) }
{
    let value = term_value(binds, term)?;
    bind(var, value, binds);
    Ok(())
}
