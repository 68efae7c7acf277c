//! The values in actions, whose variables must be bound.

ghost use Rattle.std.specs.Prelude.{◌≡◌, Ok, [], IfOk, IfErr};
ghost use Rattle.rule_checker.specs.Walk.{after_each};
ghost use Rattle.rule_checker.specs.Outcome.{Tells};
ghost use Rattle.rule_checker.specs.Terms.{term_of, item_of, with_item};

use crate::expressions::expression_of;
use crate::refusal::Refusal;
use crate::scope::Scope;
use ops_reader::{FormItem, FormTerm};
use ops_text::Sequence;
use rule_base::{Item, Term};
use std::alloc::Global;

/// The term of a value.
pub fn term_of(alloc: Global, scope: &Scope, term: &FormTerm) -> Result<Term, Refusal>
    ensures ok { IfOk result (λ made. term_of scope.now term.now ≡ Ok made) }
    ensures refused { IfErr result (Tells (term_of scope.now term.now)) }
{
    match term {
        FormTerm::Con(value) => Ok(Term::Con(*value)),
        FormTerm::Name(name) => Ok(Term::Var(scope.bound_to_its_left(*name)?)),
        FormTerm::Compute(expression) => {
            Ok(Term::Compute(expression_of(alloc, scope, expression)?))
        }
    }
}

fn item_of(alloc: Global, scope: &Scope, item: &FormItem) -> Result<Item, Refusal>
    ensures ok { IfOk result (λ made. item_of scope.now item.now ≡ Ok made) }
    ensures refused { IfErr result (Tells (item_of scope.now item.now)) }
{
    match item {
        FormItem::Put(term) => Ok(Item::Put(term_of(alloc, scope, term)?)),
        FormItem::Crlf => Ok(Item::Crlf),
        FormItem::Tabto(column) => Ok(Item::Tabto(*column)),
        FormItem::Rjust(width) => Ok(Item::Rjust(*width)),
    }
}

/// The items of a write.
pub fn items_of(alloc: Global, scope: &Scope, items: &[FormItem]) -> Result<Sequence<Item>, Refusal>
    ensures ok { IfOk result (λ made. after_each (with_item scope.now) [] items.now ≡ Ok made) }
    ensures refused { IfErr result (Tells (after_each (with_item scope.now) [] items.now)) }
{
    let mut made = Sequence::new(alloc);
    for item in items {
        made.push(item_of(alloc, scope, item)?)?;
    }
    Ok(made)
}
