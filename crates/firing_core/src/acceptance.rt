//! Acceptance, where nobody counts the steps.

ghost use Rattle.std.specs.Prelude.{◌≡◌, Some, None, length};
ghost use Rattle.std.specs.Bool.{OnTrue, OnFalse};
ghost use Rattle.rule_base.specs.Acceptance.{accepts};
ghost use Rattle.rule_base.specs.Views.{element_in};
ghost use Rattle.element_tests.specs.Asking.{MayAsk};

use element_tests::Binds;
use rule_base::{Cond, ElementView, Steps};
use std::marker::Brand;
use std::sync::ledger::{Blank, Ledger};

/// Whether the condition element accepts the element. The row then has the new bindings, and is else
/// as before.
pub fn accepts(cond: &Cond, binds: &mut Binds, element: ElementView<'_>) -> bool
    requires { MayAsk cond.now binds.old (element_in element) }
    ensures accepted { OnTrue result
        (accepts cond.now binds.old (element_in element.entry) ≡ Some binds.new) }
    ensures refused { OnFalse result
        (accepts cond.now binds.old (element_in element.entry) ≡ None) }
    ensures kept { OnFalse result (binds.new ≡ binds.old) }
    ensures places { length binds.new ≡ length binds.old }
{
    accepts_on::<Brand>(cond, binds, element, Blank::new(1))
}

/// The same, on a ledger of its own.
fn accepts_on<L: Ledger>(
    cond: &Cond,
    binds: &mut Binds,
    element: ElementView<'_>,
    blank: Blank,
) -> bool
    requires may { MayAsk cond.now binds.old (element_in element) }
    requires name { blank.name ≡ L.name }
    requires parts { blank.parts ≡ L.parts }
    requires one { blank.parts ≡ 1 }
    ensures accepted { OnTrue result
        (accepts cond.now binds.old (element_in element.entry) ≡ Some binds.new) }
    ensures refused { OnFalse result
        (accepts cond.now binds.old (element_in element.entry) ≡ None) }
    ensures kept { OnFalse result (binds.new ≡ binds.old) }
    ensures places { length binds.new ≡ length binds.old }
{
    let mut steps = Steps::<L>::new(blank);
    element_tests::accepts(cond, binds, element, &mut steps)
}
