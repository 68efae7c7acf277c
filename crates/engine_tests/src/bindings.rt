//! Rows of bindings, which a condition element changes in place.

ghost use Rattle.std.specs.Prelude.{◌≡◌, [], ◌∷◌, IfOk};
ghost use Rattle.rule_base.specs.declared.condition.Test.TheVariants.{Bind};

use element_tests::{Binds, unbind};
use ops_text::{OutOfMemory, Sequence};
use rule_base::{Cond, Test};
use std::alloc::Global;
use std::test::Fail;

/// `^x <v>`
fn binding(alloc: Global) -> Result<Cond, OutOfMemory>
    ensures { IfOk result (λ cond. cond.tests ≡ Bind 0 0 ∷ []) }
{
    let bind = Test::Bind { attr: 0, var: 0 };
    Ok(Cond {
        negated: false,
        class: 3,
        tests: Sequence::from_vec(vec![in alloc; bind]?),
    })
}

#[test]
fn rows_are_copied_and_cleared(rt: HostRuntime) -> Result<(), Fail> {
    let alloc = rt.alloc();
    let mut binds = Binds::new(alloc, 2)?;
    let copy = binds.copy(alloc)?;
    assert!(rt; copy.as_slice() == [None, None].as_slice());
    binds.unset(1);
    binds.clear();
    unbind(&binding(alloc)?, &mut binds);
    assert!(rt; binds.get(0).is_none() && binds.get(1).is_none());
    Ok(())
}
