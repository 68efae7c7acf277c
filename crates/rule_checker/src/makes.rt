//! The rules of a `make` at top level.

ghost use Rattle.std.specs.Prelude.{◌≡◌, ◌≤◌, ◌<◌, Ok, length, IfOk, IfErr};
ghost use Rattle.rule_checker.specs.Outcome.{Tells};
ghost use Rattle.rule_checker.specs.Makes.{values_of, make_of};

use crate::classes::{Classes, has_attribute};
use crate::refusal::Refusal;
use ops_text::Sequence;
use rule_base::Value;
use std::alloc::Global;

/// The values that settings give to the attributes of a class.
pub fn values_of(
    alloc: Global,
    attrs: &[u32],
    sets: &[(u32, Value)],
) -> Result<Sequence<Value>, Refusal>
    requires { length attrs.now ≤ 64 }
    ensures ok { IfOk result (λ values. values_of attrs.now sets.now ≡ Ok values) }
    ensures refused { IfErr result (Tells (values_of attrs.now sets.now)) }
{
    let mut values = vec![in alloc; Value::Sym(0); attrs.len()]?;
    for (name, value) in sets {
        let attr = has_attribute(attrs, *name)?;
        values[attr as usize] = *value;
    }
    Ok(Sequence::from_vec(values))
}

/// The class of a `make` by its number, and the values of its attributes.
pub fn make_of(
    alloc: Global,
    classes: &Classes,
    name: u32,
    sets: &[(u32, Value)],
) -> Result<(u32, Sequence<Value>), Refusal>
    ensures ok { IfOk result (λ make. make_of classes.now name sets.now ≡ Ok make) }
    ensures refused { IfErr result (Tells (make_of classes.now name sets.now)) }
{
    let class = classes.declared(name)?;
    let values = values_of(alloc, classes.attributes(class), sets)?;
    Ok((class, values))
}
