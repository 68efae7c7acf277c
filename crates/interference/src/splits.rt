//! Splits: by which attribute a class falls into regions.

ghost use Rattle.std.specs.Prelude.{◌≡◌, ◌≤◌, ◌<◌, ◌*◌, Some, IfOk, length, slice_get};
ghost use Rattle.std.specs.List.{AllByRecursion};
ghost use Rattle.rule_base.specs.Sound.{IsSound};
ghost use Rattle.interference.specs.Pins.{pins};
ghost use Rattle.interference.specs.Splits.{is_pinning, pin_count, split, splits_by, splits_of, split_of};
ghost use Rattle.interference.specs.Counting.{FewConds, pinning_count};

use crate::given::first_pin;
use ops_text::OutOfMemory;
use rule_base::{Class, Cond, Program, Rule};
use std::alloc::Global;
use std::marker::Model;

/// The splits of a program's classes: of each the number of an attribute, or none.
#[derive(Drop)]
pub struct Splits {
    attributes: Vec<Option<u32>>,
}

impl Model for Splits {
    ghost use Rattle.std.specs.Prelude.{ℕ, List, Option};

    ghost Value = { List (Option ℕ) };

    ghost view = { λ splits. splits.attributes.items };
}

impl Splits {
    /// The splits of a program's classes. For each attribute of each class it goes through the condition
    /// elements of all rules.
    pub fn new(alloc: Global, program: &Program) -> Result<Splits, OutOfMemory>
        requires sound { IsSound program.now }
        ensures { IfOk result (λ splits. splits ≡ splits_of program.now) }
    {
        Ok(Splits {
            attributes: splits_by(alloc, program.rules.as_slice(), program.classes.as_slice())?,
        })
    }

    /// The split of a class, if it has one.
    pub fn of(&self, class: u32) -> Option<u32>
        ensures { result ≡ split_of self.now class }
    {
        match self.attributes.get(class as usize) {
            Some(attribute) => *attribute,
            None => None,
        }
    }
}

/// The splits of classes, in order.
fn splits_by(
    alloc: Global,
    rules: &[Rule],
    classes: &[Class],
) -> Result<Vec<Option<u32>>, OutOfMemory>
    requires few_rules { length rules.now ≤ 4096 }
    requires few_conds { AllByRecursion FewConds rules.now }
    requires few_classes { length classes.now ≤ 256 }
    requires few_attributes { AllByRecursion (λ c. length c.attrs ≤ 64) classes.now }
    ensures { IfOk result (λ splits. splits.items ≡ splits_by rules.now classes.now) }
{
    let mut splits = Vec::new(alloc);
    for at in 0..classes.len() {
        let size = classes[at].attrs.len();
        splits.push(split(rules, at as u32, size as u32))?;
    }
    Ok(splits)
}

/// The first attribute that most negated condition elements of the class pin.
fn split(rules: &[Rule], class: u32, size: u32) -> Option<u32>
    requires few_rules { length rules.now ≤ 4096 }
    requires few_conds { AllByRecursion FewConds rules.now }
    ensures { result ≡ split rules.now class size }
{
    let mut most = 0;
    let mut split = None;
    for attr in 0..size {
        let count = pin_count(rules, class, attr);
        if most < count {
            most = count;
            split = Some(attr);
        }
    }
    split
}

/// How many negated condition elements of the class pin the attribute.
fn pin_count(rules: &[Rule], class: u32, attr: u32) -> usize
    requires few_rules { length rules.now ≤ 4096 }
    requires few_conds { AllByRecursion FewConds rules.now }
    ensures { result ≡ pin_count rules.now class attr }
{
    let mut count = 0;
    for rule in rules {
        count += pinning_count(rule.conds.as_slice(), class, attr);
    }
    count
}

/// How many of a rule's do.
fn pinning_count(conds: &[Cond], class: u32, attr: u32) -> usize
    ensures count { result ≡ pinning_count class attr conds.now }
    ensures few { result ≤ length conds.now }
{
    let mut count = 0;
    for cond in conds {
        if is_pinning(conds, cond, class, attr) {
            count += 1;
        }
    }
    count
}

/// Whether a condition element is a negated one of the class, and pins the attribute.
fn is_pinning(conds: &[Cond], cond: &Cond, class: u32, attr: u32) -> bool
    ensures { result ≡ is_pinning class attr conds.now cond.now }
{
    cond.negated && cond.class == class && first_pin(conds, attr, cond).is_some()
}
