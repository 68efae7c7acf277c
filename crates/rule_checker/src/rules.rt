//! The rules of a program, each of which is found by its name.

ghost use Rattle.std.specs.Prelude.{◌≡◌, Ok, [], IfOk, OnOk, IfErr};
ghost use Rattle.ops_reader.specs.declared.form.Form.TheVariants as form;
ghost use Rattle.ops_reader.specs.Named.{numbers_in_form};
ghost use Rattle.rule_checker.specs.Outcome.{Tells};
ghost use Rattle.rule_checker.specs.Scope.{no_variables};
ghost use Rattle.rule_checker.specs.Kept.{HasRoom};
ghost use Rattle.rule_checker.specs.Rules.{new_rule_name, few_rules, checked_rule, with_rule};

use crate::classes::Classes;
use crate::left_side::left_side;
use crate::names::Names;
use crate::refusal::{CheckKind, Refusal};
use crate::right_side::right_side;
use ops_reader::{FormAction, FormCond};
use ops_text::Sequence;
use rule_base::Rule;
use std::alloc::Global;
use std::marker::Model;

/// The most rules of a program.
const MOST_RULES: usize = 4096;

/// The rules so far.
#[derive(Drop)]
pub struct Rules {
    rules: Vec<Rule>,
    names: Names,
}

impl Model for Rules {
    ghost use Rattle.std.specs.Prelude.{◌≡◌, List};
    ghost use Rattle.rule_base.specs.declared.program.Rule.{Rule};
    ghost use Rattle.std.specs.Coded.{codes};
    ghost use Rattle.rule_base.specs.contracts.expression.Operand as operand;
    ghost use Rattle.rule_checker.specs.Rules.{rule_names};

    ghost Value = { List Rule };

    ghost coded = { Prim.hlevel (codes, operand.the_row.coded) };

    ghost view = { λ r. r.rules.items };

    ghost invariant = { λ r. r.names ≡ rule_names r.rules.items };
}

fn checked_rule(
    alloc: Global,
    classes: &Classes,
    name: u32,
    conds: &[FormCond],
    actions: &[FormAction],
) -> Result<Rule, Refusal>
    requires room { HasRoom no_variables (numbers_in_form (form.P name conds.now actions.now)) }
    ensures ok { IfOk result
        (λ rule. checked_rule classes.now name conds.now actions.now ≡ Ok rule) }
    ensures refused { IfErr result
        (Tells (checked_rule classes.now name conds.now actions.now)) }
{
    let left = left_side(alloc, classes, conds)?;
    let right = right_side(alloc, classes, left.scope, &left.elements, actions)?;
    Ok(Rule {
        name,
        vars: right.scope.vars,
        positives: left.elements.classes.len() as u32,
        conds: left.conds,
        actions: right.actions,
    })
}

impl Rules {
    pub fn new(alloc: Global) -> Rules
        ensures { result ≡ [] }
    {
        Rules {
            rules: Vec::new(alloc),
            names: Names::new(alloc),
        }
    }

    fn new_rule_name(&self, name: u32) -> Result<(), CheckKind>
        ensures { result ≡ new_rule_name self.now name }
    {
        match self.names.number(name) {
            Some(_) => Err(CheckKind::Twice),
            None => Ok(()),
        }
    }

    fn few_rules(&self) -> Result<(), CheckKind>
        ensures { result ≡ few_rules self.now }
    {
        if self.rules.len() >= MOST_RULES {
            return Err(CheckKind::TooMany);
        }
        Ok(())
    }

    /// Adds a rule.
    pub fn add_rule(
        &mut self,
        alloc: Global,
        classes: &Classes,
        name: u32,
        conds: &[FormCond],
        actions: &[FormAction],
    ) -> Result<(), Refusal>
        requires room { HasRoom no_variables (numbers_in_form (form.P name conds.now actions.now)) }
        ensures ok { OnOk result
            (with_rule classes.now self.old name conds.now actions.now ≡ Ok self.new) }
        ensures refused { IfErr result
            (Tells (with_rule classes.now self.old name conds.now actions.now)) }
    {
        self.new_rule_name(name)?;
        self.few_rules()?;
        let rule = checked_rule(alloc, classes, name, conds, actions)?;
        self.rules.reserve(1)?;
        self.names.add(name)?;
        self.rules.push_reserved(rule);
        Ok(())
    }

    /// The list of the rules.
    pub fn into_list(self) -> Sequence<Rule>
        ensures { result ≡ self }
    {
        Sequence::from_vec(self.rules)
    }
}
