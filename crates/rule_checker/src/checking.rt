//! The checked program of forms.

ghost use Rattle.std.specs.Prelude.{◌≡◌, ◌≤◌, Ok, length, IfOk, OnOk, IfErr};
ghost use Rattle.rule_base.specs.declared.program.Program.{Program};
ghost use Rattle.rule_base.specs.Sound.{IsSound};
ghost use Rattle.ops_reader.specs.Named.{numbers_in_form};
ghost use Rattle.rule_checker.specs.Outcome.{Tells, TellsForm};
ghost use Rattle.rule_checker.specs.Scope.{no_variables};
ghost use Rattle.rule_checker.specs.Kept.{HasRoom};
ghost use Rattle.rule_checker.specs.Checked.{with_make, with_form, no_program, checked};

use crate::classes::Classes;
use crate::makes::make_of;
use crate::refusal::{CheckRefusal, Refusal};
use crate::rules::Rules;
use ops_reader::{Form, Forms};
use ops_text::Sequence;
use rule_base::{Program, Value};
use std::alloc::Global;
use std::marker::Model;

/// The program of the forms so far.
#[derive(Drop)]
struct Declarations {
    classes: Classes,
    rules: Rules,
    makes: Sequence<(u32, Sequence<Value>)>,
}

impl Model for Declarations {
    ghost use Rattle.std.specs.Coded.{codes};
    ghost use Rattle.rule_base.specs.declared.program.Program.{Program};
    ghost use Rattle.rule_base.specs.contracts.expression.Operand as operand;

    ghost Value = { Program };

    ghost coded = { Prim.hlevel (codes, operand.the_row.coded) };

    ghost view = { λ d. record { classes = d.classes; rules = d.rules; makes = d.makes } };
}

impl Declarations {
    fn new(alloc: Global) -> Declarations
        ensures { result ≡ no_program }
    {
        Declarations {
            classes: Classes::new(alloc),
            rules: Rules::new(alloc),
            makes: Sequence::new(alloc),
        }
    }

    fn add_make(&mut self, alloc: Global, class: u32, sets: &[(u32, Value)]) -> Result<(), Refusal>
        ensures ok { OnOk result (with_make self.old class sets.now ≡ Ok self.new) }
        ensures refused { IfErr result (Tells (with_make self.old class sets.now)) }
    {
        let make = make_of(alloc, &self.classes, class, sets)?;
        self.makes.push(make)?;
        Ok(())
    }

    /// Adds what a form declares. After a refusal the program is good for nothing.
    fn add_form(&mut self, alloc: Global, form: &Form) -> Result<(), Refusal>
        requires room { HasRoom no_variables (numbers_in_form form.now) }
        ensures ok { OnOk result (with_form self.old form.now ≡ Ok self.new) }
        ensures refused { IfErr result (Tells (with_form self.old form.now)) }
    {
        match form {
            Form::Literalize { class, attrs } => {
                self.classes.add_class(alloc, *class, attrs.as_slice())
            }
            Form::P {
                name,
                conds,
                actions,
            } => self.rules.add_rule(
                alloc,
                &self.classes,
                *name,
                conds.as_slice(),
                actions.as_slice(),
            ),
            Form::Make { class, sets } => self.add_make(alloc, *class, sets.as_slice()),
            Form::Strategy { .. } => Ok(()),
            Form::Watch { .. } => Ok(()),
        }
    }

    fn into_program(self) -> Program
        ensures { result ≡ self }
    {
        Program {
            classes: self.classes.into_list(),
            rules: self.rules.into_list(),
            makes: self.makes,
        }
    }
}

/// The program of these forms, or the first violated rule: the number of its form, from 1, and its kind. It goes over
/// the forms once and takes time in proportion to them, but for the attributes of a class, which are looked through.
pub fn check(alloc: Global, forms: &Forms) -> Result<Program, CheckRefusal>
    ensures ok { IfOk result (λ program. checked forms.now ≡ Ok program) }
    ensures sound { IfOk result IsSound }
    ensures makes { IfOk result (λ program. length program.makes ≤ length forms.now) }
    ensures refused { IfErr result (TellsForm (checked forms.now)) }
{
    let mut declarations = Declarations::new(alloc);
    let mut checked = 0;
    for form in forms.as_slice() {
        if let Err(refusal) = declarations.add_form(alloc, form) {
            return Err(refusal.at(checked + 1));
        }
        checked += 1;
    }
    Ok(declarations.into_program())
}
