//! The opening memory of a program.

ghost use Rattle.std.specs.Prelude.{◌≡◌, ◌<◌, ◌^◌, Ok, [], length, fold, IfOk, IfErr, OnOk};
ghost use Rattle.rule_base.specs.Sound.{IsSound, sizes_of};
ghost use Rattle.rule_base.specs.Opening.{IsOpening};
ghost use Rattle.rule_checker.specs.Kept.{AreFewClasses};
ghost use Rattle.rule_checker.specs.Outcome.{Tells, TellsForm};
ghost use Rattle.rule_checker.specs.Makes.{make_of};
ghost use Rattle.rule_checker.specs.Opening.{is_make, with_made, with_initial, opening_list};

use crate::classes::{attributes_at, declared_class};
use crate::makes::values_of;
use crate::refusal::{CheckKind, CheckRefusal, Refusal};
use ops_reader::{Form, Forms};
use ops_text::{OutOfMemory, Sequence};
use rule_base::{Class, ElementView, Elements, Program, Value};
use std::alloc::Global;

fn make_of(
    alloc: Global,
    classes: &[Class],
    name: u32,
    sets: &[(u32, Value)],
) -> Result<(u32, Sequence<Value>), Refusal>
    requires { AreFewClasses classes.now }
    ensures ok { IfOk result (λ make. make_of classes.now name sets.now ≡ Ok make) }
    ensures refused { IfErr result (Tells (make_of classes.now name sets.now)) }
{
    let class = declared_class(classes, name)?;
    let values = values_of(alloc, attributes_at(classes, class), sets)?;
    Ok((class, values))
}

fn is_make(alloc: Global, classes: &[Class], form: &Form) -> Result<(u32, Sequence<Value>), Refusal>
    requires { AreFewClasses classes.now }
    ensures ok { IfOk result (λ make. is_make classes.now form.now ≡ Ok make) }
    ensures refused { IfErr result (Tells (is_make classes.now form.now)) }
{
    match form {
        Form::Make { class, sets } => make_of(alloc, classes, *class, sets.as_slice()),
        Form::Literalize { .. } => Err(Refusal::Violated(CheckKind::NotInitial)),
        Form::P { .. } => Err(Refusal::Violated(CheckKind::NotInitial)),
        Form::Strategy { .. } => Err(Refusal::Violated(CheckKind::NotInitial)),
        Form::Watch { .. } => Err(Refusal::Violated(CheckKind::NotInitial)),
    }
}

fn add_element(elements: &mut Elements, class: u32, values: &[Value]) -> Result<(), OutOfMemory>
    ensures { OnOk result (elements.new ≡ with_made elements.old (class, values.now)) }
{
    let tag = elements.len() as u64 + 1;
    elements.push(ElementView { tag, class, values })
}

fn made_elements(alloc: Global, makes: &[(u32, Sequence<Value>)]) -> Result<Elements, OutOfMemory>
    ensures { IfOk result (λ elements. elements ≡ fold with_made [] makes.now) }
{
    let mut elements = Elements::new(alloc);
    for (class, values) in makes {
        add_element(&mut elements, *class, values.as_slice())?;
    }
    Ok(elements)
}

fn add_form(
    alloc: Global,
    classes: &[Class],
    elements: &mut Elements,
    form: &Form,
) -> Result<(), Refusal>
    requires { AreFewClasses classes.now }
    ensures ok { OnOk result
        (with_initial classes.now elements.old form.now ≡ Ok elements.new) }
    ensures refused { IfErr result
        (Tells (with_initial classes.now elements.old form.now)) }
{
    let (class, values) = is_make(alloc, classes, form)?;
    add_element(elements, class, values.as_slice())?;
    Ok(())
}

/// The elements with which a run begins: those of the program's top-level makes and then those of the
/// memory file's, or the first violated rule of the memory file. It goes over both once, and looks through the
/// classes and the attributes of one for each form of the memory file.
pub fn load(alloc: Global, program: &Program, memory: &Forms) -> Result<Elements, CheckRefusal>
    requires { IsSound program.now }
    ensures ok { IfOk result (λ elements. opening_list program.now memory.now ≡ Ok elements) }
    ensures opening { length program.now.makes < 2 ^ 32
        → IfOk result (IsOpening (sizes_of program.now.classes)) }
    ensures refused { IfErr result (TellsForm (opening_list program.now memory.now)) }
{
    let classes = program.classes.as_slice();
    let mut elements = made_elements(alloc, program.makes.as_slice())?;
    let mut loaded = 0;
    for form in memory.as_slice() {
        if let Err(refusal) = add_form(alloc, classes, &mut elements, form) {
            return Err(refusal.at(loaded + 1));
        }
        loaded += 1;
    }
    Ok(elements)
}
