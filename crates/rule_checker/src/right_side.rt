//! The right-hand side of a rule: its actions, from the first to the last.

ghost use Rattle.std.specs.Prelude.{◌≡◌, ◌+◌, ◌^◌, ◌<◌, ◌≤◌, Ok, [], length, IfOk, OnOk, IfErr, IsOkUnless};
ghost use Rattle.std.specs.List.{flat_map};
ghost use Rattle.ops_reader.specs.declared.form.At.TheVariants.{Number as by_number};
ghost use Rattle.ops_reader.specs.Named.{numbers_in_action};
ghost use Rattle.rule_checker.specs.declared.refusal.Refusal.TheVariants.{OutOfMemory as no_memory};
ghost use Rattle.rule_checker.specs.Walk.{after_each};
ghost use Rattle.rule_checker.specs.Outcome.{Tells};
ghost use Rattle.rule_checker.specs.Scope.{variable_of};
ghost use Rattle.rule_checker.specs.Kept.{HasRoom, GrowsWithin};
ghost use Rattle.rule_checker.specs.RightSide.{few_actions, known_designator, setting_of, with_setting, with_designator, make_action, attributes_of, modify_action, set_variable, with_plain_action, bind_action, after_action, with_action, right_side};

use crate::classes::{Classes, has_attribute};
use crate::left_side::Elements;
use crate::refusal::{CheckKind, Refusal};
use crate::scope::Scope;
use crate::terms::{items_of, term_of};
use ops_reader::{At, FormAction, FormTerm};
use ops_text::Sequence;
use rule_base::{Action, Term};
use std::alloc::Global;

/// The most actions of a rule.
const MOST_ACTIONS: usize = 64;

/// The actions of a rule so far, and the rule's variables behind them.
#[derive(Drop)]
pub struct RightSide {
    pub actions: Sequence<Action>,
    pub scope: Scope,
}

fn known_designator(elements: &Elements, at: &At) -> Result<u32, CheckKind>
    requires { length elements.now.classes ≤ 32 }
    ensures { result ≡ known_designator elements.now at.now }
{
    match at {
        At::Number(number) => numbered_element(elements, *number),
        At::Name(name) => match elements.names.number(*name) {
            Some(place) => Ok(place),
            None => Err(CheckKind::BadDesignator),
        },
    }
}

fn numbered_element(elements: &Elements, number: i64) -> Result<u32, CheckKind>
    requires { length elements.now.classes ≤ 32 }
    ensures { result ≡ known_designator elements.now (by_number number) }
{
    if 1 <= number && number <= elements.classes.len() as i64 {
        return Ok((number - 1) as u32);
    }
    Err(CheckKind::BadDesignator)
}

fn setting_of(
    alloc: Global,
    attrs: &[u32],
    scope: &Scope,
    set: &(u32, FormTerm),
) -> Result<(u32, Term), Refusal>
    requires { length attrs.now ≤ 64 }
    ensures ok { IfOk result (λ setting. setting_of attrs.now scope.now set.now ≡ Ok setting) }
    ensures refused { IfErr result (Tells (setting_of attrs.now scope.now set.now)) }
{
    let attr = has_attribute(attrs, set.0)?;
    let term = term_of(alloc, scope, &set.1)?;
    Ok((attr, term))
}

fn settings_of(
    alloc: Global,
    attrs: &[u32],
    scope: &Scope,
    sets: &[(u32, FormTerm)],
) -> Result<Sequence<(u32, Term)>, Refusal>
    requires { length attrs.now ≤ 64 }
    ensures ok { IfOk result
        (λ done. after_each (with_setting attrs.now scope.now) [] sets.now ≡ Ok done) }
    ensures refused { IfErr result
        (Tells (after_each (with_setting attrs.now scope.now) [] sets.now)) }
{
    let mut done = Sequence::new(alloc);
    for set in sets {
        done.push(setting_of(alloc, attrs, scope, set)?)?;
    }
    Ok(done)
}

fn designators_of(
    alloc: Global,
    elements: &Elements,
    places: &[At],
) -> Result<Sequence<u32>, Refusal>
    requires { length elements.now.classes ≤ 32 }
    ensures ok { IfOk result
        (λ done. after_each (with_designator elements.now) [] places.now ≡ Ok done) }
    ensures refused { IfErr result
        (Tells (after_each (with_designator elements.now) [] places.now)) }
{
    let mut done = Sequence::new(alloc);
    for at in places {
        done.push(known_designator(elements, at)?)?;
    }
    Ok(done)
}

fn make_action(
    alloc: Global,
    classes: &Classes,
    scope: &Scope,
    name: u32,
    sets: &[(u32, FormTerm)],
) -> Result<Action, Refusal>
    ensures ok { IfOk result
        (λ action. make_action classes.now scope.now name sets.now ≡ Ok action) }
    ensures refused { IfErr result (Tells (make_action classes.now scope.now name sets.now)) }
{
    let class = classes.declared(name)?;
    let attrs = classes.attributes(class);
    let sets = settings_of(alloc, attrs, scope, sets)?;
    let size = attrs.len() as u32;
    Ok(Action::Make { class, size, sets })
}

fn attributes_of<'a>(classes: &'a Classes, elements: &Elements, at: u32) -> &'a [u32]
    ensures attributes { result.now ≡ attributes_of classes.now elements.now at }
    ensures few { length result.now ≤ 64 }
{
    match elements.classes.get(at as usize) {
        Some(class) => classes.attributes(*class),
        None => &[],
    }
}

fn modify_action(
    alloc: Global,
    classes: &Classes,
    elements: &Elements,
    scope: &Scope,
    at: &At,
    sets: &[(u32, FormTerm)],
) -> Result<Action, Refusal>
    requires { length elements.now.classes ≤ 32 }
    ensures ok { IfOk result
        (λ a. modify_action classes.now elements.now scope.now at.now sets.now ≡ Ok a) }
    ensures refused { IfErr result
        (Tells (modify_action classes.now elements.now scope.now at.now sets.now)) }
{
    let at = known_designator(elements, at)?;
    let attrs = attributes_of(classes, elements, at);
    let sets = settings_of(alloc, attrs, scope, sets)?;
    Ok(Action::Modify { at, sets })
}

fn set_variable(scope: &mut Scope, name: u32) -> Result<u32, Refusal>
    requires room { scope.old.vars + 1 < 2 ^ 32 }
    ensures ok { IfOk result
        (λ var. (var, scope.new) ≡ set_variable scope.old name (variable_of scope.old name)) }
    ensures count { OnOk result (scope.new.vars ≤ scope.old.vars + 1) }
    ensures err { IsOkUnless result no_memory }
{
    match scope.variable(name) {
        Some(var) => Ok(var),
        None => Ok(scope.add(false, name)?),
    }
}

impl RightSide {
    fn few_actions(&self) -> Result<(), CheckKind>
        ensures { result ≡ few_actions self.now }
    {
        if self.actions.len() >= MOST_ACTIONS {
            return Err(CheckKind::TooMany);
        }
        Ok(())
    }

    fn add(&mut self, action: Action) -> Result<(), Refusal>
        ensures ok { OnOk result (self.new ≡ with_plain_action self.old action) }
        ensures err { IsOkUnless result no_memory }
    {
        self.actions.push(action)?;
        Ok(())
    }

    fn add_bind(&mut self, alloc: Global, name: u32, term: &FormTerm) -> Result<(), Refusal>
        requires room { self.old.scope.vars + 1 < 2 ^ 32 }
        ensures ok { OnOk result (bind_action self.old name term.now ≡ Ok self.new) }
        ensures count { OnOk result (self.new.scope.vars ≤ self.old.scope.vars + 1) }
        ensures refused { IfErr result (Tells (bind_action self.old name term.now)) }
    {
        let term = term_of(alloc, &self.scope, term)?;
        let var = set_variable(&mut self.scope, name)?;
        self.actions.push(Action::Bind { var, term })?;
        Ok(())
    }

    fn add_action(
        &mut self,
        alloc: Global,
        classes: &Classes,
        elements: &Elements,
        action: &FormAction,
    ) -> Result<(), Refusal>
        requires elements { length elements.now.classes ≤ 32 }
        requires room { HasRoom self.old.scope (numbers_in_action action.now) }
        ensures ok { OnOk result
            (after_action classes.now elements.now self.old action.now ≡ Ok self.new) }
        ensures count { OnOk result
            (GrowsWithin self.old.scope (numbers_in_action action.now) self.new.scope) }
        ensures refused { IfErr result
            (Tells (after_action classes.now elements.now self.old action.now)) }
    {
        match action {
            FormAction::Make { class, sets } => {
                let made = make_action(alloc, classes, &self.scope, *class, sets.as_slice())?;
                self.add(made)
            }
            FormAction::Modify { at, sets } => {
                let made = modify_action(
                    alloc,
                    classes,
                    elements,
                    &self.scope,
                    at,
                    sets.as_slice(),
                )?;
                self.add(made)
            }
            FormAction::Remove { at } => {
                let at = designators_of(alloc, elements, at.as_slice())?;
                self.add(Action::Remove { at })
            }
            FormAction::Bind { name, term } => self.add_bind(alloc, *name, term),
            FormAction::Write { items } => {
                let items = items_of(alloc, &self.scope, items.as_slice())?;
                self.add(Action::Write { items })
            }
            FormAction::Halt => self.add(Action::Halt),
        }
    }

    fn add_next(
        &mut self,
        alloc: Global,
        classes: &Classes,
        elements: &Elements,
        action: &FormAction,
    ) -> Result<(), Refusal>
        requires elements { length elements.now.classes ≤ 32 }
        requires room { HasRoom self.old.scope (numbers_in_action action.now) }
        ensures ok { OnOk result
            (with_action classes.now elements.now self.old action.now ≡ Ok self.new) }
        ensures count { OnOk result
            (GrowsWithin self.old.scope (numbers_in_action action.now) self.new.scope) }
        ensures refused { IfErr result
            (Tells (with_action classes.now elements.now self.old action.now)) }
    {
        self.few_actions()?;
        self.add_action(alloc, classes, elements, action)
    }
}

/// The right-hand side of a rule with these variables and elements.
pub fn right_side(
    alloc: Global,
    classes: &Classes,
    scope: Scope,
    elements: &Elements,
    actions: &[FormAction],
) -> Result<RightSide, Refusal>
    requires elements { length elements.now.classes ≤ 32 }
    requires room { HasRoom scope (flat_map numbers_in_action actions.now) }
    ensures ok { IfOk result
        (λ right. right_side classes.now scope elements.now actions.now ≡ Ok right) }
    ensures refused { IfErr result
        (Tells (right_side classes.now scope elements.now actions.now)) }
{
    let mut right = RightSide {
        actions: Sequence::new(alloc),
        scope,
    };
    for action in actions {
        right.add_next(alloc, classes, elements, action)?;
    }
    Ok(right)
}
