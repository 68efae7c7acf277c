//! The classes of a program: the rules of `literalize`, and how later forms find a class.

ghost use Rattle.std.specs.Prelude.{◌≡◌, ◌≤◌, ◌<◌, ◌==◌, Ok, [], length, position, IfOk, IfErr, IfSome, OnOk};
ghost use Rattle.rule_base.specs.declared.program.Class.{Class};
ghost use Rattle.rule_checker.specs.Names.{number_in};
ghost use Rattle.rule_checker.specs.Kept.{AreFewClasses};
ghost use Rattle.rule_checker.specs.Walk.{after_each};
ghost use Rattle.rule_checker.specs.Outcome.{Tells};
ghost use Rattle.rule_checker.specs.Classes.{class_names, not_yet_declared, few_classes, new_attribute, few_attributes, with_attribute, with_class, declared_class, attributes_at, has_attribute};

use crate::names::Names;
use crate::refusal::{CheckKind, Refusal};
use ops_text::Sequence;
use rule_base::Class;
use std::alloc::Global;
use std::marker::Model;

/// The most classes of a program.
const MOST_CLASSES: usize = 256;

/// The most attributes of a class.
const MOST_ATTRIBUTES: usize = 64;

/// The classes so far, each of which is found by its name.
#[derive(Drop)]
pub struct Classes {
    classes: Vec<Class>,
    names: Names,
}

impl Model for Classes {
    ghost use Rattle.std.specs.Prelude.{List};
    ghost use Rattle.rule_base.specs.declared.program.Class.{Class};
    ghost use Rattle.rule_checker.specs.Kept.{IsClassTable};

    ghost Value = { List Class };

    ghost view = { λ c. c.classes.items };

    ghost invariant = { λ c. IsClassTable c.names c.classes.items };
}

impl Classes {
    pub fn new(alloc: Global) -> Classes
        ensures { result ≡ [] }
    {
        Classes {
            classes: Vec::new(alloc),
            names: Names::new(alloc),
        }
    }

    fn not_yet_declared(&self, name: u32) -> Result<(), CheckKind>
        ensures { result ≡ not_yet_declared self.now name }
    {
        match self.names.number(name) {
            Some(_) => Err(CheckKind::Twice),
            None => Ok(()),
        }
    }

    fn few_classes(&self) -> Result<(), CheckKind>
        ensures { result ≡ few_classes self.now }
    {
        if self.classes.len() >= MOST_CLASSES {
            return Err(CheckKind::TooMany);
        }
        Ok(())
    }

    /// Adds a class.
    pub fn add_class(&mut self, alloc: Global, name: u32, attrs: &[u32]) -> Result<(), Refusal>
        ensures ok { OnOk result (with_class self.old name attrs.now ≡ Ok self.new) }
        ensures refused { IfErr result (Tells (with_class self.old name attrs.now)) }
    {
        self.not_yet_declared(name)?;
        self.few_classes()?;
        let attrs = own_attributes(alloc, attrs)?;
        self.classes.reserve(1)?;
        self.names.add(name)?;
        self.classes.push_reserved(Class { name, attrs });
        Ok(())
    }

    /// The number of the class of this name.
    pub fn declared(&self, name: u32) -> Result<u32, CheckKind>
        ensures number { result ≡ declared_class self.now name }
        ensures within { IfOk result (λ number. number < length self.now) }
    {
        match self.names.number(name) {
            Some(number) => Ok(number as u32),
            None => Err(CheckKind::UnknownClass),
        }
    }

    /// The attributes of the class with this number.
    pub fn attributes(&self, number: u32) -> &[u32]
        ensures attributes { result.now ≡ attributes_at self.now number }
        ensures few { length result.now ≤ 64 }
    {
        attributes_at(self.classes.as_slice(), number)
    }

    /// The list of the classes.
    pub fn into_list(self) -> Sequence<Class>
        ensures { result ≡ self }
    {
        Sequence::from_vec(self.classes)
    }
}

/// The place of the class of this name among few classes.
fn class_place(classes: &[Class], name: u32) -> Option<usize>
    ensures place { result ≡ position (λ (c : Class). name == c.name) classes.now }
    ensures within { IfSome result (λ place. place < length classes.now) }
{
    classes.iter().position(|class| name == class.name)
}

/// The number of the class of this name, for which few classes are looked through.
pub fn declared_class(classes: &[Class], name: u32) -> Result<u32, CheckKind>
    requires { length classes.now ≤ 256 }
    ensures { result ≡ declared_class classes.now name }
{
    match class_place(classes, name) {
        Some(number) => Ok(number as u32),
        None => Err(CheckKind::UnknownClass),
    }
}

/// The attributes of the class with this number.
pub fn attributes_at(classes: &[Class], number: u32) -> &[u32]
    requires { AreFewClasses classes.now }
    ensures attributes { result.now ≡ attributes_at classes.now number }
    ensures few { length result.now ≤ 64 }
{
    match classes.get(number as usize) {
        Some(class) => class.attrs.as_slice(),
        None => &[],
    }
}

/// The number of a name among few names.
fn number_in(names: &[u32], name: u32) -> Option<usize>
    ensures number { result ≡ number_in names.now name }
    ensures within { IfSome result (λ number. number < length names.now) }
{
    names.iter().position(|known| name == *known)
}

/// The number of the attribute of this name among those of a class. A class has few of them.
pub fn has_attribute(attrs: &[u32], name: u32) -> Result<u32, CheckKind>
    requires { length attrs.now ≤ 64 }
    ensures number { result ≡ has_attribute attrs.now name }
    ensures within { IfOk result (λ number. number < length attrs.now) }
{
    match number_in(attrs, name) {
        Some(number) => Ok(number as u32),
        None => Err(CheckKind::UnknownAttribute),
    }
}

fn new_attribute(attrs: &[u32], name: u32) -> Result<(), CheckKind>
    ensures { result ≡ new_attribute attrs.now name }
{
    match number_in(attrs, name) {
        Some(_) => Err(CheckKind::Twice),
        None => Ok(()),
    }
}

fn few_attributes(attrs: &[u32]) -> Result<(), CheckKind>
    ensures { result ≡ few_attributes attrs.now }
{
    if attrs.len() >= MOST_ATTRIBUTES {
        return Err(CheckKind::TooMany);
    }
    Ok(())
}

fn with_attribute(attrs: &mut Sequence<u32>, name: u32) -> Result<(), Refusal>
    ensures ok { OnOk result (with_attribute attrs.old name ≡ Ok attrs.new) }
    ensures few { OnOk result (length attrs.new ≤ 64) }
    ensures refused { IfErr result (Tells (with_attribute attrs.old name)) }
{
    new_attribute(attrs.as_slice(), name)?;
    few_attributes(attrs.as_slice())?;
    attrs.push(name)?;
    Ok(())
}

fn own_attributes(alloc: Global, names: &[u32]) -> Result<Sequence<u32>, Refusal>
    ensures ok { IfOk result (λ own. after_each with_attribute [] names.now ≡ Ok own) }
    ensures few { IfOk result (λ own. length own ≤ 64) }
    ensures refused { IfErr result (Tells (after_each with_attribute [] names.now)) }
{
    let mut own = Sequence::new(alloc);
    for name in names {
        with_attribute(&mut own, *name)?;
    }
    Ok(own)
}
