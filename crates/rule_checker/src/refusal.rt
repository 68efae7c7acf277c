//! Why forms are refused.

ghost use Rattle.std.specs.Prelude.{◌≡◌};
ghost use Rattle.rule_checker.specs.declared.refusal.Refusal.TheVariants.{OutOfMemory as no_memory, Violated as violated};
ghost use Rattle.rule_checker.specs.declared.refusal.CheckRefusal.TheVariants as check;
ghost use Rattle.rule_checker.specs.Outcome.{refusal_at};

use std::alloc::{AllocError, AllocFailed};

/// The rule of the language that is violated.
#[derive(Clone, Copy, Debug, PartialEq, Eq)]
pub enum CheckKind {
    /// A class is used that no earlier `literalize` declares.
    UnknownClass,
    /// The class has no such attribute.
    UnknownAttribute,
    /// A class, an attribute of a class, a rule or an element variable is declared a second time.
    Twice,
    /// The first condition element of a rule is negated.
    FirstNegated,
    /// A variable has no value where it is used.
    Unbound,
    /// A designator is no positive condition element of its rule.
    BadDesignator,
    /// There are more classes, attributes, rules, condition elements or actions than the language allows.
    TooMany,
    /// A form of a memory file is no `make`.
    NotInitial,
}

/// Why there is no checked program, or no opening memory. Forms count from 1.
#[derive(Clone, Copy, Debug, PartialEq, Eq)]
pub enum CheckRefusal {
    Check { form: u32, kind: CheckKind },
    OutOfMemory,
}

/// Why a part of a form is refused.
#[derive(Clone, Copy, Debug, PartialEq, Eq)]
pub enum Refusal {
    Violated(CheckKind),
    OutOfMemory,
}

impl Refusal {
    /// The refusal of the form with this number.
    pub fn at(self, form: u32) -> CheckRefusal
        ensures { result ≡ refusal_at form self }
    {
        match self {
            Refusal::Violated(kind) => CheckRefusal::Check { form, kind },
            Refusal::OutOfMemory => CheckRefusal::OutOfMemory,
        }
    }
}

impl From<AllocError> for Refusal {
    ghost from_gives = { λ _ refusal. refusal ≡ no_memory };

    fn from(_error: AllocError) -> Refusal {
        Refusal::OutOfMemory
    }
}

impl<T: Drop> From<AllocFailed<T>> for Refusal {
    ghost from_gives = { λ _ refusal. refusal ≡ no_memory };

    fn from(_failed: AllocFailed<T>) -> Refusal {
        Refusal::OutOfMemory
    }
}

impl From<AllocError> for CheckRefusal {
    ghost from_gives = { λ _ refusal. refusal ≡ check.OutOfMemory };

    fn from(_error: AllocError) -> CheckRefusal {
        CheckRefusal::OutOfMemory
    }
}

impl From<CheckKind> for Refusal {
    ghost from_gives = { λ kind refusal. refusal ≡ violated kind };

    fn from(kind: CheckKind) -> Refusal {
        Refusal::Violated(kind)
    }
}
