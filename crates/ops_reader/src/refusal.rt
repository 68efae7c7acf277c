//! Why a text is refused.

ghost use Rattle.std.specs.Prelude.{◌≡◌};
ghost use Rattle.ops_reader.specs.declared.refusal.FormsRefusal.TheVariants.{OutOfMemory as no_memory};
ghost use Rattle.ops_reader.specs.declared.refusal.TokenRefusal.TheVariants.{OutOfMemory as no_memory_for_token};

use std::alloc::{AllocError, AllocFailed};

/// What is wrong with a text.
#[derive(Clone, Copy, Debug, PartialEq, Eq)]
pub enum SyntaxKind {
    /// The text ends inside a form, or behind a bar without a second one.
    Unclosed,
    /// A token with which no text of the grammar goes on.
    Unexpected,
    /// A number outside the range of its place.
    BadNumeral,
    /// A symbol or a variable's name of more than 255 bytes.
    LongSymbol,
    /// A 33rd parenthesis that is open inside one `compute`.
    TooDeep,
    /// A word, a number or a form of OPS5 that is left out of this language.
    NotInProfile,
}

/// Why there are no forms.
#[derive(Clone, Copy, Debug, PartialEq, Eq)]
pub enum FormsRefusal {
    /// The first wrong token begins at this byte, counted from 0, or the text ends here too early.
    Syntax { at: u64, kind: SyntaxKind },
    OutOfMemory,
}

impl From<AllocError> for FormsRefusal {
    ghost from_gives = { λ _ refusal. refusal ≡ no_memory };

    fn from(_error: AllocError) -> FormsRefusal {
        FormsRefusal::OutOfMemory
    }
}

impl<T: Drop> From<AllocFailed<T>> for FormsRefusal {
    ghost from_gives = { λ _ refusal. refusal ≡ no_memory };

    fn from(_failed: AllocFailed<T>) -> FormsRefusal {
        FormsRefusal::OutOfMemory
    }
}

/// Why a token isn't taken.
#[derive(Clone, Copy)]
pub(crate) enum TokenRefusal {
    /// No text of the grammar goes on with it.
    CannotStand,
    OutOfMemory,
}

impl From<AllocError> for TokenRefusal {
    ghost from_gives = { λ _ refusal. refusal ≡ no_memory_for_token };

    fn from(_error: AllocError) -> TokenRefusal {
        TokenRefusal::OutOfMemory
    }
}

impl<T: Drop> From<AllocFailed<T>> for TokenRefusal {
    ghost from_gives = { λ _ refusal. refusal ≡ no_memory_for_token };

    fn from(_failed: AllocFailed<T>) -> TokenRefusal {
        TokenRefusal::OutOfMemory
    }
}
