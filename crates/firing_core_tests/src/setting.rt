//! Programs made from texts, and their opening memories.

ghost use Rattle.std.specs.Prelude.{◌^◌, ◌<◌, IfOk, length};
ghost use Rattle.rule_base.specs.Opening.{IsOpening};
ghost use Rattle.rule_base.specs.Sound.{IsSound, sizes_of};

use ops_reader::{Forms, FormsRefusal, read_forms};
use ops_text::Symbols;
use rule_base::{Elements, Program};
use rule_checker::{check, load};
use std::alloc::Global;
use std::test::Fail;

/// The forms of a text whose names are all new.
fn forms_of(alloc: Global, text: &str) -> Result<Forms, FormsRefusal>
    requires { length text.now < 100000 }
{
    let mut symbols = Symbols::new(alloc)?;
    read_forms(alloc, text.as_bytes(), &mut symbols)
}

/// The program of a text.
pub fn program_of(alloc: Global, text: &str) -> Result<Program, Fail>
    requires { length text.now < 100000 }
    ensures sound { IfOk result IsSound }
    ensures few_makes { IfOk result (λ program. length program.makes < 2 ^ 32) }
{
    let forms = forms_of(alloc, text)?;
    Ok(check(alloc, &forms)?)
}

/// The opening memory of a program, with no memory file.
pub fn opening_of(alloc: Global, program: &Program) -> Result<Elements, Fail>
    requires sound { IsSound program.now }
    requires few_makes { length program.now.makes < 2 ^ 32 }
    ensures { IfOk result (IsOpening (sizes_of program.now.classes)) }
{
    let nothing = forms_of(alloc, "")?;
    Ok(load(alloc, program, &nothing)?)
}
