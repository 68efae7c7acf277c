//! Programs made from texts.

ghost use Rattle.std.specs.Prelude.{◌<◌, length};

use ops_reader::read_forms;
use ops_text::Symbols;
use rule_base::Program;
use rule_checker::check;
use std::alloc::Global;
use std::test::Fail;

/// The program of a text whose names are all new.
pub fn program_of(alloc: Global, text: &str) -> Result<Program, Fail>
    requires { length text.now < 100000 }
{
    let mut symbols = Symbols::new(alloc)?;
    let forms = read_forms(alloc, text.as_bytes(), &mut symbols)?;
    Ok(check(alloc, &forms)?)
}
