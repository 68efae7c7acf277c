//! Parts of a program's rules, for workers that share them.

ghost use Rattle.std.specs.Prelude.{◌≡◌, ◌≤◌, [], ◌∷◌, ◌++◌, ◌%◌, ◌==◌, IfOk, OnOk, if◌then◌else◌, length};
ghost use Rattle.rule_base.specs.Sound.{IsSound};
ghost use Rattle.interference.specs.Parts.{part, parts};

use ops_text::{OutOfMemory, Sequence};
use rule_base::Program;
use std::alloc::Global;

/// The rules of a program by number, in so many parts. It goes through all rules for each part.
pub fn parts(alloc: Global, program: &Program, n: u32) -> Result<Vec<Sequence<u32>>, OutOfMemory>
    requires sound { IsSound program.now }
    requires some { 1 ≤ n }
    requires few { n ≤ 64 }
    ensures { IfOk result (λ all. all.items ≡ parts (length program.now.rules) n) }
{
    let rules = program.rules.len() as u32;
    let mut all = Vec::new(alloc);
    for number in 0..n {
        all.push(part(alloc, rules, n, number)?)?;
    }
    Ok(all)
}

/// The rules of one part.
fn part(alloc: Global, rules: u32, n: u32, number: u32) -> Result<Sequence<u32>, OutOfMemory>
    requires { 1 ≤ n }
    ensures { IfOk result (λ found. found ≡ part rules n number) }
{
    let mut found = Sequence::new(alloc);
    for rule in 0..rules {
        push_if(&mut found, rule, rule % n == number)?;
    }
    Ok(found)
}

/// Adds a rule, if it belongs there.
fn push_if(part: &mut Sequence<u32>, rule: u32, belongs: bool) -> Result<(), OutOfMemory>
    ensures { OnOk result (part.new ≡ part.old ++ (if belongs then rule ∷ [] else [])) }
{
    if belongs {
        part.push(rule)?;
    }
    Ok(())
}
