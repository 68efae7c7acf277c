//! The run of a program from its opening to its ending, and what is to be said of it.

ghost use Rattle.std.specs.Prelude.{◌≡◌, IfOk};
ghost use Rattle.rule_base.specs.Opening.{IsOpening};
ghost use Rattle.rule_base.specs.Sound.{IsSound, sizes_of};
ghost use Rattle.rule_base.specs.Ending.{IsBudget};
ghost use Rattle.ops_command.specs.Account.{account_of};
ghost use Rattle.ops_command.specs.Ran.{Ran, start_of};

use crate::plan::Plan;
use crate::run_report::run_report;
use crate::status::{Report, Status};
use firing_workers::{Finished, run_alone};
use ops_text::{OutOfMemory, Symbols};
use rule_base::{Base, Elements, Program, Refraction};
use std::alloc::Global;
use std::sync::Arc;

/// What is to be said of a program that runs from this opening memory, with at most so many firings.
pub fn plan_run(
    alloc: Global,
    program: Program,
    opening: Elements,
    budget: u64,
    symbols: &Symbols,
) -> Result<Plan, OutOfMemory>
    requires sound { IsSound program }
    requires opening { IsOpening (sizes_of program.classes) opening }
    requires budget { IsBudget budget }
    ensures { IfOk result (λ plan. Ran
        (start_of budget
        (record { program = program; names = symbols.now })
        (record { elements = opening; names = symbols.now }))
        (account_of plan)) }
{
    let program = Arc::new(alloc, program)?;
    let base = Base::opening(alloc, opening, Refraction::Once);
    let Finished { core, ending } = run_alone(alloc, program, base, budget)?;
    let text = run_report(alloc, symbols, &ending, &core)?;
    let memory = core.copy_memory(alloc)?;
    let report = Report {
        status: Status::of_ending(ending),
        journal: core.into_journal(),
        memory,
    };
    Ok(Plan { report, text })
}
