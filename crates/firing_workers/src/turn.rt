//! What comes next in a run: a full match to fire, or the ending.

ghost use Rattle.std.specs.Prelude.{◌≡◌, IfOk, None, Some};
ghost use Rattle.rule_base.specs.Ending.{IsEnding};
ghost use Rattle.firing_core.specs.CoreState.{ended};
ghost use Rattle.firing_core.specs.FinishedRun.{TellsKeptFault};
ghost use Rattle.firing_core.specs.Firing.{IsLeft};
ghost use Rattle.firing_core.specs.Lawful.{IsLawful};
ghost use Rattle.firing_core.specs.declared.claims.How.TheVariants as how;
ghost use Rattle.firing_workers.specs.Following.{Follows};
ghost use Rattle.firing_workers.specs.Turn.{IsChoiceOf, IsTurn, TellsNext};

use crate::prepared::Prepared;
use conflict_parts::{Part, RowId};
use firing_core::{Core, How};
use ops_text::OutOfMemory;
use rhs_actions::EffectRefusal;
use rule_base::{Ending, Steps};
use std::alloc::Global;
use std::sync::ledger::Ledger;

/// What comes next in a run.
#[derive(Drop)]
pub(crate) enum Turn {
    Fire(RowId),
    End(Ending),
}

/// What comes next: where a full match is to fire, its choice and its effect then lie prepared.
pub(crate) fn next_turn<L: Ledger>(
    alloc: Global,
    core: &Core,
    part: &mut Part,
    prepared: &mut Prepared,
    steps: &mut Steps<L>,
) -> Result<Turn, OutOfMemory>
    requires { Follows core.now.program core.now.state part.old }
    ensures turn { IfOk result (IsTurn core.now part.new prepared.new.choice prepared.new.bench.effect) }
    ensures follows { Follows core.now.program core.now.state part.new }
{
    match core.ended() {
        Some(How::Halted) => Ok(Turn::End(Ending::Halted)),
        Some(How::Budget) => Ok(Turn::End(at_budget(core, part, steps)?)),
        Some(How::Fault) => Ok(Turn::End(seen_fault(alloc, core)?)),
        None => match next_left(core, part, steps)? {
            Some(id) => {
                prepared.set_choice(alloc, part, id)?;
                evaluated(alloc, core, part, id, prepared)
            }
            None => Ok(Turn::End(Ending::Quiet)),
        },
    }
}

/// A candidate of the part, if there is one. The core tells whose candidate it is; it isn't asked.
fn next_left<L: Ledger>(
    core: &Core,
    part: &mut Part,
    steps: &mut Steps<L>,
) -> Result<Option<RowId>, OutOfMemory>
    requires { Follows core.now.program core.now.state part.old }
    ensures next { IfOk result (TellsNext core.now part.new) }
    ensures follows { Follows core.now.program core.now.state part.new }
{
    let _ = core;
    part.next(steps)
}

/// The ending of a core that has used up its budget.
fn at_budget<L: Ledger>(
    core: &Core,
    part: &mut Part,
    steps: &mut Steps<L>,
) -> Result<Ending, OutOfMemory>
    requires follows { Follows core.now.program core.now.state part.old }
    requires ended { ended core.now ≡ Some how.Budget }
    ensures ending { IfOk result (IsEnding core.now.program core.now.budget core.now.state) }
    ensures follows { Follows core.now.program core.now.state part.new }
{
    let n = core.count();
    match next_left(core, part, steps)? {
        Some(_) => Ok(Ending::Spent { n }),
        None => Ok(Ending::Quiet),
    }
}

/// The ending of a core that has kept a fault.
fn seen_fault(alloc: Global, core: &Core) -> Result<Ending, OutOfMemory>
    requires { ended core.now ≡ Some how.Fault }
    ensures ending { IfOk result (IsEnding core.now.program core.now.budget core.now.state) }
    ensures kept { IfOk result (TellsKeptFault core.now) }
{
    match core.fault_seen() {
        Some(seen) => Ok(Ending::Fault {
            choice: seen.choice.copy(alloc)?,
            action: seen.action,
            cause: seen.cause,
        }),
        None => unreachable!(),
    }
}

/// The firing of a candidate whose choice lies prepared, or the fault of its right-hand side.
fn evaluated(
    alloc: Global,
    core: &Core,
    part: &Part,
    id: RowId,
    prepared: &mut Prepared,
) -> Result<Turn, OutOfMemory>
    requires lawful { IsLawful core.now }
    requires going { ended core.now ≡ None }
    requires left { IsLeft core.now prepared.old.choice }
    requires of { IsChoiceOf part.now id prepared.old.choice }
    ensures { IfOk result (IsTurn core.now part.now prepared.new.choice prepared.new.bench.effect) }
{
    let _ = part;
    match core.evaluate(&prepared.choice, &mut prepared.bench) {
        Ok(()) => Ok(Turn::Fire(id)),
        Err(EffectRefusal::Failed { action, cause }) => Ok(Turn::End(Ending::Fault {
            choice: prepared.choice.copy(alloc)?,
            action,
            cause,
        })),
        Err(EffectRefusal::OutOfMemory) => Err(OutOfMemory),
    }
}
