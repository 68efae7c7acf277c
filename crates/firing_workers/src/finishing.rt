//! Runs to their ending, on the caller's thread.

ghost use Rattle.std.specs.Prelude.{◌≡◌, [], IfOk, OnOk, Some};
ghost use Rattle.rule_base.specs.Base.{IsLawfulBase};
ghost use Rattle.rule_base.specs.Ending.{IsBudget, IsEnding};
ghost use Rattle.rule_base.specs.Sound.{IsSound};
ghost use Rattle.firing_core.specs.CoreState.{IsRunOf, ended};
ghost use Rattle.firing_core.specs.Events.{without_claims};
ghost use Rattle.firing_core.specs.FinishedRun.{GoesOn, IsFinishedRun, TellsKeptFault};
ghost use Rattle.firing_core.specs.Firing.{Fires};
ghost use Rattle.firing_core.specs.Lawful.{IsLawful};
ghost use Rattle.firing_core.specs.declared.claims.How.{How};
ghost use Rattle.firing_workers.specs.Following.{Follows};
ghost use Rattle.firing_workers.specs.Turn.{HasFinished, HasTurned, MayFire};

use crate::feeding::part_of;
use crate::following::settle;
use crate::prepared::Prepared;
use crate::turn::{Turn, next_turn};
use conflict_parts::{Part, RowId};
use firing_core::Core;
use ops_text::OutOfMemory;
use rule_base::{Base, Ending, Program, Steps};
use std::alloc::Global;
use std::marker::Brand;
use std::sync::Arc;
use std::sync::ledger::{Blank, Ledger};

/// A core on which no claim stands, and how its run may end there.
#[derive(Drop)]
pub struct Finished {
    pub core: Core,
    pub ending: Ending,
}

/// Drops all claims and fires until the run has ended. Which of several choices fires first is left open.
/// A core that keeps a fault ends with it; a fault that comes up here is told, and not kept. The working
/// memory is taken into a match network first; then each firing costs what its changes give to do, and
/// nothing is matched a second time. After want of memory the core is gone.
pub fn finish(alloc: Global, core: Core) -> Result<Finished, OutOfMemory>
    ensures goes_on { IfOk result (λ finished. GoesOn core finished.core) }
    ensures alone { IfOk result
        (λ finished. (finished.core.claims ≡ []) × (finished.core.given ≡ 0)) }
    ensures fault { IfOk result (λ finished. finished.core.fault ≡ core.fault) }
    ensures kept_fault { IfOk result (λ finished. TellsKeptFault core finished.ending) }
    ensures ending { IfOk result
        (λ finished. IsEnding core.program core.budget finished.core.state finished.ending) }
    ensures lawful { IfOk result (λ finished. IsLawful finished.core) }
    ensures ended_before { IfOk result
        (λ finished. (how : How) → ended core ≡ Some how → finished.core ≡ without_claims core) }
{
    let mut core = core;
    core.drop_all();
    let ending = finish_on::<Brand>(alloc, &mut core, Blank::new(1))?;
    Ok(Finished { core, ending })
}

/// The same of a core on which no claim stands, on a ledger of its own.
fn finish_on<L: Ledger>(alloc: Global, core: &mut Core, blank: Blank) -> Result<Ending, OutOfMemory>
    requires alone { core.old.claims ≡ [] }
    requires none_given { core.old.given ≡ 0 }
    requires name { blank.name ≡ L.name }
    requires parts { blank.parts ≡ L.parts }
    requires one { blank.parts ≡ 1 }
    ensures { IfOk result (HasFinished core.old core.new) }
{
    let mut steps = Steps::<L>::new(blank);
    let mut part = part_of(alloc, core, &mut steps)?;
    let mut prepared = Prepared::new(alloc)?;
    run_on(alloc, core, &mut part, &mut prepared, &mut steps)
}

/// Takes turns until the run may end, and tells how.
fn run_on<L: Ledger>(
    alloc: Global,
    core: &mut Core,
    part: &mut Part,
    prepared: &mut Prepared,
    steps: &mut Steps<L>,
) -> Result<Ending, OutOfMemory>
    requires alone { core.old.claims ≡ [] }
    requires none_given { core.old.given ≡ 0 }
    requires follows { Follows core.old.program core.old.state part.old }
    ensures { IfOk result (HasFinished core.old core.new) }
{
    loop {
        let turn = take_turn(alloc, core, part, prepared, steps)?;
        match turn {
            Some(ending) => return Ok(ending),
            None => continue,
        }
    }
}

/// Takes a turn: fires a candidate of the part, or tells the ending if the run may end here.
fn take_turn<L: Ledger>(
    alloc: Global,
    core: &mut Core,
    part: &mut Part,
    prepared: &mut Prepared,
    steps: &mut Steps<L>,
) -> Result<Option<Ending>, OutOfMemory>
    requires alone { core.old.claims ≡ [] }
    requires follows { Follows core.old.program core.old.state part.old }
    ensures turn { IfOk result (HasTurned core.old core.new) }
    ensures follows { OnOk result (Follows core.new.program core.new.state part.new) }
{
    // The core tells that it is lawful, also where it ends.
    let _count = core.count();
    match next_turn(alloc, core, part, prepared, steps)? {
        Turn::Fire(id) => {
            fire(core, part, id, prepared, steps)?;
            Ok(None)
        }
        Turn::End(ending) => Ok(Some(ending)),
    }
}

/// Fires a candidate of the part whose choice and effect lie prepared, and has the part take in what that
/// changes.
fn fire<L: Ledger>(
    core: &mut Core,
    part: &mut Part,
    id: RowId,
    prepared: &Prepared,
    steps: &mut Steps<L>,
) -> Result<(), OutOfMemory>
    requires alone { core.old.claims ≡ [] }
    requires may { MayFire core.old part.old prepared.now.choice prepared.now.bench.effect id }
    requires follows { Follows core.old.program core.old.state part.old }
    ensures fires { OnOk result (Fires core.old core.new prepared.now.choice) }
    ensures follows { OnOk result (Follows core.new.program core.new.state part.new) }
{
    let from = core.next();
    core.fire(&prepared.choice, &prepared.bench.effect, steps)?;
    part.mark(id);
    settle(core, part, &prepared.bench.effect, from, steps)
}

/// Runs a program from a base to an ending.
pub fn run_alone(
    alloc: Global,
    program: Arc<Program>,
    base: Base,
    budget: u64,
) -> Result<Finished, OutOfMemory>
    requires sound { IsSound program.value }
    requires lawful { IsLawfulBase program.value base }
    requires budget { IsBudget budget }
    ensures finished { IfOk result
        (λ finished. IsFinishedRun program.value base budget
        finished.core.state finished.ending) }
    ensures run { IfOk result (λ finished. IsRunOf program.value base budget finished.core) }
    ensures alone { IfOk result
        (λ finished. (finished.core.claims ≡ []) × (finished.core.given ≡ 0)) }
    ensures core { IfOk result (λ finished. IsLawful finished.core) }
{
    let core = Core::new(alloc, program, base, budget)?;
    finish(alloc, core)
}
