//! A part takes in what a firing has changed.

ghost use Rattle.std.specs.Prelude.{◌≡◌, ◌+◌, ◌<◌, ◌≤◌, [], ◌∷◌, ◌++◌, OnOk, length};
ghost use Rattle.std.specs.List.{AllByRecursion};
ghost use Rattle.rule_base.specs.declared.element.Element.{Element};
ghost use Rattle.rule_base.specs.declared.program.Program.{Program};
ghost use Rattle.rule_base.specs.Effect.{removed_tags};
ghost use Rattle.rule_base.specs.Memory.{Memory, Rises, element_at, tags_of};
ghost use Rattle.rule_base.specs.State.{State};
ghost use Rattle.rule_base.specs.Step.{without};
ghost use Rattle.rule_base.specs.Views.{element_in};
ghost use Rattle.match_network.specs.Network.{AllHaveLevels, AreAllRight};
ghost use Rattle.match_network.specs.Told.{AllAreTold};
ghost use Rattle.firing_workers.specs.Following.{Follows, IsSettled, with_arrived, with_memory, with_removed, with_some};

use conflict_parts::Part;
use firing_core::Core;
use ops_text::OutOfMemory;
use rhs_actions::Effect;
use rule_base::{ElementView, Steps};
use std::sync::ledger::Ledger;

/// What is known of every part's network. It does nothing.
pub(crate) fn is_right(part: &Part)
    ensures told { AllAreTold part.now.network }
    ensures right { AreAllRight part.now.network }
    ensures levels { AllHaveLevels part.now.network }
    ensures rising { Rises (tags_of part.now.network.arrivals.came) }
    ensures below { AllByRecursion (λ place. place < length part.now.network.arrivals.came) part.now.network.arrivals.places }
{
    let network = part.network();
    network.all_are_right();
    let _came = network.arrivals().len();
}

/// Takes the element with this tag out of a part, if it is there.
fn take_out(part: &mut Part, tag: u64) -> Result<(), OutOfMemory>
    ensures came { OnOk result (part.new.network.arrivals.came ≡ part.old.network.arrivals.came) }
    ensures follows { OnOk result ((program : Program) (s : State) → Follows program s part.old → IsSettled s part.old
        → Follows program (with_removed s (tag ∷ [])) part.new × IsSettled (with_removed s (tag ∷ [])) part.new) }
{
    part.remove(tag)?;
    is_right(part);
    Ok(())
}

/// Takes the elements with these tags out of a part.
fn take_out_all(part: &mut Part, tags: &[u64]) -> Result<(), OutOfMemory>
    ensures came { OnOk result (part.new.network.arrivals.came ≡ part.old.network.arrivals.came) }
    ensures follows { OnOk result ((program : Program) (s : State) → Follows program s part.old → IsSettled s part.old
        → Follows program (with_removed s tags.now) part.new × IsSettled (with_removed s tags.now) part.new) }
{
    for tag in tags {
        take_out(part, *tag)?;
    }
    Ok(())
}

/// Has a part take in an element.
pub(crate) fn take_in<L: Ledger>(
    part: &mut Part,
    element: ElementView<'_>,
    steps: &mut Steps<L>,
) -> Result<(), OutOfMemory>
    requires { AllByRecursion (λ (e : Element). e.tag < element.tag) part.old.network.arrivals.came }
    ensures came { OnOk result (AllByRecursion (λ (e : Element). e.tag < element.entry.tag + 1) part.new.network.arrivals.came) }
    ensures follows { OnOk result ((program : Program) (s : State) → Follows program s part.old → s.next ≤ element.entry.tag
        → Follows program (with_arrived s (element_in element.entry)) part.new) }
{
    is_right(part);
    let _network = part.network();
    part.add(element, steps)?;
    is_right(part);
    Ok(())
}

/// Has a part take in the element with this tag, if it is in the core's working memory.
fn take_in_one<L: Ledger>(
    core: &Core,
    part: &mut Part,
    tag: u64,
    steps: &mut Steps<L>,
) -> Result<(), OutOfMemory>
    requires { AllByRecursion (λ (e : Element). e.tag < tag) part.old.network.arrivals.came }
    ensures came { OnOk result (AllByRecursion (λ (e : Element). e.tag < tag + 1) part.new.network.arrivals.came) }
    ensures follows { OnOk result ((program : Program) (s : State) → Follows program s part.old → s.next ≤ tag
        → Follows program (with_some s tag (element_at core.now.state.memory tag)) part.new) }
{
    match core.element(tag) {
        Some(element) => take_in(part, element, steps),
        None => Ok(()),
    }
}

/// Has a part take in the elements of the core's working memory whose tags are this one or later.
fn take_in_from<L: Ledger>(
    core: &Core,
    part: &mut Part,
    from: u64,
    steps: &mut Steps<L>,
) -> Result<(), OutOfMemory>
    requires came { AllByRecursion (λ (e : Element). e.tag < from) part.old.network.arrivals.came }
    requires from { from ≤ core.now.state.next }
    ensures { OnOk result ((program : Program) (s : State) (more : Memory) → Follows program s part.old → s.next ≡ from
        → core.now.state.memory ≡ s.memory ++ more → AllByRecursion (λ (e : Element). from ≤ e.tag) more
        → Follows program (with_memory s core.now.state.memory core.now.state.next) part.new) }
{
    // The core tells that it is lawful, and so that its tags rise.
    let _count = core.count();
    for tag in from..core.next() {
        take_in_one(core, part, tag, steps)?;
    }
    Ok(())
}

/// Has a part that followed the state before a firing take in what that has changed: first what has gone,
/// and then what came, from this tag on. It takes time in proportion to what the network does for each
/// change. After want of memory some changes are taken in.
pub(crate) fn settle<L: Ledger>(
    core: &Core,
    part: &mut Part,
    effect: &Effect,
    from: u64,
    steps: &mut Steps<L>,
) -> Result<(), OutOfMemory>
    requires came { AllByRecursion (λ (e : Element). e.tag < from) part.old.network.arrivals.came }
    requires from { from ≤ core.now.state.next }
    ensures { OnOk result ((program : Program) (s : State) (more : Memory) → Follows program s part.old → IsSettled s part.old → s.next ≡ from
        → core.now.state.memory ≡ without s.memory (removed_tags effect.now.changes) ++ more → AllByRecursion (λ (e : Element). from ≤ e.tag) more
        → Follows program (with_memory s core.now.state.memory core.now.state.next) part.new) }
{
    take_out_all(part, effect.removed_tags())?;
    take_in_from(core, part, from, steps)
}
