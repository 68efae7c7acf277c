//! Room for one firing after another: the elements that matched, the row of bindings and the effect.

ghost use Rattle.std.specs.Prelude.{◌≡◌, ◌++◌, OnOk};
ghost use Rattle.rule_base.specs.Memory.{elements_at};
ghost use Rattle.firing_core.specs.Store.{memory_in};

use crate::store::Store;
use element_tests::Binds;
use ops_text::OutOfMemory;
use rhs_actions::Effect;
use rule_base::Elements;
use std::alloc::Global;

/// What a firing is evaluated with. It is filled anew for each, and takes memory only where
/// it has never held so much.
#[derive(Drop)]
pub struct Workbench {
    pub elements: Elements,
    pub binds: Binds,
    pub effect: Effect,
}

impl Workbench {
    pub fn new(alloc: Global) -> Result<Workbench, OutOfMemory> {
        Ok(Workbench {
            elements: Elements::new(alloc),
            binds: Binds::new(alloc, 0)?,
            effect: Effect::new(alloc),
        })
    }

    /// Lays out the elements with these tags, in the tags' order.
    pub fn lay_out(&mut self, store: &Store, tags: &[u64]) -> Result<(), OutOfMemory>
        ensures { OnOk result (self.new.elements ≡ elements_at (memory_in store.now) tags.now) }
    {
        self.elements.clear();
        add_all(store, tags, &mut self.elements)
    }
}

/// Adds the elements with these tags.
fn add_all(store: &Store, tags: &[u64], elements: &mut Elements) -> Result<(), OutOfMemory>
    ensures { OnOk result (elements.new ≡ elements.old ++ elements_at (memory_in store.now) tags.now) }
{
    for tag in tags {
        if let Some(element) = store.element(*tag) {
            elements.push(element)?;
        }
    }
    Ok(())
}
