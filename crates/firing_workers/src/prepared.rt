//! The choice that is to fire next, and room for its firing.

ghost use Rattle.std.specs.Prelude.{◌≡◌, ◌<◌, ◌++◌, ℕ, List, OnOk, Some, length};
ghost use Rattle.match_network.specs.Full.{tags_at};
ghost use Rattle.conflict_parts.specs.Choices.{choice_at};
ghost use Rattle.conflict_parts.specs.Part.{full_row, full_rows};

use crate::following::is_right;
use conflict_parts::{Part, RowId};
use firing_core::Workbench;
use ops_text::{OutOfMemory, Sequence};
use rule_base::Choice;
use std::alloc::Global;
use std::mem;

/// A choice, and the bench on which its right-hand side is evaluated. Both are filled anew for each firing,
/// and take memory only where they have never held so much.
#[derive(Drop)]
pub(crate) struct Prepared {
    pub(crate) choice: Choice,
    pub(crate) bench: Workbench,
}

impl Prepared {
    pub(crate) fn new(alloc: Global) -> Result<Prepared, OutOfMemory> {
        Ok(Prepared {
            choice: Choice {
                rule: 0,
                tags: Sequence::new(alloc),
            },
            bench: Workbench::new(alloc)?,
        })
    }

    /// Makes the choice that of a full match of the part. After want of memory it is of no use.
    pub(crate) fn set_choice(
        &mut self,
        alloc: Global,
        part: &Part,
        id: RowId,
    ) -> Result<(), OutOfMemory>
        requires rule { id.rule < length part.now.network.rules }
        requires row { id.row < length (full_rows part.now.network.rules id.rule) }
        ensures { OnOk result ((row : List ℕ) → full_row part.now.network.rules id.rule id.row ≡ Some row
            → self.new.choice ≡ choice_at part.now.network id.rule row) }
    {
        let mut tags = mem::replace(&mut self.choice.tags, Sequence::new(alloc)).into_vec();
        tags.clear();
        add_tags(part, id, &mut tags)?;
        self.choice.rule = id.rule;
        self.choice.tags = Sequence::from_vec(tags);
        Ok(())
    }
}

/// Adds the tags of a full match's elements.
fn add_tags(part: &Part, id: RowId, tags: &mut Vec<u64>) -> Result<(), OutOfMemory>
    requires rule { id.rule < length part.now.network.rules }
    requires row { id.row < length (full_rows part.now.network.rules id.rule) }
    ensures { OnOk result ((row : List ℕ) → full_row part.now.network.rules id.rule id.row ≡ Some row
        → tags.new.items ≡ tags.old.items ++ tags_at part.now.network.arrivals.came row) }
{
    is_right(part);
    let arrivals = part.network().arrivals();
    let row = part.row(id);
    for place in row {
        tags.push(arrivals.at(*place).tag)?;
    }
    Ok(())
}
