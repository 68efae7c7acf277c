//! An entry of a journal where it lies.

ghost use Rattle.std.specs.Prelude.{◌≡◌, ◌<◌, ◌++◌, IfOk, OnOk, Some, length, map, slice_get};
ghost use Rattle.rule_base.specs.Views.{element_in};
ghost use Rattle.rule_base.specs.declared.change.Tagged.TheVariants.{Gone, Born};
ghost use Rattle.commit_journal.specs.EntryViews.{born_of, entry_in};

use crate::newborns::Newborns;
use ops_text::{OutOfMemory, Sequence};
use rule_base::{Choice, ElementView, Entry, Piece, Tagged};
use std::alloc::Global;

/// An entry with its lists where they lie. The elements that it made are reached by their number.
#[derive(Clone, Copy)]
pub struct EntryView<'a> {
    pub rule: u32,
    pub halts: bool,
    /// The tags of the choice.
    pub tags: &'a [u64],
    /// The tags that the firing took away.
    pub gone: &'a [u64],
    pub pieces: &'a [Piece],
    /// The elements that the firing made are so many of these, from a place on.
    pub(crate) newborns: &'a Newborns,
    pub(crate) from: usize,
    pub(crate) count: usize,
}

impl<'a> EntryView<'a> {
    /// How many elements the firing made.
    pub fn born_len(self) -> usize
        ensures { result ≡ length (born_of self.entry) }
    {
        self.count
            .min(self.newborns.len().saturating_sub(self.from))
    }

    /// An element that the firing made. They count from 0.
    pub fn born(self, number: usize) -> ElementView<'a>
        requires { number < length (born_of self) }
        ensures { slice_get (born_of self.entry) number ≡ Some (element_in result) }
    {
        self.newborns.behind(self.from, number)
    }

    /// The entry as a value of its own, in time that grows with its parts.
    pub fn to_entry(self, alloc: Global) -> Result<Entry, OutOfMemory>
        ensures { IfOk result (λ entry. entry ≡ entry_in self.entry) }
    {
        let mut changes = Sequence::new(alloc);
        put_gone(self.gone, &mut changes)?;
        put_born(alloc, self, &mut changes)?;
        let tags = Sequence::from_vec(Vec::from_slice(alloc, self.tags)?);
        let pieces = Sequence::from_vec(Vec::from_slice(alloc, self.pieces)?);
        Ok(Entry {
            choice: Choice {
                rule: self.rule,
                tags,
            },
            changes,
            pieces,
            halts: self.halts,
        })
    }
}

fn put_gone(gone: &[u64], changes: &mut Sequence<Tagged>) -> Result<(), OutOfMemory>
    ensures { OnOk result (changes.new ≡ changes.old ++ map Gone gone.now) }
{
    for tag in gone {
        changes.push(Tagged::Gone(*tag))?;
    }
    Ok(())
}

fn put_born(
    alloc: Global,
    view: EntryView<'_>,
    changes: &mut Sequence<Tagged>,
) -> Result<(), OutOfMemory>
    ensures { OnOk result (changes.new ≡ changes.old ++ map Born (born_of view.entry)) }
{
    for number in 0..view.born_len() {
        changes.push(Tagged::Born(view.born(number).to_element(alloc)?))?;
    }
    Ok(())
}
