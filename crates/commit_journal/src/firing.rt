//! What a journal keeps of a firing beside its lists.

ghost use Rattle.std.specs.Prelude.{◌≡◌, ◌≤◌, ◌∷◌, IfOk, length, map, slice_index};
ghost use Rattle.commit_journal.specs.Firings.{born_ends, firing_before};

use ops_text::OutOfMemory;
use std::alloc::Global;

/// A firing's rule, where the elements that it made end among all that were made, and whether it halted.
#[derive(Clone, Copy, Debug)]
pub struct Firing {
    pub rule: u32,
    pub born: u32,
    pub halts: bool,
}

/// Where the elements begin that the firing at this place made.
pub fn born_before(firings: &[Firing], place: usize) -> usize
    requires { place ≤ length firings.now }
    ensures { result ≡ slice_index (0 ∷ born_ends firings.now) place }
{
    if place == 0 {
        0
    } else {
        firings[place - 1].born as usize
    }
}

/// The firings, with the ends of their elements so many places before.
pub fn firings_before(
    alloc: Global,
    firings: &[Firing],
    by: usize,
) -> Result<Vec<Firing>, OutOfMemory>
    ensures { IfOk result (λ before. before.items ≡ map (firing_before by) firings.now) }
{
    let mut before = Vec::new(alloc);
    for firing in firings {
        let born = (firing.born as usize).saturating_sub(by) as u32;
        before.push(Firing { born, ..*firing })?;
    }
    Ok(before)
}
