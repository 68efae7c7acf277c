//! How many rows and links are held, the dead ones and the unlinked ones too.

ghost use Rattle.std.specs.Prelude.{◌≡◌, ◌-◌, ◌^◌, min};
ghost use Rattle.alpha_memory.specs.Stores.{places_filed};
ghost use Rattle.match_network.specs.Held.{Covers, all_rows, rows_filed};

use crate::{Level, RuleLevels};
use alpha_memory::AlphaMemory;

/// How many rows the levels of a rule have.
pub(crate) fn count_rows(levels: &[Level]) -> usize
    ensures { result ≡ min (rows_filed levels.now) (2 ^ 64 - 1) }
{
    let mut count: usize = 0;
    for number in 0..levels.len() {
        count = count.saturating_add(levels[number].rows().len());
    }
    count
}

/// How many rows all rules have.
pub(crate) fn count_all_rows(rules: &[RuleLevels]) -> usize
    ensures { result ≡ min (all_rows rules.now) (2 ^ 64 - 1) }
{
    let mut count: usize = 0;
    for number in 0..rules.len() {
        count = count.saturating_add(rules[number].count());
    }
    count
}

/// How many links all stores have.
pub(crate) fn count_links(alpha: &AlphaMemory) -> usize
    ensures { Covers result (places_filed alpha.now) }
{
    let mut count: usize = 0;
    for number in 0..alpha.len() {
        count = count.saturating_add(alpha.store(number as u32).links());
    }
    count
}
