//! Lock words: what those who have taken a lock add up to.

ghost use Rattle.std.specs.Prelude.{◌≡◌, ◌<◌, ℕ, get_or, length};
ghost use Rattle.std.specs.List.{AllByRecursion};
ghost use Rattle.rule_base.specs.declared.lock.Mode.{Mode};
ghost use Rattle.interference.specs.Words.{admits, amount, first_busy};

use rule_base::{Busy, Mode};

/// One who grows.
const GROW: u64 = 1 << 20;

/// One who owns.
const OWN: u64 = 1 << 40;

/// What one who takes a lock in this mode adds to its word.
pub fn amount(mode: Mode) -> u64
    ensures { result ≡ amount mode }
{
    match mode {
        Mode::Watch => 1,
        Mode::Grow => GROW,
        Mode::Own => OWN,
    }
}

/// Whether a lock with this word may be taken in the mode.
pub fn admits(word: u64, mode: Mode) -> bool
    ensures { result ≡ admits word mode }
{
    match mode {
        Mode::Watch => word < GROW,
        Mode::Grow => word < OWN && word % GROW == 0,
        Mode::Own => word == 0,
    }
}

/// The first demand of a footprint that these words, one for each lock, leave no room for. It looks at
/// one demand after another.
pub fn first_busy(words: &[u64], footprint: &[(u32, Mode)]) -> Option<Busy>
    requires { AllByRecursion (λ (d : ℕ × Mode). d.0 < length words.now) footprint.now }
    ensures { result ≡ first_busy (λ lock. get_or words.now lock 0) footprint.now }
{
    for (lock, mode) in footprint {
        let word = words[*lock as usize];
        if !admits(word, *mode) {
            return Some(Busy { lock: *lock, word });
        }
    }
    None
}
