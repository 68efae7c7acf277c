//! The words of all locks: what footprints add to them and take away again.

ghost use Rattle.std.specs.Prelude.{◌≡◌, ◌+◌, ◌<◌, ◌≤◌, ◌^◌, ℕ, OnErr, OnOk, get_or, length, replicate};
ghost use Rattle.std.specs.List.{AllByRecursion};
ghost use Rattle.rule_base.specs.declared.lock.Mode.{Mode};
ghost use Rattle.interference.specs.Locks.{lock_count};
ghost use Rattle.standing_claims.specs.Amounts.{amounts};

use interference::amount;
use ops_text::OutOfMemory;
use rule_base::Mode;

/// How many locks there are: 1,024 stripes, and 16 regions for each of 256 classes.
const LOCKS: usize = 1024 + 16 * 256;

/// Lays out a word for each lock, where there are none yet.
pub fn lay_out(words: &mut Vec<u64>) -> Result<(), OutOfMemory>
    requires { 0 < length words.old.items → length words.old.items ≡ lock_count }
    ensures same { (lock : ℕ) → get_or words.new.items lock 0 ≡ get_or words.old.items lock 0 }
    ensures ok { OnOk result (length words.new.items ≡ lock_count) }
    ensures err { OnErr result (words.new.items ≡ words.old.items) }
{
    if words.is_empty() {
        words.resize(LOCKS, 0)?;
    }
    Ok(())
}

/// Adds the amounts that a footprint asks for to the words of its locks.
pub fn add_amounts(words: &mut [u64], footprint: &[(u32, Mode)])
    requires within { AllByRecursion (λ (d : ℕ × Mode). d.0 < length words.old) footprint.now }
    requires fits { (lock : ℕ) → get_or words.old lock 0 + amounts footprint.now lock < 2 ^ 64 }
    ensures words { (lock : ℕ) → get_or words.new lock 0
        ≡ get_or words.old lock 0 + amounts footprint.now lock }
    ensures count { length words.new ≡ length words.old }
{
    for (lock, mode) in footprint {
        words[*lock as usize] += amount(*mode);
    }
}

/// Takes the amounts that a footprint asks for away from the words of its locks.
pub fn subtract_amounts(words: &mut [u64], footprint: &[(u32, Mode)])
    requires within { AllByRecursion (λ (d : ℕ × Mode). d.0 < length words.old) footprint.now }
    requires taken { (lock : ℕ) → amounts footprint.now lock ≤ get_or words.old lock 0 }
    ensures words { (lock : ℕ) → get_or words.new lock 0 + amounts footprint.now lock
        ≡ get_or words.old lock 0 }
    ensures count { length words.new ≡ length words.old }
{
    for (lock, mode) in footprint {
        words[*lock as usize] -= amount(*mode);
    }
}

/// Makes them the words of locks that nobody has taken.
pub fn free_all(words: &mut [u64])
    ensures { words.new ≡ replicate (length words.old) 0 }
{
    words.fill(0);
}
