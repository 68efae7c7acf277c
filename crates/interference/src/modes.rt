//! Which modes go together, as a table.

ghost use Rattle.std.specs.Prelude.{◌≡◌, ◌<◌};
ghost use Rattle.interference.specs.Modes.{goes, both};
ghost use Rattle.interference.specs.Finding.{place_of};

use rule_base::{Cases, Mode};

/// A row and a column for each mode, in the order of `Mode`.
const GO_TOGETHER: [[u8; 3]; 3] = [[1, 0, 0], [0, 1, 0], [0, 0, 0]];

/// Whether two firings may hold a lock in these modes side by side.
pub fn compatible(a: Mode, b: Mode) -> bool
    ensures { result ≡ goes a b }
{
    Cases::new(GO_TOGETHER).at(place(a), place(b)) == 1
}

/// The mode of one who asks for a lock in both.
pub fn joined(a: Mode, b: Mode) -> Mode
    ensures { result ≡ both a b }
{
    match (a, b) {
        (Mode::Watch, Mode::Watch) => Mode::Watch,
        (Mode::Grow, Mode::Grow) => Mode::Grow,
        _ => Mode::Own,
    }
}

fn place(mode: Mode) -> usize
    ensures place { result ≡ place_of mode }
    ensures within { result < 3 }
{
    match mode {
        Mode::Watch => 0,
        Mode::Grow => 1,
        Mode::Own => 2,
    }
}
