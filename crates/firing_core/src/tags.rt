//! Elements whose tags rise, looked for by their tags.

ghost use Rattle.std.specs.Prelude.{◌≡◌, ◌<◌};
ghost use Rattle.rule_base.specs.Memory.{Rises, tags_of};
ghost use Rattle.firing_core.specs.Store.{IsPlaceOf};

use rule_base::Elements;

/// Where the element with this tag lies, if one has it. It halves the places that are left, so it takes
/// as many steps as their number has bits.
pub fn place_of(elements: &Elements, tag: u64) -> Option<usize>
    requires { Rises (tags_of elements.now) }
    ensures { IsPlaceOf elements.now tag result }
{
    let mut low = 0;
    let mut high = elements.len();
    while low < high {
        let middle = low + (high - low) / 2;
        let found = elements.at(middle).tag;
        if found == tag {
            return Some(middle);
        }
        if found < tag {
            low = middle + 1;
        } else {
            high = middle;
        }
    }
    None
}
