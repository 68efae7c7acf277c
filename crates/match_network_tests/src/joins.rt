//! Full matches of one, two and three positive condition elements, by what the tests of these ask.

use crate::transcript::replayed;
use std::test::Fail;

/// The negated condition element isn't looked at. What has no such tag can't go.
const CHANGES: &str = "
rules (literalize item key)(literalize done key)(p once (item ^key <k>) -(done ^key <k>) --> (make done ^key <k>))
full 0; a 0 7; full 0; a 0 7; full 0; a 1 7; full 0; r 1; full 0; r 1; r 9; full 0; r 3; full 0; both 0 => none; 1; 1; 2; 1 2; 3; 1 2; -; 2; -; -; 2; -; 2; same
rules (literalize left key)(literalize right key)(p pair (left ^key <k>) (right ^key <k>) --> (remove 1))
a 1 4; full 0; a 0 4; full 0; a 0 5; full 0; a 0 4; full 0; a 1 4; full 0; both 0 => 1; none; 2; 2.1; 3; 2.1; 4; 2.1 4.1; 5; 2.1 2.5 4.1 4.5; same
a 0 4; a 1 4; full 0; r 1; full 0; a 0 4; full 0; r 2; full 0; a 1 4; full 0; both 0 => 1; 2; 1.2; -; none; 3; 3.2; -; none; 4; 3.4; same
";

#[test]
fn matches_come_and_go_with_their_elements(rt: HostRuntime) -> Result<(), Fail> {
    assert_eq!(rt; replayed(rt.alloc(), CHANGES)?.as_str(), CHANGES);
    Ok(())
}

/// Each key has two elements.
const MANY: &str = "
rules (literalize a k)(literalize b k)(p r (a ^k <k>) (b ^k <k>) --> (remove 1))
many 0 1 1000; many 1 1 1000; count 0; r 1; count 0; r 2000; count 0 => 1 to 1000; 1 to 1000; 1000; -; 999; -; 998
";

#[test]
fn a_thousand_keys_have_a_match_each(rt: HostRuntime) -> Result<(), Fail> {
    assert_eq!(rt; replayed(rt.alloc(), MANY)?.as_str(), MANY);
    Ok(())
}

/// What lives stays where the dead are dropped, and joins what comes.
const PACKED: &str = "
rules (literalize a k)(literalize b k)(p r (a ^k <k>) (b ^k <k>) -->)
a 0 1; a 0 2; a 1 1; a 1 2; r 1; pack; full 0; both 0; a 1 2; full 0; r 4; pack; pack; a 0 2; full 0; both 0; crowded => 1; 2; 3; 4; -; -; 2.4; same; 5; 2.4 2.5; -; -; -; 6; 2.5 6.5; same; no
many 0 1 6000; many 1 1 6000; crowded; pack; crowded; r 1; count 0 => 1 to 6000; 1 to 6000; yes; -; no; -; 5999
";

#[test]
fn the_dead_are_dropped(rt: HostRuntime) -> Result<(), Fail> {
    assert_eq!(rt; replayed(rt.alloc(), PACKED)?.as_str(), PACKED);
    Ok(())
}

const KEYS: &str = "
Two attributes are equal to two, and one is.
rules (literalize a x y)(literalize b x y)(p two (a ^x <v> ^y <w>) (b ^x <v> ^y <w>) -->)(p one (a ^x <v> ^y <w>) (b ^x <v>) -->)
a 0 1 2; a 1 1 2; a 1 1 3; a 1 2 2; a 0 1 3; full 0; full 1; both 0; both 1 => 1; 2; 3; 4; 5; 1.2 5.3; 1.2 1.3 5.2 5.3; same; same
One attribute is equal to two, and two are to one.
rules (literalize a x y)(literalize b x y)(p in (a ^x <v> ^y <w>) (b ^x { <v> <w> }) -->)(p out (a ^x <v>) (b ^x <v> ^y <v>) -->)
a 0 3 3; a 0 3 4; a 1 3 0; a 1 4 4; a 1 3 3; full 0; full 1; both 0; both 1 => 1; 2; 3; 4; 5; 1.3 1.5; 1.5 2.5; same; same
The first test is equal, and the next two are of other attributes.
rules (literalize a x y)(literalize b x y z)(p r (a ^x <v> ^y <w>) (b ^x <v> ^y > <w> ^z <> <v>) -->)
a 0 1 5; a 1 1 6 0; a 1 1 5 0; a 1 1 6 1; a 1 2 6 0; a 0 2 5; full 0; both 0 => 1; 2; 3; 4; 5; 6; 1.2 6.5; same
No test is equal: each with each, and those that are above.
rules (literalize a x)(literalize b x)(p each (a) (b) -->)(p above (a ^x <x>) (b ^x > <x>) -->)
a 0 1; a 0 2; a 1 1; a 1 2; a 1 3; full 0; full 1; both 0; both 1 => 1; 2; 3; 4; 5; 1.3 1.4 1.5 2.3 2.4 2.5; 1.4 1.5 2.5; same; same
";

#[test]
fn elements_join_by_their_keys_and_tests(rt: HostRuntime) -> Result<(), Fail> {
    assert_eq!(rt; replayed(rt.alloc(), KEYS)?.as_str(), KEYS);
    Ok(())
}

const TWICE: &str = "
A variable stands twice in the first condition element, and in the second, where it is known or new.
rules (literalize a x y)(literalize b x)(p first (a ^x <v> ^y <v>) -->)(p known (b ^x <v>) (a ^x <v> ^y <v>) -->)(p new (b) (a ^x <v> ^y <v>) -->)(p above (a ^x <v> ^y > <v>) -->)
a 0 1 1; a 0 1 2; a 0 2 2; a 1 2; full 0; full 1; full 2; full 3 => 1; 2; 3; 4; 1 3; 4.3; 4.1 4.3; 2
a 1 2; a 0 1 1; a 0 1 2; a 0 2 2; both 0; both 1; both 2; both 3 => 1; 2; 3; 4; same; same; same; same
An element stands at two places of a list, and at three.
rules (literalize a x)(p pair (a ^x <v>) (a ^x <v>) -->)(p each (a) (a) -->)(p three (a ^x <v>) (a ^x <v>) (a ^x <v>) -->)
a 0 1; full 0; full 2; a 0 1; full 0; a 0 2; full 0; full 1 => 1; 1.1; 1.1.1; 2; 1.1 1.2 2.1 2.2; 3; 1.1 1.2 2.1 2.2 3.3; 1.1 1.2 1.3 2.1 2.2 2.3 3.1 3.2 3.3
a 0 1; a 0 1; full 2; r 1; full 0; full 1; full 2 => 1; 2; 1.1.1 1.1.2 1.2.1 1.2.2 2.1.1 2.1.2 2.2.1 2.2.2; -; 2.2; 2.2; 2.2.2
a 0 1; a 0 2; a 0 1; both 0; both 1; both 2; r 3; a 0 2; both 0; both 1; both 2 => 1; 2; 3; same; same; same; -; 4; same; same; same
";

#[test]
fn a_variable_or_an_element_stands_twice(rt: HostRuntime) -> Result<(), Fail> {
    assert_eq!(rt; replayed(rt.alloc(), TWICE)?.as_str(), TWICE);
    Ok(())
}

/// The second condition element hangs on the first, and the third on the second.
const CHAINS: &str = "
rules (literalize a x)(literalize b x y)(literalize c y)(p r (a ^x <v>) (b ^x <v> ^y <w>) (c ^y <w>) -->)
a 0 1; a 0 1; a 1 1 5; a 1 1 5; a 2 5; a 2 5; full 0; r 1; full 0 => 1; 2; 3; 4; 5; 6; 1.3.5 1.3.6 1.4.5 1.4.6 2.3.5 2.3.6 2.4.5 2.4.6; -; 2.3.5 2.3.6 2.4.5 2.4.6
a 0 1; a 0 1; a 1 1 5; a 1 1 5; a 2 5; a 2 5; r 3; full 0; both 0 => 1; 2; 3; 4; 5; 6; -; 1.4.5 1.4.6 2.4.5 2.4.6; same
a 0 1; a 0 1; a 1 1 5; a 1 1 5; a 2 5; a 2 5; r 5; full 0; both 0 => 1; 2; 3; 4; 5; 6; -; 1.3.6 1.4.6 2.3.6 2.4.6; same
a 2 5; a 1 1 5; a 0 1; a 2 5; a 1 1 5; a 0 1; full 0; r 1; r 2; r 3; full 0 => 1; 2; 3; 4; 5; 6; 3.2.1 3.2.4 3.5.1 3.5.4 6.2.1 6.2.4 6.5.1 6.5.4; -; -; -; 6.5.4
What goes before its match is whole leaves nothing, and what comes later finds what stayed.
a 0 1; a 1 1 5; r 1; a 2 5; full 0; a 0 1; full 0; r 2; full 0; a 1 1 5; full 0; both 0 => 1; 2; -; 3; none; 4; 4.2.3; -; none; 5; 4.5.3; same
An element of one class at all three, in one order and the other.
rules (literalize a x y)(p up (a ^y <v>) (a ^x <v> ^y <w>) (a ^x <w>) -->)(p down (a ^x <v>) (a ^y <v> ^x <w>) (a ^y <w>) -->)
a 0 1 2; a 0 2 3; a 0 3 4; a 0 2 2; full 0; full 1 => 1; 2; 3; 4; 1.2.3 1.4.2 1.4.4 4.2.3 4.4.2 4.4.4; 2.4.1 2.4.4 3.2.1 3.2.4 4.4.1 4.4.4
a 0 1 2; a 0 2 3; a 0 3 4; a 0 2 2; r 2; full 0; full 1; a 0 2 1; both 0; both 1 => 1; 2; 3; 4; -; 1.4.4 4.4.4; 4.4.1 4.4.4; 5; same; same
";

#[test]
fn an_element_goes_from_each_place_of_a_list(rt: HostRuntime) -> Result<(), Fail> {
    assert_eq!(rt; replayed(rt.alloc(), CHAINS)?.as_str(), CHAINS);
    Ok(())
}

const STORES: &str = "
Three rules ask alike for elements of b, the last one twice.
rules (literalize a x)(literalize b x)(literalize c x)(p one (a ^x <v>) (b ^x <v>) -->)(p two (c ^x <v>) (b ^x <v>) -->)(p three (b ^x <v>) (b ^x <v>) -->)
a 0 1; a 2 1; a 1 1; full 0; full 1; full 2; a 1 1; full 0; full 1; full 2 => 1; 2; 3; 1.3; 2.3; 3.3; 4; 1.3 1.4; 2.3 2.4; 3.3 3.4 4.3 4.4
a 1 1; a 1 1; r 1; a 0 1; a 2 1; full 0; full 1; full 2; both 0; both 1; both 2 => 1; 2; -; 3; 4; 3.2; 4.2; 2.2; same; same; same
Constants, and any of some or of none.
rules (literalize a x y)(literalize b x)(p is (a ^x 7) -->)(p some (a ^x << 7 8 >>) -->)(p none (a ^x << >>) -->)(p above (a ^x > 7 ^y <> 1) -->)(p later (b ^x <v>) (a ^x <v> ^y << 1 3 >>) -->)
a 0 7 1; a 0 8 1; a 0 9 1; a 0 9 2; full 0; full 1; full 2; full 3 => 1; 2; 3; 4; 1; 1 2; none; 4
a 1 7; a 1 9; a 0 7 1; a 0 9 2; a 0 9 3; full 4; r 3; full 4; both 0; both 1; both 2; both 3; both 4 => 1; 2; 3; 4; 5; 1.3 2.5; -; 2.5; same; same; same; same; same
";

#[test]
fn rules_share_what_they_ask_for(rt: HostRuntime) -> Result<(), Fail> {
    assert_eq!(rt; replayed(rt.alloc(), STORES)?.as_str(), STORES);
    Ok(())
}
