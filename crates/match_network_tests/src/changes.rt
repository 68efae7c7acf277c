//! Elements that come to a network and go.

ghost use Rattle.std.specs.Prelude.{◌≡◌, ◌<◌, IfSome};
ghost use Rattle.std.specs.List.{AllByRecursion};
ghost use Rattle.rule_base.specs.declared.element.Element.{Element};

use match_network::{Arrivals, Network};
use ops_text::OutOfMemory;
use rule_base::{ElementView, Steps, Value};
use std::marker::Brand;
use std::sync::ledger::{Blank, Ledger};

/// Takes in an element with the next tag, and answers that tag. It also fails where no tags are left.
pub fn add(network: &mut Network, class: u32, values: &[Value]) -> Result<u64, OutOfMemory> {
    add_on::<Brand>(network, class, values, Blank::new(1))
}

/// The same, with its steps on a ledger of its own.
fn add_on<L: Ledger>(
    network: &mut Network,
    class: u32,
    values: &[Value],
    blank: Blank,
) -> Result<u64, OutOfMemory>
    requires name { blank.name ≡ L.name }
    requires parts { blank.parts ≡ L.parts }
    requires one { blank.parts ≡ 1 }
{
    let Some(tag) = next_tag(network.arrivals()) else {
        return Err(OutOfMemory);
    };
    let mut steps = Steps::<L>::new(blank);
    let element = ElementView { tag, class, values };
    network.add(element, &mut steps)?;
    Ok(tag)
}

/// One more than the tag of the element that came last, or 1.
fn next_tag(arrivals: &Arrivals) -> Option<u64>
    ensures { IfSome result (λ tag. AllByRecursion (λ (e : Element). e.tag < tag) arrivals.now.came) }
{
    let len = arrivals.len();
    if len == 0 {
        return Some(1);
    }
    let last = arrivals.at(len as u32 - 1);
    if last.tag == u64::MAX {
        return None;
    }
    Some(last.tag + 1)
}

/// Takes in elements of a class that have these numbers as their only values.
pub fn add_many(
    network: &mut Network,
    class: u32,
    first: i64,
    last: i64,
) -> Result<(), OutOfMemory> {
    for number in first..=last {
        add(network, class, &[Value::Int(number)])?;
    }
    Ok(())
}
