//! The full matches of a rule as a network has them, and lists of tags as texts.

ghost use Rattle.std.specs.Prelude.{◌<◌, length};

use match_network::{Arrivals, FullRows, Network};
use ops_text::OutOfMemory;
use rule_base::ElementView;
use std::alloc::Global;
use std::test::Fail;

/// The element that came at a place, if one did.
pub fn element_at(arrivals: &Arrivals, place: u32) -> Option<ElementView<'_>> {
    if place as usize >= arrivals.len() {
        return None;
    }
    Some(arrivals.at(place))
}

/// The lists of tags of a rule's full matches, in rising order.
pub fn full_matches(
    alloc: Global,
    network: &Network,
    number: usize,
) -> Result<Vec<Vec<u64>>, OutOfMemory>
    requires { number < length network.now.rules }
{
    match network.rule(number).rows() {
        Some(_) => all_tags(alloc, network.full(number), network.arrivals()),
        None => Ok(Vec::new(alloc)),
    }
}

/// The lists of tags of rows, in rising order.
fn all_tags(
    alloc: Global,
    rows: FullRows<'_>,
    arrivals: &Arrivals,
) -> Result<Vec<Vec<u64>>, OutOfMemory> {
    let mut lists = Vec::new(alloc);
    for row in rows {
        lists.push(tags_at(alloc, arrivals, row)?)?;
    }
    lists.as_mut_slice().sort_unstable();
    Ok(lists)
}

/// The tags of the elements at these places.
pub fn tags_at(alloc: Global, arrivals: &Arrivals, row: &[u32]) -> Result<Vec<u64>, OutOfMemory> {
    let mut tags = Vec::new(alloc);
    for place in row {
        if let Some(element) = element_at(arrivals, *place) {
            tags.push(element.tag)?;
        }
    }
    Ok(tags)
}

/// Lists of tags, as `1.2 1.3`.
pub fn text_of(alloc: Global, lists: &[Vec<u64>]) -> Result<String, OutOfMemory> {
    if lists.is_empty() {
        return Ok("none".to_string(alloc)?);
    }
    let mut text = String::new(alloc);
    for tags in lists {
        if !text.is_empty() {
            text.push(' ')?;
        }
        put_tags(alloc, tags.as_slice(), &mut text)?;
    }
    Ok(text)
}

/// Adds tags with points between them.
fn put_tags(alloc: Global, tags: &[u64], text: &mut String) -> Result<(), OutOfMemory> {
    for (number, tag) in tags.iter().enumerate() {
        if number > 0 {
            text.push('.')?;
        }
        text.push_str(&format!(in alloc; "{tag}")?)?;
    }
    Ok(())
}
