//! Sequences and their copies.

use ops_text::{Duplicate, Sequence};
use std::test::Fail;

#[test]
fn a_copy_has_the_elements_in_order(rt: HostRuntime) -> Result<(), Fail> {
    let mut sequence = Sequence::new(rt.alloc());
    assert!(rt; sequence.is_empty());
    sequence.push((3u32, 5u64))?;
    sequence.push((4, 6))?;
    let copy = sequence.duplicate(rt.alloc())?;
    assert_eq!(rt; copy.as_slice(), [(3, 5), (4, 6)].as_slice());
    assert_eq!(rt; copy.get(1).copied(), Some((4, 6)));
    assert_eq!(rt; copy.get(2).copied(), None);
    let copies = copy.into_vec();
    assert_eq!(rt; copies.as_slice(), sequence.as_slice());
    assert_eq!(rt; Sequence::from_vec(copies).len(), 2);
    assert_eq!(rt; sequence.pop(), Some((4, 6)));
    assert_eq!(rt; sequence.len(), 1);
    Ok(())
}
