//! A level without rows, and rows of two places.

use match_network::{Arrivals, Level, Rows};
use std::test::Fail;

#[test]
fn a_level_without_rows_is_packed(rt: HostRuntime) -> Result<(), Fail> {
    let arrivals = Arrivals::new(rt.alloc())?;
    let mut level = Level::new(rt.alloc(), 2);
    level.pack(rt.alloc(), &[], &arrivals)?;
    assert!(rt; level.rows().len() == 0 && level.rows().width() == 2);
    Ok(())
}

#[test]
fn the_last_row_is_taken_away(rt: HostRuntime) -> Result<(), Fail> {
    let mut rows = Rows::new(rt.alloc(), 2);
    rows.push_extended(&[5], 6)?;
    rows.push_extended(&[7], 8)?;
    rows.pop();
    assert!(rt; rows.len() == 1);
    assert!(rt; rows.at(0) == [5, 6].as_slice());
    Ok(())
}
