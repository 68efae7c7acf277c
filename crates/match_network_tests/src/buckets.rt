//! Hash buckets, of which the even numbers live.

ghost use Rattle.std.specs.Prelude.{◌%◌, ◌==◌};

use hash_buckets::{Buckets, Living};
use ops_text::OutOfMemory;
use std::alloc::Global;
use std::test::Fail;

/// Even numbers live, and no others do.
struct Even;

impl Living for Even {
    ghost lives = { λ e n. n % 2 == 0 };

    fn is_living(&self, number: u32) -> bool {
        number % 2 == 0
    }
}

/// The numbers under 7 and under 8, and how many links there are.
fn told(alloc: Global, buckets: &Buckets) -> Result<String, OutOfMemory> {
    let sevens: Vec<u32> = buckets.bucket(7).collect(alloc)?;
    let eights: Vec<u32> = buckets.bucket(8).collect(alloc)?;
    let links = buckets.len();
    Ok(format!(in alloc; "{sevens:?} {eights:?} in {links}")?)
}

#[test]
fn the_dead_stay_until_they_are_cleaned_away(rt: HostRuntime) -> Result<(), Fail> {
    let alloc = rt.alloc();
    let mut buckets = Buckets::new(alloc);
    for (hash, number) in [(7, 1), (7, 2), (8, 3), (7, 4), (8, 5)] {
        buckets.push(hash, number)?;
    }
    assert_eq!(rt; told(alloc, &buckets)?.as_str(), "[4, 2, 1] [5, 3] in 5");
    buckets.clean(7, &Even);
    assert_eq!(rt; told(alloc, &buckets)?.as_str(), "[4, 2] [5, 3] in 5");
    buckets.pack(alloc, &Even)?;
    assert_eq!(rt; told(alloc, &buckets)?.as_str(), "[4, 2] [] in 2");
    Ok(())
}
