//! Files of the system.

use crate::files::pattern;
use ops_text::{FileShelf, ReadRefusal, read_all};
use std::test::Fail;
use std::{env, fs};

#[test]
fn files_of_the_system_are_read(rt: HostRuntime) -> Result<(), Fail> {
    let mut path = env::temp_dir(&rt)?;
    path.push(format!(in rt.alloc(); "ops-text-{}", std::process::id(rt.process()))?)?;
    let path = path.to_str().ok_or("no text")?;
    let long = pattern(rt.alloc(), 200_000)?;
    fs::write(&rt, path, long.as_slice())?;
    let mut shelf = FileShelf::new(&rt);
    let read = read_all(rt.alloc(), &mut shelf, path, 200_000);
    let longer = read_all(rt.alloc(), &mut shelf, path, 199_999);
    fs::remove_file(&rt, path)?;
    let absent = read_all(rt.alloc(), &mut shelf, path, 200_000);
    let folder = read_all(rt.alloc(), &mut shelf, ".", 200_000);
    assert_eq!(rt; read?.as_slice(), long.as_slice());
    assert!(rt; matches!(longer, Err(ReadRefusal::TooLong)));
    assert!(rt; matches!(absent, Err(ReadRefusal::ReadFault)));
    assert!(rt; matches!(folder, Err(ReadRefusal::ReadFault)));
    assert_eq!(rt; shelf.faults, 2);
    Ok(())
}
