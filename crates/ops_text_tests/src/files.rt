//! Files of shelves in memory, which fail at calls that are listed.

use ops_text::{MemShelf, OutOfMemory, ReadRefusal, Shelf, ShelfFailed, SureShelf, read_all};
use std::alloc::Global;
use std::test::Fail;

// A shelf with two files of one name before an empty one.
fn three_files(alloc: Global, first: Vec<u8>) -> Result<MemShelf, OutOfMemory> {
    let file = String::from_str(alloc, "file")?;
    let again = String::from_str(alloc, "file")?;
    let hollow = String::from_str(alloc, "hollow")?;
    let second = Vec::from_slice(alloc, b"second")?;
    Ok(MemShelf {
        files: vec![in alloc; (file, first), (again, second), (hollow, Vec::new(alloc))]?,
        failing: Vec::new(alloc),
        calls: 0,
        faults: 0,
    })
}

/// Bytes of which no two neighbouring pieces are alike.
pub fn pattern(alloc: Global, length: u32) -> Result<Vec<u8>, OutOfMemory> {
    let mut bytes = Vec::new(alloc);
    for at in 0..length {
        bytes.push((at % 251) as u8)?;
    }
    Ok(bytes)
}

#[test]
fn a_file_is_read_whole_or_refused(rt: HostRuntime) -> Result<(), Fail> {
    let long = pattern(rt.alloc(), 4_194_304)?;
    let mut shelf = three_files(rt.alloc(), pattern(rt.alloc(), 4_194_304)?)?;
    let rows: [(&str, u64, Result<&[u8], ReadRefusal>); 7] = [
        ("file", 4_194_304, Ok(&long)),
        ("file", u64::MAX, Ok(&long)),
        ("file", 4_194_303, Err(ReadRefusal::TooLong)),
        ("file", 0, Err(ReadRefusal::TooLong)),
        ("hollow", 0, Ok(b"")),
        ("absent", 100, Err(ReadRefusal::ReadFault)),
        ("", 100, Err(ReadRefusal::ReadFault)),
    ];
    for (name, most, want) in rows {
        let read = read_all(rt.alloc(), &mut shelf, name, most);
        let got = match &read {
            Ok(bytes) => Ok(bytes.as_slice()),
            Err(refusal) => Err(*refusal),
        };
        assert_eq!(rt; got, want, "{name:?} of at most {most} bytes");
    }
    Ok(())
}

#[test]
fn a_call_that_is_listed_fails_in_mid_file(rt: HostRuntime) -> Result<(), Fail> {
    let mut shelf = three_files(rt.alloc(), pattern(rt.alloc(), 200_000)?)?;
    shelf.failing.push(3)?;
    shelf.failing.push(5)?;
    let refused = read_all(rt.alloc(), &mut shelf, "file", 200_000);
    assert!(rt; matches!(refused, Err(ReadRefusal::ReadFault)));
    assert_eq!(rt; (shelf.calls, shelf.faults), (3, 1));

    // A call without room for a byte counts, and fails where it is listed.
    assert_eq!(rt; shelf.piece("file", 0, &mut []), Ok(0));
    assert_eq!(rt; shelf.piece("file", 0, &mut []), Err(ShelfFailed));
    assert_eq!(rt; shelf.piece("absent", 0, &mut []), Err(ShelfFailed));
    assert_eq!(rt; (shelf.calls, shelf.faults), (6, 3));

    let whole = read_all(rt.alloc(), &mut shelf, "file", 200_000)?;
    assert_eq!(rt; whole.len(), 200_000);
    Ok(())
}

#[test]
fn a_sure_shelf_takes_an_absent_file_for_an_empty_one(rt: HostRuntime) -> Result<(), Fail> {
    let MemShelf { files, .. } = three_files(rt.alloc(), Vec::from_slice(rt.alloc(), b"first")?)?;
    let mut shelf = SureShelf { files };
    for (name, want) in [("file", "first"), ("hollow", ""), ("absent", "")] {
        let read = read_all(rt.alloc(), &mut shelf, name, 5)?;
        assert_eq!(rt; read.as_slice(), want.as_bytes());
    }
    let long = read_all(rt.alloc(), &mut shelf, "file", 4);
    assert!(rt; matches!(long, Err(ReadRefusal::TooLong)));
    Ok(())
}
