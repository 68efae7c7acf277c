//! Files that are kept in memory, each a name with its bytes.

ghost use Rattle.std.specs.Prelude.{◌≡◌};
ghost use Rattle.std.specs.Option.{option_copied};
ghost use Rattle.ops_text.specs.Files.{first_file, Copies};

/// The first file with this name.
pub(super) fn find<'a>(files: &'a [(String, Vec<u8>)], name: &str) -> Option<&'a [u8]>
    ensures { option_copied result ≡ first_file files.now name.now }
{
    files
        .iter()
        .find(|file| file.0.as_str() == name)
        .map(|file| file.1.as_slice())
}

/// Copies as many bytes of a file, from a place on, as there are and as there is room for.
pub(super) fn copy_from(file: &[u8], at: u64, into: &mut [u8]) -> usize
    ensures { Copies file.now at into.old into.new result }
{
    let start = file.len().min(at as usize);
    let count = (file.len() - start).min(into.len());
    into[..count].copy_from_slice(&file[start..start + count]);
    count
}
