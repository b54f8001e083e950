ghost use Rattle.std.specs.Prelude.{◌≡◌, ◌≤◌, Some, length, min, drop};
ghost use Rattle.std.specs.Option.{option_copied};
ghost use Rattle.floyd_text.specs.Outside.{IsFound, IsPiece, IsRead, bytes_from, file_in};

use crate::named_file::NamedFile;
use crate::outside::Found;

/// Whether there is a file of that name.
#[tactic(auto, unfolding(crate::specs::Outside::HasSome, crate::specs::Outside::HasNone))]
pub(crate) fn found_in(files: &[NamedFile], name: &str) -> Found
    ensures { IsFound (Some files.now) name.now result }
{
    match bytes_of(files, name) {
        Some(_) => Found::There,
        None => Found::Missing,
    }
}

/// Reads as much as there is room for of what the file has from `at` on.
#[tactic(auto, unfolding(crate::specs::Outside::IsRead))]
pub(crate) fn read_from(files: &[NamedFile], name: &str, at: u64, into: &mut [u8]) -> usize
    ensures within { result ≤ length into.old }
    ensures bytes { IsRead (Some files.now) name.now at (length into.old) result into.new }
    ensures most { result ≡ min (length into.old) (length (bytes_from (file_in files.now name.now) at)) }
{
    match bytes_of(files, name) {
        Some(bytes) => copy_from(bytes, at, into),
        None => 0,
    }
}

/// Copies as much as there is room for of what stands from `at` on.
fn copy_from(bytes: &[u8], at: u64, into: &mut [u8]) -> usize
    ensures within { result ≤ length into.old }
    ensures piece { IsPiece (drop at bytes.now) (length into.old) result into.new }
    ensures most { result ≡ min (length into.old) (length (drop at bytes.now)) }
{
    if at >= bytes.len() as u64 {
        return 0;
    }
    let rest = &bytes[at as usize..];
    let n = rest.len().min(into.len());
    into[..n].copy_from_slice(&rest[..n]);
    n
}

/// The bytes of the first file of that name.
#[tactic(auto, unfolding(crate::specs::Outside::file_in))]
fn bytes_of<'a>(files: &'a [NamedFile], name: &str) -> Option<&'a [u8]>
    ensures { option_copied result ≡ file_in files.now name.now }
{
    files
        .iter()
        .find(|file| file.name.as_slice() == name.as_bytes())
        .map(|file| file.bytes.as_slice())
}
