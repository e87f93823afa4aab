// Files in memory, looked up by name.
ghost use Rattle.std.specs.Prelude.{◌≡◌, Some, option_copied, IsErrOf};
ghost use Rattle.ea_ports.specs.Port.{Fetches};
ghost use Rattle.ea_ports.specs.Files.{content_of, named_contents};

use crate::FetchFault;
use std::alloc::Global;

// The content of the first entry of a name.
fn content<'a>(files: &'a [(String, Vec<u8>)], name: &str) -> Option<&'a [u8]>
    ensures { option_copied result ≡ content_of (named_contents files.now) name.now }
{
    for (own, bytes) in files {
        if own.as_str() == name {
            return Some(bytes.as_slice());
        }
    }
    None
}

// A fetch from these files, which fails only when memory runs out.
pub fn fetch_from(
    files: &[(String, Vec<u8>)],
    alloc: Global,
    name: &str,
    limit: usize,
) -> Result<Vec<u8>, FetchFault>
    ensures bytes { Fetches (Some (content_of (named_contents files.now))) name.now limit result }
    ensures never_fails { ¬ IsErrOf result FetchFault.Failed }
{
    let bytes = content(files, name).ok_or(FetchFault::Missing)?;
    if bytes.len() > limit {
        return Err(FetchFault::TooLong);
    }
    bytes.to_vec(alloc).map_err(|_| FetchFault::Memory)
}
