//! The names of files.
ghost use Rattle.std.specs.Prelude.{◌≡◌, ◌≤◌, IfOk, length};
ghost use Rattle.wf_tests.specs.Names.{beside, folder, folder_end, is_rooted};

use std::alloc::{AllocError, Global};
use wf_val::Text;

fn folder_end(name: &[u8]) -> usize
    ensures end { result ≡ folder_end 0 0 name.now }
    ensures within { result ≤ length name.now }
{
    let mut end = 0;
    for (place, byte) in name.iter().enumerate() {
        if *byte == b'/' {
            end = place + 1;
        }
    }
    end
}

fn folder(name: &[u8]) -> &[u8]
    ensures { result.now ≡ folder name.now }
{
    &name[..folder_end(name)]
}

fn is_rooted(name: &[u8]) -> bool
    ensures { result ≡ is_rooted name.now }
{
    match name {
        [first, ..] => *first == b'/',
        [] => false,
    }
}

/// The name of a file that lies beside another.
pub(crate) fn beside(alloc: Global, file: &Text, name: &Text) -> Result<Text, AllocError>
    ensures { IfOk result (λ t. t ≡ beside file.now name.now) }
{
    if is_rooted(name.as_str().as_bytes()) {
        return name.copy(alloc);
    }
    let mut bytes = folder(file.as_str().as_bytes()).to_vec(alloc)?;
    bytes.extend_from_slice(name.as_str().as_bytes())?;
    Ok(Text::from_string(String::from_utf8_lossy(alloc, &bytes)?))
}
