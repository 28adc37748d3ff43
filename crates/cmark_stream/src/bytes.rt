//! Bytes of a text that arrive in chunks. They may end inside a character.

ghost use Rattle.std.specs.Prelude.{◌≡◌, ◌++◌, IfOk, IfSome, IsNone};
ghost use Rattle.cmark_stream.specs.Chunks.{IsCutInto, IsNeverUtf8};

use arrayvec::ArrayVec;
use std::alloc::{AllocError, Global};
use std::str;

/// The whole characters at the start of some bytes, and the first bytes of a character that follow them. `None` if the bytes are not UTF-8,
/// whatever follows them.
pub fn whole_characters(bytes: &[u8]) -> Option<(&str, ArrayVec<u8, 3>)>
    ensures parts { IfSome result (λ parts. IsCutInto bytes.now parts.0.now parts.1.items) }
    ensures not_utf8 { IsNone result → IsNeverUtf8 bytes.now }
{
    let size = match str::from_utf8(bytes) {
        Ok(text) => return Some((text, ArrayVec::new())),
        Err(error) => match error.error_len() {
            None => error.valid_up_to(),
            Some(_) => return None,
        },
    };
    let (whole, begun) = bytes.split_at(size);
    match (str::from_utf8(whole), ArrayVec::try_from(begun)) {
        (Ok(text), Ok(begun)) => Some((text, begun)),
        (Err(_), _) | (_, Err(_)) => unreachable!(),
    }
}

/// Both parts, one after the other. Fails only if memory is refused.
pub fn joined(alloc: Global, front: &[u8], back: &[u8]) -> Result<Vec<u8>, AllocError>
    ensures { IfOk result (λ bytes. bytes.items ≡ front.now ++ back.now) }
{
    let mut bytes = Vec::from_slice(alloc, front)?;
    bytes.extend_from_slice(back)?;
    Ok(bytes)
}
