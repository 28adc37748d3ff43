//! Texts of the bytes between two offsets of a leaf's text, and where the content of a code span ends.

ghost use Rattle.std.specs.Prelude.{◌≡◌, ◌⊎◌, ◌≤◌, ◌+◌, ◌-◌, length, IfOk};
ghost use Rattle.cmark_grammar.specs.Tokens.{slice};
ghost use Rattle.cmark_leaf_text.specs.Reads.{IsPart, IsRead, place_of, source_of, text_of};
ghost use Rattle.cmark_values.specs.Lending.{IsBorrowed, IsLentBy};
ghost use Rattle.cmark_values.specs.Shown.{IsBoxed, IsInlined, text_bytes};
ghost use Rattle.cmark_slots.specs.Slots.{before_backticks};

use cmark_leaf_text::LeafText;
use cmark_values::CowStr;
use std::alloc::{AllocError, Global};

/// The bytes of a leaf's text from `from` up to `to`: borrowed if they are in the source without a gap. Fails if memory is refused.
#[inline(always)]
pub fn text_between<'a>(
    alloc: Global,
    leaf: &LeafText<'a>,
    from: usize,
    to: usize,
) -> Result<CowStr<'a>, AllocError>
    requires read { IsRead leaf.now }
    requires part { IsPart (text_of leaf.now) from to }
    ensures value { IfOk result (λ text. text_bytes text ≡ slice (text_of leaf.now) from to) }
    ensures lent { place_of leaf.now (to - 1) + 1 ≡ place_of leaf.now from + (to - from)
        → IfOk result IsBorrowed }
    ensures source { IfOk result
        (IsLentBy
        (slice (source_of leaf.now) (place_of leaf.now from) (place_of leaf.now (to - 1) + 1))) }
{
    match leaf.slice(from, to) {
        Some(text) => Ok(CowStr::Borrowed(text)),
        None => copied(alloc, &leaf.as_str()[from..to]),
    }
}

/// A copy of the text that borrows nothing. Fails if memory is refused.
#[inline(never)]
pub fn copied<'a>(alloc: Global, text: &str) -> Result<CowStr<'a>, AllocError>
    ensures value { IfOk result (λ copy. text_bytes copy ≡ text.now) }
    ensures own { IfOk result (λ copy. IsBoxed copy ⊎ IsInlined copy) }
{
    CowStr::Borrowed(text).into_static(alloc)
}

/// The offset of the backticks that end at the offset `end`, which is the end of a code span's content.
#[inline(always)]
pub fn before_backticks(text: &str, end: usize) -> usize
    requires { end ≤ length text.now }
    ensures { result ≡ before_backticks text.now end }
{
    let bytes = text.as_bytes();
    let mut at = end;
    while 0 < at && bytes[at - 1] == b'`' {
        at -= 1;
    }
    at
}
