//! Which texts are borrowed.

ghost use Rattle.std.specs.Prelude.{◌≡◌, IfOk};
ghost use Rattle.cmark_values.specs.Shown.{text_bytes};
ghost use Rattle.cmark_values.specs.Lending.{IsLentBy};

use crate::text::CowStr;
use std::alloc::{AllocError, Global};

impl<'a> CowStr<'a> {
    /// This text, borrowed from `part` if the two are equal, and otherwise as a value that borrows nothing. An event over `part` holds
    /// its text in this way.
    ///
    /// Memory is taken only for a borrowed text that differs from `part` and is too long for an [`InlineStr`](crate::InlineStr).
    pub fn lent_by(self, alloc: Global, part: &'a str) -> Result<CowStr<'a>, AllocError>
        ensures value { IfOk result (λ made. text_bytes made ≡ text_bytes self.entry) }
        ensures lent { IfOk result (IsLentBy part.entry.now) }
    {
        if self.as_str() == part {
            return Ok(CowStr::Borrowed(part));
        }
        self.into_static(alloc)
    }
}
