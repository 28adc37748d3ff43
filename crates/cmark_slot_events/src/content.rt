//! The contents of code spans and formulas.

ghost use Rattle.std.specs.Prelude.{◌≡◌, ◌⊎◌, false, IfOk};
ghost use Rattle.cmark_grammar.specs.CodeSpans.{code_text};
ghost use Rattle.cmark_grammar.specs.InlineHtml.{takes_lines};
ghost use Rattle.cmark_grammar.specs.InlineTokens.{without_pipe_escapes};
ghost use Rattle.cmark_leaf_text.specs.Reads.{IsPart, IsRead, source_of, text_of};
ghost use Rattle.cmark_values.specs.Shown.{IsBoxed, IsInlined, text_bytes};
ghost use Rattle.cmark_values.specs.Lending.{IsBorrowed, IsPartIfBorrowed};
ghost use Rattle.cmark_slot_events.specs.Contents.{IsInLeaf, IsUnbroken, read_as, written};

use cmark_leaf_text::LeafText;
use cmark_scan_bytes::without_pipe_escapes;
use cmark_slots::text::text_between;
use cmark_span_scan::code_text;
use cmark_text::CowStr;
use std::alloc::{AllocError, Global};

/// The bytes of a leaf's text that are the content of a code span or a formula.
#[derive(Clone, Copy)]
pub struct Content<'s, 'a> {
    pub leaf: &'s LeafText<'a>,
    pub from: usize,
    pub to: usize,
}

impl<'s, 'a> Content<'s, 'a> {
    /// The text of a code span: borrowed if it is in the source without a gap and has no line ending. In a table cell each escaped pipe
    /// becomes a pipe, and the text is owned then (GFM 4.10).
    pub fn code(&self, alloc: Global) -> Result<CowStr<'a>, AllocError>
        requires { IsInLeaf self.now }
        ensures value { IfOk result (λ text. text_bytes text ≡ code_text (read_as self.now)) }
        ensures lent { IsUnbroken self.now → takes_lines (written self.now) ≡ false
            → read_as self.now ≡ written self.now → IfOk result IsBorrowed }
        ensures part { IfOk result (IsPartIfBorrowed (source_of self.now.leaf.now)) }
    {
        if self.from >= self.to {
            return Ok(CowStr::Borrowed(""));
        }
        if self.leaf.is_cell() {
            return self.code_in_cell(alloc);
        }
        match self.leaf.slice(self.from, self.to) {
            Some(content) => code_text(alloc, content),
            None => own_code(alloc, &self.leaf.as_str()[self.from..self.to]),
        }
    }

    // The text of a code span in a table cell.
    #[inline(never)]
    fn code_in_cell(&self, alloc: Global) -> Result<CowStr<'a>, AllocError>
        requires read { IsRead self.now.leaf.now }
        requires part { IsPart (text_of self.now.leaf.now) self.now.from self.now.to }
        ensures value { IfOk result
            (λ text. text_bytes text ≡ code_text (without_pipe_escapes (written self.now))) }
        ensures lent { IsUnbroken self.now → takes_lines (written self.now) ≡ false
            → without_pipe_escapes (written self.now) ≡ written self.now → IfOk result IsBorrowed }
        ensures part { IfOk result (IsPartIfBorrowed (source_of self.now.leaf.now)) }
    {
        let Ok(written) = text_between(alloc, self.leaf, self.from, self.to) else {
            return Err(AllocError);
        };
        let Ok(content) = without_pipe_escapes(alloc, written) else {
            return Err(AllocError);
        };
        if let CowStr::Borrowed(part) = &content {
            return code_text(alloc, *part);
        }
        own_code(alloc, content.as_str())
    }

    /// The text of a formula, with its line endings and blanks: borrowed if it is in the source without a gap. In a table cell each escaped
    /// pipe becomes a pipe, and the text is owned then (GFM 4.10).
    pub fn formula(&self, alloc: Global) -> Result<CowStr<'a>, AllocError>
        requires { IsInLeaf self.now }
        ensures value { IfOk result (λ text. text_bytes text ≡ read_as self.now) }
        ensures lent { IsUnbroken self.now → read_as self.now ≡ written self.now
            → IfOk result IsBorrowed }
        ensures part { IfOk result (IsPartIfBorrowed (source_of self.now.leaf.now)) }
    {
        if self.from >= self.to {
            return Ok(CowStr::Borrowed(""));
        }
        let Ok(text) = text_between(alloc, self.leaf, self.from, self.to) else {
            return Err(AllocError);
        };
        if self.leaf.is_cell() {
            return without_pipe_escapes(alloc, text);
        }
        Ok(text)
    }
}

// The text of a code span with this content, as a value that borrows nothing.
fn own_code<'a>(alloc: Global, content: &str) -> Result<CowStr<'a>, AllocError>
    ensures value { IfOk result (λ text. text_bytes text ≡ code_text content.now) }
    ensures own { IfOk result (λ text. IsBoxed text ⊎ IsInlined text) }
{
    match code_text(alloc, content) {
        Ok(code) => code.into_static(alloc),
        Err(error) => Err(error),
    }
}
