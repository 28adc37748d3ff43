//! The text of a leaf.

ghost use Rattle.std.specs.Prelude.{ℕ, ◌≡◌, ◌<◌, ◌≤◌, ◌+◌, ◌-◌, ◌++◌, ◌≢◌, [], drop, length, take, IsOk, OnOk, IfOk, IfSome, None, ◌∷◌, string_bytes};
ghost use Rattle.cmark_grammar.specs.Tokens.{slice};
ghost use Rattle.cmark_leaf_text.specs.Reads.{IsRead, IsPart, IsFirstFrom, is_cell_of, text_of, source_of, place_of};
ghost use Rattle.std.specs.Str.{IsCharBoundary};
ghost use Rattle.cmark_leaf_text.specs.Stretches.{AreLines, AreStretches, IsOpen, IsLine, PlacesMore, StandAs, joined, leaf_bytes, end_in_leaf, place_on, FindsStretch};

use crate::stretch::{LeafLine, Stretch};
use std::alloc::{AllocError, Global};
use std::ops::Range;

/// The text of a leaf block (CommonMark 4): its lines one after the other, without the prefixes of the containers. The line ends between
/// them and the blanks before later lines are those of the source. One value is used for one leaf after the other. Offsets are in bytes, of
/// the text or of the source.
///
/// If the lines are adjacent in the source, the text is a part of it; otherwise it is copied, into memory that is used again.
#[derive(Drop)]
pub struct LeafText<'a> {
    source: &'a str,
    stretches: Vec<Stretch>,
    copied: String,
    /// Whether it is the text of a cell of a table.
    is_cell: bool,
}

impl<'a> LeafText<'a> {
    /// The empty text.
    pub fn new(alloc: Global, source: &'a str) -> LeafText<'a>
        ensures read { IsRead result }
        ensures text { text_of result ≡ [] }
        ensures source { source_of result ≡ source.entry.now }
    {
        LeafText {
            source,
            stretches: Vec::new(alloc),
            copied: String::new(alloc),
            is_cell: false,
        }
    }

    /// Makes these lines the text. They have to be in the order of the source; they may be the content of a table cell (GFM 4.10).
    ///
    /// If memory is refused, there is no text until the next call succeeds. An empty slice of lines, as an empty cell has, takes no memory.
    #[inline(always)]
    pub fn read(&mut self, lines: &[LeafLine], is_cell: bool) -> Result<(), AllocError>
        requires { AreLines (source_of self.old) 0 lines.now }
        ensures read { OnOk result (IsRead self.new) }
        ensures text { OnOk result (text_of self.new ≡ leaf_bytes (source_of self.old) lines.now) }
        ensures places { OnOk result
            ((k : ℕ) → k < length (text_of self.new) → place_of self.new k ≡ place_on lines.now k) }
        ensures source { source_of self.new ≡ source_of self.old }
        ensures cell { OnOk result (is_cell_of self.new ≡ is_cell) }
        ensures none { lines.now ≡ [] → IsOk result }
    {
        self.stretches.clear();
        self.push_lines(lines)?;
        self.copied.clear();
        if self.stretches.len() > 1 {
            copy_stretches(&mut self.copied, self.source, &self.stretches)?;
        }
        self.is_cell = is_cell;
        Ok(())
    }

    /// The text.
    pub fn as_str(&self) -> &str
        requires { IsRead self.now }
        ensures { result.now ≡ text_of self.now }
    {
        match self.as_source() {
            Some(text) => text,
            None => self.copied.as_str(),
        }
    }

    /// The bytes of the text, and the bytes after them in its memory, so that a search may look at more bytes than the text has. They
    /// are the rest of the source if the text is a part of it, and otherwise the copied text.
    #[inline(always)]
    pub fn ahead(&self) -> &[u8]
        requires { IsRead self.now }
        ensures begins { take (length (text_of self.now)) result.now ≡ text_of self.now }
        ensures within { length (text_of self.now) ≤ length result.now }
    {
        match self.stretches.as_slice() {
            [one] => self.source_ahead(one.start).as_bytes(),
            _ => self.copied.as_bytes(),
        }
    }

    /// Whether the text is that of a cell of a table (GFM 4.10).
    #[inline(always)]
    pub fn is_cell(&self) -> bool
        ensures { result ≡ is_cell_of self.now }
    {
        self.is_cell
    }

    /// The text as a part of the source, if its lines are adjacent there.
    pub fn as_source(&self) -> Option<&'a str>
        requires { IsRead self.now }
        ensures text { IfSome result (λ text. text.now ≡ text_of self.now) }
        ensures apart { result ≡ None → 1 < length self.now.stretches.items }
    {
        match self.stretches.as_slice() {
            [] => Some(""),
            [one] => Some(&self.source[one.start..one.end]),
            _ => None,
        }
    }

    /// The offset in the source of a byte of the text.
    pub fn place(&self, at: usize) -> usize
        requires read { IsRead self.now }
        requires within { at < length (text_of self.now) }
        ensures value { result ≡ place_of self.now at }
        ensures within { result < length (source_of self.now) }
    {
        let stretch = self.stretches[self.stretch_at(at)];
        stretch.place(at)
    }

    /// The range of the source from the byte `from` of the text to the byte before `to`. It includes any gaps between lines.
    pub fn range(&self, from: usize, to: usize) -> Range<usize>
        requires read { IsRead self.now }
        requires part { IsPart (text_of self.now) from to }
        ensures start { result.start ≡ place_of self.now from }
        ensures end { result.end ≡ place_of self.now (to - 1) + 1 }
        ensures part { IsPart (source_of self.now) result.start result.end }
    {
        let start = self.place(from);
        let last = self.place(to - 1);
        start..last + 1
    }

    /// The text from `from` up to `to` as a part of the source, if it has no gap there.
    pub fn slice(&self, from: usize, to: usize) -> Option<&'a str>
        requires read { IsRead self.now }
        requires part { IsPart (text_of self.now) from to }
        ensures source { IfSome result
            (λ part. part.now
            ≡ slice (source_of self.now) (place_of self.now from)
            (place_of self.now (to - 1) + 1)) }
        ensures text { IfSome result (λ part. part.now ≡ slice (text_of self.now) from to) }
        ensures apart { result ≡ None
            → place_of self.now (to - 1) + 1 ≢ place_of self.now from + (to - from) }
    {
        let ahead = self.slice_ahead(from, to)?;
        Some(&ahead[..to - from])
    }

    /// The source from the byte `from` of the text on, if the text up to `to` has no gap there. The result begins with that text.
    #[inline(always)]
    pub fn slice_ahead(&self, from: usize, to: usize) -> Option<&'a str>
        requires read { IsRead self.now }
        requires part { IsPart (text_of self.now) from to }
        ensures ahead { IfSome result
            (λ ahead. ahead.now ≡ drop (place_of self.now from) (source_of self.now)) }
        ensures source { IfSome result
            (λ ahead. take (to - from) ahead.now
            ≡ slice (source_of self.now) (place_of self.now from)
            (place_of self.now (to - 1) + 1)) }
        ensures text { IfSome result
            (λ ahead. take (to - from) ahead.now ≡ slice (text_of self.now) from to) }
        ensures ends { IfSome result (λ ahead. IsCharBoundary ahead.now (to - from)) }
        ensures apart { result ≡ None
            → place_of self.now (to - 1) + 1 ≢ place_of self.now from + (to - from) }
    {
        let range = self.range(from, to);
        self.slice_ahead_at(&range, from, to)
    }

    /// Like `slice_ahead`, with the range of these bytes in the source, which `range` returns.
    #[inline(always)]
    pub fn slice_ahead_at(&self, range: &Range<usize>, from: usize, to: usize) -> Option<&'a str>
        requires read { IsRead self.now }
        requires part { IsPart (text_of self.now) from to }
        requires start { range.now.start ≡ place_of self.now from }
        requires end { range.now.end ≡ place_of self.now (to - 1) + 1 }
        requires inside { IsPart (source_of self.now) range.now.start range.now.end }
        ensures ahead { IfSome result
            (λ ahead. ahead.now ≡ drop (place_of self.now from) (source_of self.now)) }
        ensures source { IfSome result
            (λ ahead. take (to - from) ahead.now
            ≡ slice (source_of self.now) (place_of self.now from)
            (place_of self.now (to - 1) + 1)) }
        ensures text { IfSome result
            (λ ahead. take (to - from) ahead.now ≡ slice (text_of self.now) from to) }
        ensures ends { IfSome result (λ ahead. IsCharBoundary ahead.now (to - from)) }
        ensures apart { result ≡ None
            → place_of self.now (to - 1) + 1 ≢ place_of self.now from + (to - from) }
    {
        if range.end - range.start == to - from {
            Some(self.source_ahead(range.start))
        } else {
            None
        }
    }

    /// The source from the byte `from` of the text to the byte before `to`, with the gaps between lines.
    pub fn source_between(&self, from: usize, to: usize) -> &'a str
        requires read { IsRead self.now }
        requires part { IsPart (text_of self.now) from to }
        ensures { result.now
            ≡ slice (source_of self.now) (place_of self.now from) (place_of self.now (to - 1) + 1) }
    {
        let bytes = self.range(from, to);
        &self.source[bytes.start..bytes.end]
    }

    /// The range of the source from the byte `from` of the text up to `end`, if `end` is a character boundary after it. Otherwise the range
    /// ends as that of `range` does.
    pub fn range_up_to(&self, from: usize, to: usize, end: usize) -> Range<usize>
        requires read { IsRead self.now }
        requires part { IsPart (text_of self.now) from to }
        ensures start { result.start ≡ place_of self.now from }
        ensures end { place_of self.now from < end → IsCharBoundary (source_of self.now) end
            → result.end ≡ end }
        ensures part { IsPart (source_of self.now) result.start result.end }
    {
        let bytes = self.range(from, to);
        if bytes.start < end && self.source.is_char_boundary(end) {
            return bytes.start..end;
        }
        bytes
    }

    /// The source from `start` up to `end`.
    pub fn source_at(&self, start: usize, end: usize) -> &'a str
        requires { IsPart (source_of self.now) start end }
        ensures { result.now ≡ slice (source_of self.now) start end }
    {
        &self.source[start..end]
    }

    /// The source from `start` on, which has to be a character boundary.
    #[inline(always)]
    pub fn source_ahead(&self, start: usize) -> &'a str
        requires { IsCharBoundary (source_of self.now) start }
        ensures { result.now ≡ drop start (source_of self.now) }
    {
        &self.source[start..]
    }

    /// The first byte of the text that is at or after `place` in the source; the text's length if there is none.
    pub fn first_from(&self, place: usize) -> usize
        requires { IsRead self.now }
        ensures { IsFirstFrom self.now place result }
    {
        let mut low = 0;
        let mut high = self.as_str().len();
        while low < high {
            let middle = low + (high - low) / 2;
            if self.place(middle) < place {
                low = middle + 1;
            } else {
                high = middle;
            }
        }
        low
    }

    // Appends the stretches of these lines: each line with its line end, but the last without it.
    fn push_lines(&mut self, lines: &[LeafLine]) -> Result<(), AllocError>
        requires none { self.old.stretches.items ≡ [] }
        requires lines { AreLines (source_of self.old) 0 lines.now }
        ensures stretches { OnOk result
            (AreStretches (source_of self.old) 0 0 self.new.stretches.items) }
        ensures text { OnOk result
            (joined (source_of self.old) self.new.stretches.items
            ≡ leaf_bytes (source_of self.old) lines.now) }
        ensures places { OnOk result
            (StandAs (source_of self.old) lines.now self.new.stretches.items) }
        ensures source { source_of self.new ≡ source_of self.old }
        ensures succeeds { lines.now ≡ [] → IsOk result }
        ensures same { lines.now ≡ [] → self.new ≡ self.old }
    {
        let [first, ..] = lines else {
            return Ok(());
        };
        let mut opened = Stretch {
            at: 0,
            start: first.start,
            end: first.start,
        };
        let mut rest = lines;
        while let Some((line, others)) = rest.split_first() {
            opened = self.push_part(opened, line.start, end_in_leaf(line, others))?;
            rest = others;
        }
        self.stretches.push(opened)?;
        Ok(())
    }

    // Adds a part of the source. It makes the stretch `opened` longer if it is adjacent; otherwise `opened` ends, and a new stretch begins.
    // Returns the open stretch.
    fn push_part(
        &mut self,
        opened: Stretch,
        start: usize,
        end: usize,
    ) -> Result<Stretch, AllocError>
        requires open { IsOpen (source_of self.old) self.old.stretches.items opened }
        requires part { IsLine (source_of self.old) opened.end
            (record { start = start; content_end = end; line_end = end }) }
        ensures open { IfOk result
            (λ next. IsOpen (source_of self.old) self.new.stretches.items next) }
        ensures end { IfOk result (λ next. next.end ≡ end) }
        ensures text { IfOk result
            (λ next. joined (source_of self.old) (self.new.stretches.items ++ (next ∷ []))
            ≡ joined (source_of self.old) (self.old.stretches.items ++ (opened ∷ [])) ++ slice
            (source_of self.old) start end) }
        ensures places { IfOk result
            (λ next. PlacesMore (source_of self.old) (self.old.stretches.items ++ (opened ∷ []))
            start (end - start) (self.new.stretches.items ++ (next ∷ []))) }
        ensures source { source_of self.new ≡ source_of self.old }
    {
        if opened.end == start {
            return Ok(Stretch { end, ..opened });
        }
        self.stretches.push(opened)?;
        let at = opened.at + (opened.end - opened.start);
        Ok(Stretch { at, start, end })
    }

    // The index of the stretch that contains a byte of the text.
    fn stretch_at(&self, at: usize) -> usize
        requires read { IsRead self.now }
        requires within { at < length (text_of self.now) }
        ensures { FindsStretch self.now.stretches.items at result }
    {
        let mut low = 0;
        let mut high = self.stretches.len();
        while high - low > 1 {
            let middle = low + (high - low) / 2;
            if self.stretches[middle].at <= at {
                low = middle;
            } else {
                high = middle;
            }
        }
        low
    }
}

// The end of a line in the text: with its line end, if others follow.
fn end_in_leaf(line: &LeafLine, others: &[LeafLine]) -> usize
    ensures { result ≡ end_in_leaf line.now others.now }
{
    if others.is_empty() {
        line.content_end
    } else {
        line.line_end
    }
}

// Appends the bytes of the stretches.
fn copy_stretches(out: &mut String, source: &str, stretches: &[Stretch]) -> Result<(), AllocError>
    requires { AreStretches source.now 0 0 stretches.now }
    ensures { OnOk result
        (string_bytes out.new ≡ string_bytes out.old ++ joined source.now stretches.now) }
{
    for stretch in stretches {
        out.push_str(&source[stretch.start..stretch.end])?;
    }
    Ok(())
}
