//! The markers at the beginning of a line, after the prefixes that were taken. If columns of a tab are left, or a blank comes first, there
//! is no marker.

ghost use Rattle.std.specs.Prelude.{◌≡◌, ◌≤◌, ℕ, None, IfSome, option_map};
ghost use Rattle.std.specs.Bool.{OnFalse};
ghost use Rattle.cmark_grammar.specs.Rows.{without, words_of};
ghost use Rattle.cmark_scan_bytes.specs.Footnotes.{marked, IsClosed};
ghost use Rattle.cmark_grammar.specs.Containers.{padding};
ghost use Rattle.cmark_values.specs.Shown.{shown_block_quote_kind};
ghost use Rattle.cmark_scan_lines.specs.LineStart.{columns_from, row_from};
ghost use Rattle.cmark_scan_lines.specs.LineMarkers.{begins_block_quote, after_block_quote, alert_in, after_alert, item_in, item_numbers, plain_numbers, entered, definition_in, after_definition, sum_up_to_most, task_in, after_task, footnote_at, after_footnote};

use crate::line_start::LineStart;
use crate::marker::{scan_alert, scan_listitem, scan_task};
use cmark_scan_bytes::scan_footnote_marker;
use cmark_values::BlockQuoteKind;

impl<'a> LineStart<'a> {
    /// Takes the marker of a block quote (CommonMark 5.1): `>` and one column of space, if there is one. If the line does not continue with
    /// `>`, nothing is taken. Returns whether it was taken.
    #[inline]
    pub fn scan_blockquote_marker(&mut self) -> bool
        ensures found { (at line_end : ℕ)
            → result ≡ begins_block_quote (row_from at line_end self.old) }
        ensures rest { (at line_end : ℕ)
            → row_from at line_end self.new ≡ after_block_quote (row_from at line_end self.old) }
        ensures stays { OnFalse result (self.new ≡ self.old) }
    {
        if !self.goes_on_with(b'>') {
            return false;
        }
        self.take_bytes(1);
        self.scan_space_upto(1);
        true
    }

    /// Takes the rest of the line, if it is the tag of an alert (this profile's own): `[!NOTE]`, `[!TIP]`, `[!IMPORTANT]`, `[!WARNING]` or
    /// `[!CAUTION]`, in any case, and then only blanks. Else nothing is taken.
    pub fn scan_blockquote_tag(&mut self) -> Option<BlockQuoteKind>
        ensures found { (at line_end : ℕ)
            → option_map shown_block_quote_kind result ≡ alert_in (row_from at line_end self.old) }
        ensures rest { (at line_end : ℕ)
            → row_from at line_end self.new ≡ after_alert (row_from at line_end self.old) }
        ensures stays { result ≡ None → self.new ≡ self.old }
    {
        let (kind, size) = scan_alert(self.ahead())?;
        self.take_bytes(size);
        self.scan_all_space();
        Some(kind)
    }

    /// Takes the marker of a list item and the blanks after it that count (CommonMark 5.2). Returns the marker's character (the bullet, or
    /// the byte after the number), its number, 0 for a bullet, and the item's width in columns.
    ///
    /// The width is the sum of the indent, which was taken before, the marker and those blanks, and is at most `usize::MAX`. If no list
    /// item begins, or there is a thematic break, nothing is taken. Before `10) x`, with no indent, the result is `(b')', 10, 4)`.
    pub fn scan_list_marker_with_indent(&mut self, indent: usize) -> Option<(u8, u64, usize)>
        ensures found { (at line_end : ℕ)
            → result
            ≡ option_map plain_numbers
            (item_numbers indent (item_in (row_from at line_end self.old))) }
        ensures rest { (at line_end : ℕ)
            → row_from at line_end self.new
            ≡ entered (item_in (row_from at line_end self.old)) (row_from at line_end self.old) }
        ensures stays { result ≡ None → self.new ≡ self.old }
    {
        let (delimiter, number, width) = self.scan_item_marker(indent)?;
        Some((delimiter, number.unwrap_or(0), width))
    }

    /// Like `scan_list_marker_with_indent`, with `None` as the number of a bullet. Before `10) x`, with no indent, the result is `(b')',
    /// Some(10), 4)`.
    #[inline]
    pub fn scan_item_marker(&mut self, indent: usize) -> Option<(u8, Option<u64>, usize)>
        ensures found { (at line_end : ℕ)
            → result ≡ item_numbers indent (item_in (row_from at line_end self.old)) }
        ensures rest { (at line_end : ℕ)
            → row_from at line_end self.new
            ≡ entered (item_in (row_from at line_end self.old)) (row_from at line_end self.old) }
        ensures stays { result ≡ None → self.new ≡ self.old }
    {
        let marker = scan_listitem(self.ahead())?;
        if self.is_break() {
            return None;
        }
        self.take_bytes(marker.size);
        let width = marker.size + self.scan_padding();
        Some((
            marker.delimiter,
            marker.number,
            indent.saturating_add(width),
        ))
    }

    /// Takes the marker of a definition and the blanks after it that count (this profile's own). Returns the definition's width in columns,
    /// at most `usize::MAX`: the indent, which was taken before, the marker `:` and those blanks. No blank is required. If the line does
    /// not continue with `:`, nothing is taken.
    #[inline]
    pub fn scan_definition_list_definition_marker_with_indent(
        &mut self,
        indent: usize,
    ) -> Option<usize>
        ensures found { (at line_end : ℕ)
            → result
            ≡ option_map (sum_up_to_most indent) (definition_in (row_from at line_end self.old)) }
        ensures rest { (at line_end : ℕ)
            → row_from at line_end self.new ≡ after_definition (row_from at line_end self.old) }
        ensures stays { result ≡ None → self.new ≡ self.old }
    {
        if !self.goes_on_with(b':') {
            return None;
        }
        self.take_bytes(1);
        let width = 1 + self.scan_padding();
        Some(indent.saturating_add(width))
    }

    /// Takes the box of a task marker (GFM 5.3), `[ ]`, `[x]` or `[X]`, and returns whether it is checked. If there is no box, or no blank
    /// and text after it, nothing is taken.
    #[inline]
    pub fn scan_task_list_marker(&mut self) -> Option<bool>
        ensures found { (at line_end : ℕ) → result ≡ task_in (row_from at line_end self.old) }
        ensures rest { (at line_end : ℕ)
            → row_from at line_end self.new ≡ after_task (row_from at line_end self.old) }
        ensures stays { result ≡ None → self.new ≡ self.old }
    {
        let checked = scan_task(self.ahead())?;
        self.take_bytes(3);
        Some(checked)
    }

    /// Takes the marker of a footnote definition (this profile's own), `[^`, a label on one line and `]:`, and all blanks after it. Returns
    /// the number of bytes of the label, which begins after the first two bytes. If there is no marker, nothing is taken.
    pub fn scan_footnote_marker(&mut self) -> Option<usize>
        ensures found { (at line_end : ℕ)
            → option_map (marked (words_of (row_from at line_end self.old))) result
            ≡ footnote_at (row_from at line_end self.old) }
        ensures closed { (at line_end : ℕ)
            → IfSome result (IsClosed (words_of (row_from at line_end self.old))) }
        ensures rest { (at line_end : ℕ)
            → row_from at line_end self.new
            ≡ after_footnote (footnote_at (row_from at line_end self.old))
            (row_from at line_end self.old) }
        ensures stays { result ≡ None → self.new ≡ self.old }
    {
        let size = scan_footnote_marker(self.ahead())?;
        self.take_marker(size + 4);
        self.scan_all_space();
        Some(size)
    }

    /// Takes the blanks after a marker that count (CommonMark 5.2): five or more columns count as one, and so does a blank rest of the
    /// line. Returns the number of columns that count; if nothing at all is left of the line, it is 1 too.
    #[inline]
    fn scan_padding(&mut self) -> usize
        ensures count { (at : ℕ) → result ≡ padding (columns_from at self.old) }
        ensures rest { (at line_end : ℕ)
            → row_from at line_end self.new ≡ without result (row_from at line_end self.old) }
        ensures few { result ≤ 4 }
    {
        let mut following = *self;
        let blanks = following.scan_space_upto(5);
        if blanks == 5 || following.is_at_eol() {
            self.scan_space_upto(1);
            return 1;
        }
        *self = following;
        blanks
    }
}
