//! The prefixes of containers at the beginning of a line (CommonMark 5).

ghost use Rattle.std.specs.Prelude.{◌≡◌, ℕ, Bool, List, Option, false, option_map, IfSome};
ghost use Rattle.cmark_grammar.specs.Containers.{keeps, Item, Footnote};
ghost use Rattle.cmark_grammar.specs.Alerts.{alert_in};
ghost use Rattle.cmark_grammar.specs.Options.{Options};
ghost use Rattle.cmark_grammar.specs.TaskItems.{task_in};
ghost use Rattle.cmark_values.specs.Shown.{shown_block_quote_kind};
ghost use Rattle.cmark_line_rules.specs.Boxes.{is_checked, IsAfterBox};
ghost use Rattle.cmark_line_rules.specs.Definitions.{width_of, definition_after, EntersDefinition};
ghost use Rattle.cmark_line_rules.specs.Rests.{row_of};
ghost use Rattle.cmark_line_rules.specs.Starts.{block_quote_entered, shown_begun, begun_item, EntersItem, label_shown, begun_label, EntersFootnote, IsMarkerClosed};

use crate::container::ItemStart;
use crate::line_rest::LineRest;
use cmark_values::BlockQuoteKind;

impl<'a> LineRest<'a> {
    /// The line after a block quote's prefix, if it has one.
    #[inline]
    pub(crate) fn after_block_quote(self) -> Option<LineRest<'a>>
        ensures { option_map row_of result ≡ block_quote_entered (row_of self.entry) }
    {
        let mut front = self.front;
        front.scan_space_upto(3);
        if !front.scan_blockquote_marker() {
            return None;
        }
        Some(self.with_front(front))
    }

    /// The kind of the alert, if this line, after a block quote's marker, is an alert's tag (this profile's own). With `gfm` false there
    /// are no alerts.
    #[inline]
    pub fn alert_kind(&self, gfm: bool) -> Option<BlockQuoteKind>
        ensures { (options : Options) → options.gfm ≡ gfm
            → option_map shown_block_quote_kind result ≡ alert_in options (row_of self.now) }
    {
        if !gfm {
            return None;
        }
        let mut ahead = self.front;
        ahead.scan_blockquote_tag()
    }

    /// The task marker at the beginning of this line, if there is one (GFM 5.3): whether its box is checked, and the line after the box.
    /// The line comes after an item's marker. The rest after the box begins with a space or a tab and has text (this is this profile's
    /// own). With `tasklists` false there are no task markers.
    #[inline]
    pub fn task_marker(self, tasklists: bool) -> Option<(bool, LineRest<'a>)>
        ensures task { (options : Options) → options.tasklists ≡ tasklists
            → option_map is_checked result ≡ task_in options (row_of self.entry) }
        ensures following { IfSome result (IsAfterBox (row_of self.entry)) }
    {
        if !tasklists {
            return None;
        }
        let mut front = self.front;
        let checked = front.scan_task_list_marker()?;
        Some((checked, self.with_front(front)))
    }

    /// The line after `width` columns of spaces and tabs, or after fewer if nothing follows them.
    #[inline]
    pub(crate) fn after_width(self, width: usize) -> Option<LineRest<'a>>
        ensures { (delimiter : ℕ) (number : Option ℕ) (task : Option Bool)
            → option_map row_of result
            ≡ keeps (Item delimiter number width task) false (row_of self.entry) }
    {
        let mut front = self.front;
        if !front.scan_space(width) && !front.is_at_eol() {
            return None;
        }
        Some(self.with_front(front))
    }

    /// The line after a footnote definition's prefix, if it keeps the line: after four columns of spaces and tabs, or after fewer if
    /// nothing follows them. In the old style it is the whole line, marked as held, if the line is not blank (this profile's own).
    #[inline]
    pub(crate) fn after_footnote(self, old: bool) -> Option<LineRest<'a>>
        ensures { (label : List ℕ) (size : ℕ)
            → option_map row_of result ≡ keeps (Footnote label old size) false (row_of self.entry) }
    {
        if !old {
            return self.after_width(4);
        }
        if self.is_blank() {
            return None;
        }
        let mut front = self.front;
        front.hold();
        Some(self.with_front(front))
    }

    /// The number of bytes of a footnote definition's label, and the line after the blanks that follow the marker (this profile's own). The
    /// line begins the definition, indented by at most three columns.
    #[inline(always)]
    pub(crate) fn after_footnote_marker(self) -> Option<(usize, LineRest<'a>)>
        ensures label { option_map (label_shown (row_of self.entry)) result
            ≡ begun_label (row_of self.entry) }
        ensures inside { IfSome result (EntersFootnote (row_of self.entry)) }
        ensures closed { IfSome result (IsMarkerClosed (row_of self.entry)) }
    {
        let mut front = self.front;
        front.scan_space_upto(3);
        let size = front.scan_footnote_marker()?;
        Some((size, self.with_front(front)))
    }

    /// The width in columns of the definition that the line begins, indented by at most three columns, and the line after the marker (this
    /// profile's own).
    #[inline(always)]
    pub(crate) fn after_definition(self) -> Option<(usize, LineRest<'a>)>
        ensures width { option_map width_of result ≡ definition_after (row_of self.entry) }
        ensures inside { IfSome result (EntersDefinition (row_of self.entry)) }
    {
        let mut front = self.front;
        let columns = front.scan_space_upto(3);
        let width = front.scan_definition_list_definition_marker_with_indent(columns)?;
        Some((width, self.with_front(front)))
    }

    /// The list item that the line begins, indented by at most three columns, and the line after the marker.
    #[inline(always)]
    pub(crate) fn after_item(self) -> Option<(ItemStart, LineRest<'a>)>
        ensures item { option_map shown_begun result ≡ begun_item (row_of self.entry) }
        ensures inside { IfSome result (EntersItem (row_of self.entry)) }
    {
        let mut front = self.front;
        let indent = front.scan_space_upto(3);
        let (delimiter, number, width) = front.scan_item_marker(indent)?;
        let item = ItemStart {
            delimiter,
            number,
            width,
        };
        Some((item, self.with_front(front)))
    }
}
