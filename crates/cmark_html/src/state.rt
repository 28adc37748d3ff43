//! The state of the writer between two events.

ghost use Rattle.std.specs.Prelude.{◌≡◌};
ghost use Rattle.cmark_grammar.specs.Html.{at_line_start};
ghost use Rattle.cmark_html.specs.Writer.{at_start, shown_names, with_names, writing};

use crate::names::FootnoteNames;
use crate::table::TableState;
use cmark_text::CowStr;
use std::alloc::Global;

/// An image whose alternative text is being written.
#[derive(Drop)]
pub struct OpenImage<'a> {
    /// How many elements are open inside it.
    pub depth: u64,
    /// Its title, which may be empty.
    pub title: CowStr<'a>,
}

/// The state of the writer between two events.
#[derive(Drop)]
pub struct Writer<'a> {
    /// Whether it is at a line start.
    pub line_start: bool,
    /// The image whose alternative text is being written, if there is one.
    pub image: Option<OpenImage<'a>>,
    /// Whether a metadata block is open, whose text is not written.
    pub in_metadata: bool,
    /// The table that is being written.
    pub table: TableState,
    /// The names of the footnotes that were numbered.
    pub names: FootnoteNames<'a>,
}

impl<'a> Writer<'a> {
    /// A writer that has written nothing yet.
    pub fn new(alloc: Global) -> Writer<'a>
        ensures { writing result ≡ at_line_start }
    {
        Writer {
            line_start: true,
            image: None,
            in_metadata: false,
            table: TableState::new(alloc),
            names: FootnoteNames::new(alloc),
        }
    }

    /// A writer that continues the HTML of earlier blocks. `line_start` says whether this HTML ends a line; `names` are the names of its
    /// footnotes. No image, table or metadata block is open.
    pub fn continuing(alloc: Global, line_start: bool, names: FootnoteNames<'a>) -> Writer<'a>
        ensures { let named = with_names (shown_names names.entry) at_line_start in
            writing result ≡ at_start line_start named }
    {
        Writer {
            line_start,
            image: None,
            in_metadata: false,
            table: TableState::new(alloc),
            names,
        }
    }
}
