//! A writer that stops between two blocks, and goes on later.

ghost use Rattle.std.specs.Prelude.{◌≡◌, ◌↔◌, [], IfOk, IfSome, IsTrue, None, is_some};
ghost use Rattle.cmark_grammar.specs.Html.{at_line_start};
ghost use Rattle.cmark_html.specs.Pauses.{paused};
ghost use Rattle.cmark_html.specs.Writer.{writing};

use crate::names::FootnoteNames;
use crate::state::Writer;
use crate::table::TableState;
use std::alloc::{AllocError, Global};

/// The state of a writer that keeps nothing of the text: no image is open, and no footnote has a number.
#[derive(Drop)]
pub struct Pause {
    line_start: bool,
    in_metadata: bool,
    table: TableState,
}

impl Pause {
    /// The state before the first block.
    pub fn at_beginning(alloc: Global) -> Pause
        ensures { paused result ≡ at_line_start }
    {
        Pause {
            line_start: true,
            in_metadata: false,
            table: TableState::new(alloc),
        }
    }

    /// Whether this is the state before the first block: at a line start, outside of metadata, and after no table.
    pub fn is_at_beginning(&self) -> bool
        ensures { IsTrue result ↔ (paused self.now ≡ at_line_start) }
    {
        self.line_start && !self.in_metadata && self.table.is_new()
    }

    /// A writer that goes on from this state. Fails only if memory is refused.
    pub fn resume<'a>(&self, alloc: Global) -> Result<Writer<'a>, AllocError>
        ensures { IfOk result (λ writer. writing writer ≡ paused self.now) }
    {
        Ok(Writer {
            line_start: self.line_start,
            image: None,
            in_metadata: self.in_metadata,
            table: self.table.clone(alloc)?,
            names: FootnoteNames::new(alloc),
        })
    }
}

impl<'a> Writer<'a> {
    /// The state of the writer, if it keeps nothing of the text. `None` if an image is open, or if a footnote has a number.
    pub fn pause(self) -> Option<Pause>
        ensures state { IfSome result (λ pause. paused pause ≡ writing self.entry) }
        ensures can { let writer = writing self.entry in
            IsTrue (is_some result) ↔ ((writer.image ≡ None) × (writer.names ≡ [])) }
    {
        if self.image.is_some() || !self.names.is_empty() {
            return None;
        }
        Some(Pause {
            line_start: self.line_start,
            in_metadata: self.in_metadata,
            table: self.table,
        })
    }
}
