//! Texts of the source as nodes.

ghost use Rattle.std.specs.Prelude.{◌≡◌, [], List, ℕ, OnOk};
ghost use Rattle.cmark_items.specs.Tables.{defined};
ghost use Rattle.cmark_grammar.specs.Tokens.{piece_if};
ghost use Rattle.cmark_block_model.specs.Drawing.{Drawing, drawn};
ghost use Rattle.cmark_block_model.specs.CodeLines.{texts_of};
ghost use Rattle.cmark_builder.specs.Drawn.{Draws};

use cmark_builder::Builder;
use cmark_items::ItemBody;
use std::alloc::AllocError;

/// Adds the text from one byte offset up to another as a node after the last sibling, unless it is empty.
#[inline(always)]
pub(crate) fn draw_words(
    builder: &mut Builder<'_>,
    start: usize,
    end: usize,
) -> Result<(), AllocError>
    ensures drawn { OnOk result ((text : List ℕ) (d : Drawing) → Draws text builder.old d
        → Draws text builder.new (drawn (texts_of (piece_if text start end [])) d)) }
    ensures definitions { defined builder.new.allocations ≡ defined builder.old.allocations }
{
    if start >= end {
        return Ok(());
    }
    let body = ItemBody::Text {
        backslash_escaped: false,
    };
    builder.add(start, end, body)
}
