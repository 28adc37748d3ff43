//! Lines of the text: stretches of it, and the spaces that are left of a tab.

ghost use Rattle.std.specs.Prelude.{◌≡◌, ◌≤◌, ◌<◌, ℕ, List, [], replicate, OnOk};
ghost use Rattle.cmark_items.specs.Tables.{defined};
ghost use Rattle.cmark_grammar.specs.BlockDocument.{OwnedText, Nil, Node, node};
ghost use Rattle.cmark_grammar.specs.Rows.{begin_of};
ghost use Rattle.cmark_grammar.specs.Tokens.{piece_if, plain_line};
ghost use Rattle.cmark_block_model.specs.Drawing.{Drawing, drawn};
ghost use Rattle.cmark_builder.specs.Drawn.{Draws};
ghost use Rattle.cmark_line_rules.specs.Rests.{row_of};

use cmark_builder::Builder;
use cmark_items::ItemBody;
use cmark_line_rules::LineRest;
use cmark_values::CowStr;
use std::alloc::AllocError;

/// A stretch of the text, from one byte offset up to another.
#[derive(Clone, Copy)]
pub struct Stretch {
    /// The byte offset at which it begins.
    pub start: usize,
    /// The byte offset after its last byte.
    pub end: usize,
    ghost ordered: { start ≤ end },
}

/// The bytes of a line in two stretches, either of which may be empty. If the line ends in CR LF, the CR is in neither.
pub(crate) fn stretches_of(rest: LineRest<'_>) -> (Stretch, Stretch)
    ensures { (text : List ℕ)
        → piece_if text result.0.start result.0.end (piece_if text result.1.start result.1.end [])
        ≡ plain_line text (begin_of (row_of rest.entry)) (row_of rest.entry) }
{
    let (start, content_end, line_end) = (rest.begin(), rest.content_end(), rest.line_end());
    if line_end - content_end == 2 {
        let content = Stretch {
            start,
            end: content_end,
        };
        let line_feed = Stretch {
            start: content_end + 1,
            end: line_end,
        };
        return (content, line_feed);
    }
    let line = Stretch {
        start,
        end: line_end,
    };
    let none = Stretch {
        start: line_end,
        end: line_end,
    };
    (line, none)
}

/// `count` spaces, at most 3.
fn spaces(count: usize) -> &'static str
    requires { count ≤ 3 }
    ensures { result.now ≡ replicate count 32 }
{
    match count {
        0 => "",
        1 => " ",
        2 => "  ",
        _ => "   ",
    }
}

/// Adds 1 to 3 spaces, for the columns left of a tab, as a node after the last sibling, at this place.
pub(crate) fn draw_spaces(
    builder: &mut Builder<'_>,
    count: usize,
    at: usize,
) -> Result<(), AllocError>
    requires count { count ≤ 3 }
    ensures drawn { OnOk result
        ((text : List ℕ) (d : Drawing) → Draws text builder.old d
        → Draws text builder.new
        (drawn (Node (node (OwnedText (replicate count 32)) at at) Nil Nil) d)) }
    ensures definitions { defined builder.new.allocations ≡ defined builder.old.allocations }
{
    let spaces = builder
        .allocations
        .allocate_cow(CowStr::Borrowed(spaces(count)))?;
    builder.add(at, at, ItemBody::SynthesizeText(spaces))
}
