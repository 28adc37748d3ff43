//! The attributes of setext headings: braces at the end of their content, which may span several lines (this profile's own).

ghost use Rattle.std.specs.Prelude.{◌≡◌, ◌≤◌, length, map, string_bytes, IfOk, OnOk};
ghost use Rattle.cmark_grammar.specs.Columns.{bytes_of};
ghost use Rattle.cmark_line_rules.specs.Rests.{row_of};
ghost use Rattle.cmark_leaf_nodes.specs.Contents.{AreRead, gathered_bytes, place_in, FindsSetext};
ghost use Rattle.cmark_leaf_nodes.specs.TextColumns.{IsRead};

use crate::heading::count_before_braces;
use cmark_line_rules::LineRest;
use cmark_scan_bytes::bytes::{is_space, without_trailing, without_trailing_blanks};
use std::alloc::{AllocError, Global};

/// The attributes at the end of a setext heading's content.
#[derive(Drop)]
pub struct SetextAttributes {
    /// The words between the braces, with a line feed for each line ending.
    pub words: String,
    /// The byte offset of the text at which the attributes begin, or the blanks and line endings before them.
    pub place: usize,
}

/// The bytes of a line of this text, up to its ending.
fn bytes_in<'a>(text: &'a str, rest: LineRest<'_>) -> &'a str
    requires { IsRead text.now rest }
    ensures { result.now ≡ bytes_of (row_of rest.entry).columns }
{
    &text[rest.begin()..rest.content_end()]
}

/// The bytes of these lines without their prefixes, with a line feed for each line ending. The string `room` is reused.
fn gather_lines(
    room: &mut String,
    text: &str,
    before: &[LineRest<'_>],
    last: LineRest<'_>,
) -> Result<(), AllocError>
    requires before { AreRead text.now before.now }
    requires last { IsRead text.now last }
    ensures { OnOk result
        (string_bytes room.new ≡ gathered_bytes (map row_of before.now) (row_of last.entry)) }
{
    room.clear();
    for rest in before {
        room.push_str(bytes_in(text, *rest))?;
        room.push('\n')?;
    }
    room.push_str(bytes_in(text, last))
}

/// The byte offset in the text of the byte of these lines that has `size` of their bytes before it.
fn place_of(before: &[LineRest<'_>], last: LineRest<'_>, size: usize) -> usize
    requires { size ≤ length (gathered_bytes (map row_of before.now) (row_of last)) }
    ensures { result ≡ place_in (map row_of before.now) (row_of last.entry) size }
{
    let mut left = size;
    for rest in before {
        let len = rest.bytes().len();
        if left <= len {
            return rest.content_end() - (len - left);
        }
        left = left - len - 1;
    }
    last.content_end() - (last.bytes().len() - left)
}

/// The attributes of a setext heading with these lines; `None` if there are no braces at its end. All lines are read into `room`.
pub fn find_setext_attributes(
    room: &mut String,
    alloc: Global,
    text: &str,
    before: &[LineRest<'_>],
    last: LineRest<'_>,
) -> Result<Option<SetextAttributes>, AllocError>
    requires before { AreRead text.now before.now }
    requires last { IsRead text.now last }
    ensures { IfOk result (FindsSetext before.now last.entry) }
{
    gather_lines(room, text, before, last)?;
    let content = without_trailing_blanks(room.as_bytes());
    let count = count_before_braces(content);
    if count == content.len() {
        return Ok(None);
    }
    let words = String::from_str(alloc, &room.as_str()[count + 1..content.len() - 1])?;
    let kept = without_trailing(&content[..count], is_space);
    Ok(Some(SetextAttributes {
        words,
        place: place_of(before, last, kept.len()),
    }))
}
