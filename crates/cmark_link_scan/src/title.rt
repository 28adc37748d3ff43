//! Titles of links (CommonMark 6.3), line by line.

ghost use Rattle.std.specs.Prelude.{◌≡◌, false, string_bytes, IfOk};
ghost use Rattle.cmark_grammar.specs.Tokens.{title_lines};
ghost use Rattle.cmark_grammar.specs.Unescaped.{unescaped};
ghost use Rattle.cmark_values.specs.Shown.{text_bytes};

use crate::blank::after_separator;
use cmark_scan_bytes::unescape;
use cmark_search::find_line_end;
use cmark_values::{CowStr, EntityLookup};
use memchr::memchr2;
use std::alloc::{AllocError, Global};

/// The lines of a title: each line ending, with the blanks after it, becomes one line feed (this profile's own). Fails only if memory is
/// refused.
pub fn title_lines(alloc: Global, title: &str) -> Result<String, AllocError>
    ensures { IfOk result (λ lines. string_bytes lines ≡ title_lines false title.now) }
{
    let mut lines = String::new(alloc);
    let mut rest = title;
    while let Some(at) = memchr2(b'\n', b'\r', rest.as_bytes()) {
        lines.push_str(&rest[..at])?;
        lines.push_str("\n")?;
        rest = after_separator(&rest[at..]);
    }
    lines.push_str(rest)?;
    Ok(lines)
}

/// The text of a title as written (CommonMark 6.3): each line ending, with the blanks after it, becomes one line feed, and escapes and
/// entities are resolved. In a table cell `\\|` becomes `|`. The text is borrowed if it contains none of these. Fails only if memory is
/// refused.
pub fn title_text<'t, E: EntityLookup>(
    alloc: Global,
    title: &'t str,
    is_in_table: bool,
    entities: &E,
) -> Result<CowStr<'t>, AllocError>
    ensures { IfOk result
        (λ made. text_bytes made
        ≡ unescaped (E.replacement entities.now) is_in_table (title_lines false title.entry.now)) }
{
    if find_line_end(title.as_bytes()).is_none() {
        return unescape(alloc, CowStr::Borrowed(title), is_in_table, entities);
    }
    let lines = CowStr::from_string(title_lines(alloc, title)?)?;
    unescape(alloc, lines, is_in_table, entities)
}
