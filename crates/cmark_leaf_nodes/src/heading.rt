//! The text of ATX headings (CommonMark 4.2), and the places of their attributes.

ghost use Rattle.std.specs.Prelude.{◌≡◌, ◌≤◌, ℕ, List, length, OnOk};
ghost use Rattle.std.specs.List.{take_while};
ghost use Rattle.cmark_items.specs.Tables.{defined};
ghost use Rattle.cmark_grammar.specs.Characters.{number_sign};
ghost use Rattle.cmark_grammar.specs.Attributes.{before_braces, is_brace};
ghost use Rattle.cmark_grammar.specs.Leaves.{run};
ghost use Rattle.cmark_grammar.specs.Rows.{words_of};
ghost use Rattle.cmark_grammar.specs.Tokens.{heading_tokens};
ghost use Rattle.cmark_block_model.specs.Drawing.{Drawing, drawn};
ghost use Rattle.cmark_builder.specs.Drawn.{Draws};
ghost use Rattle.cmark_line_rules.specs.Rests.{row_of};
ghost use Rattle.cmark_leaf_nodes.specs.Closings.{after_opening, without_closing_bytes, without_attributes_bytes, Finds};

use crate::words::draw_words;
use cmark_builder::Builder;
use cmark_line_rules::LineRest;
use cmark_scan_bytes::bytes::{count_blanks, without_trailing, without_trailing_blanks};
use std::alloc::AllocError;

/// The number of `#` at the beginning.
fn count_hashes(bytes: &[u8]) -> usize
    ensures value { result ≡ run number_sign bytes.now }
    ensures within { result ≤ length bytes.now }
{
    bytes.iter().take_while(|byte| **byte == b'#').count()
}

/// The bytes after an opening sequence and the blanks there.
fn after_opening(words: &[u8]) -> &[u8]
    ensures { result.now ≡ after_opening words.now }
{
    let following = &words[count_hashes(words)..];
    &following[count_blanks(following)..]
}

/// The bytes without a closing sequence: `#` at the end, alone or after a blank.
fn without_closing(bytes: &[u8]) -> &[u8]
    ensures value { result.now ≡ without_closing_bytes bytes.now }
    ensures within { length result.now ≤ length bytes.now }
{
    let before = without_trailing(bytes, |byte| byte == b'#');
    let trimmed = without_trailing_blanks(before);
    if before.is_empty() || trimmed.len() < before.len() {
        trimmed
    } else {
        bytes
    }
}

/// The number of bytes before the braces at the end, if these contain no braces; if there are none, of all bytes.
pub(crate) fn count_before_braces(bytes: &[u8]) -> usize
    ensures value { result ≡ length (before_braces (λ b. b) bytes.now) }
    ensures within { result ≤ length bytes.now }
{
    let mut at = bytes.len();
    if at == 0 || bytes[at - 1] != b'}' {
        return at;
    }
    at -= 1;
    while at > 0 && !is_brace(bytes[at - 1]) {
        at -= 1;
    }
    if at > 0 && bytes[at - 1] == b'{' {
        at - 1
    } else {
        bytes.len()
    }
}

fn is_brace(byte: u8) -> bool
    ensures { result ≡ is_brace (λ b. b) byte }
{
    byte == b'{' || byte == b'}'
}

/// The bytes without attributes and the blanks before them, if attributes are read.
fn without_attributes(bytes: &[u8], attributes: bool) -> &[u8]
    ensures value { result.now ≡ without_attributes_bytes attributes bytes.now }
    ensures within { length result.now ≤ length bytes.now }
{
    if attributes {
        without_trailing_blanks(&bytes[..count_before_braces(bytes)])
    } else {
        bytes
    }
}

/// The byte offsets of the text at which the words between the braces of a heading's attributes begin and end; `None` if it has no
/// attributes (this profile's own).
pub fn find_attributes(rest: LineRest<'_>) -> Option<(usize, usize)>
    ensures { Finds rest.entry result }
{
    let following = after_opening(rest.words());
    let content = without_trailing_blanks(following);
    let before = count_before_braces(content);
    if before == content.len() {
        return None;
    }
    let from = rest.content_end() - following.len();
    Some((from + before + 1, from + content.len() - 1))
}

/// Adds the text of an ATX heading as a node after the last sibling, unless it is empty. It is without the opening and closing sequences,
/// without attributes if these are read, and without the blanks at both ends.
pub fn draw_heading(
    builder: &mut Builder<'_>,
    rest: LineRest<'_>,
    attributes: bool,
) -> Result<(), AllocError>
    ensures drawn { OnOk result
        ((text : List ℕ) (d : Drawing) → Draws text builder.old d
        → Draws text builder.new
        (drawn
        (heading_tokens text attributes (run number_sign (words_of (row_of rest.entry))) (row_of rest.entry))
        d)) }
    ensures definitions { defined builder.new.allocations ≡ defined builder.old.allocations }
{
    let following = after_opening(rest.words());
    let text = without_attributes(without_trailing_blanks(following), attributes);
    let content = without_closing(text);
    let from = rest.content_end() - following.len();
    draw_words(builder, from, from + content.len())
}
