//! Whether more text after a text can change the definition at its beginning.

ghost use Rattle.std.specs.Prelude.{◌≡◌, ◌<◌, ◌==◌, not, ◌||◌, true, false, IsTrue, option_map, option_copied};
ghost use Rattle.cmark_grammar.specs.Leaves.{is_empty};
ghost use Rattle.cmark_grammar.specs.LinkDefinitions.{after_leading_blanks};
ghost use Rattle.cmark_link_definitions.specs.Settled.{ends_in, title_ends, end_settles, lacks_colon, label_settles, settles, IsSettled};
ghost use Rattle.cmark_link_scan.specs.Shown.{shown_part};

use crate::definition::scan_definition;
use cmark_link_scan::{Part, after_byte, after_leading_blanks, after_separator, label_in};
use cmark_scan_bytes::bytes::escapes_next;

/// Whether these bytes contain an unescaped closer or refused byte.
fn ends_in(bytes: &[u8], closer: u8, refused: u8) -> bool
    ensures { result ≡ ends_in false closer refused bytes.now }
{
    let mut escaped = false;
    let mut rest = bytes;
    while let Some((first, others)) = rest.split_first() {
        if !escaped && (*first == closer || *first == refused) {
            return true;
        }
        escaped = escapes_next(escaped, *first);
        rest = others;
    }
    false
}

/// Whether the title at the beginning ends, or there is no title but something else.
fn title_ends(text: &str) -> bool
    ensures { result ≡ title_ends text.now }
{
    match text.as_bytes() {
        [] => false,
        [b'"', rest @ ..] => ends_in(rest, b'"', b'"'),
        [b'\'', rest @ ..] => ends_in(rest, b'\'', b'\''),
        [b'(', rest @ ..] => ends_in(rest, b')', b'('),
        _ => true,
    }
}

/// Whether the end of this definition is known, if this text follows it.
fn end_settles(title: Option<&str>, following: &str) -> bool
    ensures { result ≡ end_settles (option_copied title.entry) following.now }
{
    match title {
        Some(_) => !after_leading_blanks(following).is_empty(),
        None => title_ends(after_separator(following)),
    }
}

/// Whether something else than a colon follows the label, if there is a label.
fn lacks_colon(label: Option<Part<'_>>) -> bool
    ensures { result ≡ lacks_colon (option_map shown_part label.entry) }
{
    match label {
        Some(label) => matches!(label.following.as_bytes(), [first, ..] if *first != b':'),
        None => true,
    }
}

/// Whether it is known that there is no definition at the beginning, since no colon follows the end of the label.
fn label_settles(paragraph: &str) -> bool
    ensures { result ≡ label_settles paragraph.now }
{
    let Some(text) = after_byte(b'[', paragraph) else {
        return false;
    };
    ends_in(text.as_bytes(), b']', b'[') && lacks_colon(label_in(text))
}

/// Whether it is known that the result of `scan_definition` on this text does not change whatever text follows. It is known if a definition
/// ended and something follows it that is not an unfinished title. It is also known if no colon follows the end of a label. `paragraph` is
/// as for `scan_definition`.
pub fn is_settled(paragraph: &str) -> bool
    ensures value { result ≡ settles paragraph.now }
    ensures settled { IsTrue result → IsSettled paragraph.now }
{
    match scan_definition(paragraph) {
        Some(definition) => end_settles(definition.title, &paragraph[definition.end..]),
        None => label_settles(paragraph),
    }
}
