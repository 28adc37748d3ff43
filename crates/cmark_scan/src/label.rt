//! Labels of links after their opening bracket (CommonMark 4.7).

ghost use Rattle.std.specs.Prelude.{◌≡◌, ◌<◌, ◌≤◌, ◌&&◌, ◌||◌, ◌++◌, [], Ok, true, false, length, Option, not, nat_lt, nat_le, IfOk, IfSome, option_map, if◌then◌else◌, string_bytes};
ghost use Rattle.std.specs.Char.{is_ascii_whitespace};
ghost use Rattle.std.specs.Str.{IsUtf8, IsCharBoundary};
ghost use Rattle.cmark_grammar.specs.LabelsOverLines.{label_prefix, label_over_lines};
ghost use Rattle.cmark_values.specs.Shown.{text_bytes};
ghost use Rattle.cmark_values.specs.declared.text.CowStr.TheVariants.{Borrowed};
ghost use Rattle.cmark_values.specs.Lending.{IsBorrowed};
ghost use Rattle.cmark_scan_bytes.specs.Shown.{cut_after};
ghost use Rattle.cmark_scan.specs.Handled.{LabelsWithin, ForLabels};
ghost use Rattle.cmark_scan.specs.Shown.{shown_label, IsWhole};

use crate::owned::ends_line;
use cmark_scan_bytes::bytes::escapes_next;
use cmark_scan_bytes::{Step, begins_character, closed_step, with_literal_pipes};
use cmark_values::CowStr;
use std::alloc::{AllocError, Global};

/// A label of a link, after its opening bracket.
#[derive(Drop)]
pub struct LinkLabelRest<'t> {
    /// The number of bytes up to the end of its closing bracket.
    pub end: usize,
    /// The text of the label, without the prefixes of its later lines.
    pub text: CowStr<'t>,
}

/// 1 if a character begins with this byte, else 0.
fn begun(byte: u8) -> usize
    ensures value { result ≡ (if nat_lt byte 128 || nat_le 192 byte then 1 else 0) }
    ensures small { result ≤ 1 }
{
    if begins_character(byte) { 1 } else { 0 }
}

/// Whether this byte or an earlier one is not white space.
fn finds_word(has_words: bool, byte: u8) -> bool
    ensures { result ≡ (has_words || not (is_ascii_whitespace byte)) }
{
    has_words || !byte.is_ascii_whitespace()
}

/// Whether a label with this number of characters is valid; `has_words` tells whether any of them is not white space.
fn is_label(count: usize, has_words: bool) -> bool
    ensures { result ≡ (nat_le count 999 && has_words) }
{
    count <= 999 && has_words
}

/// The number of prefix bytes after this byte, at the beginning of `rest`: 0 if no line ends here, and `None` if the label ends here.
fn prefix_size<H: Fn(&[u8]) -> Option<usize>>(byte: u8, rest: &[u8], handler: &H) -> Option<usize>
    requires callable { H.IsAlwaysCallable handler.now }
    requires within { LabelsWithin H.Fn handler.now }
    ensures value { ForLabels H.Fn handler.now
        (λ prefix. result ≡ label_prefix prefix byte rest.now) }
    ensures line { IfSome result (λ size. 0 < size → byte < 128) }
    ensures within { IsUtf8 rest.now → IfSome result (λ size. IsCharBoundary rest.now size) }
{
    if ends_line(byte, rest) {
        handler(rest)
    } else {
        Some(0)
    }
}

/// The copied stretches and the last one after them; only the last one, borrowed, if no stretch was copied.
fn joined<'t>(copied: String, last: &'t str) -> Result<CowStr<'t>, AllocError>
    ensures value { IfOk result (λ text. text_bytes text ≡ string_bytes copied ++ last.now) }
    ensures kept { string_bytes copied ≡ [] → result ≡ Ok (Borrowed last.entry) }
{
    if copied.is_empty() {
        return Ok(CowStr::Borrowed(last));
    }
    let mut text = copied;
    text.push_str(last)?;
    CowStr::from_string(text)
}

/// The label after its opening bracket, outside of tables.
fn read_label<'t, H: Fn(&[u8]) -> Option<usize>>(
    alloc: Global,
    text: &'t str,
    handler: &H,
) -> Result<Option<LinkLabelRest<'t>>, AllocError>
    requires callable { H.IsAlwaysCallable handler.now }
    requires within { LabelsWithin H.Fn handler.now }
    ensures value { ForLabels H.Fn handler.now
        (λ prefix. IfOk result
        (λ found. option_map shown_label found
        ≡ option_map (cut_after text.now) (label_over_lines prefix false text.now))) }
    ensures boundary { IfOk result
        (λ found. IfSome found (λ label. IsCharBoundary text.now label.end)) }
    ensures short { IfOk result
        (λ found. IfSome found (λ label. length (text_bytes label.text) < label.end)) }
    ensures borrowed { IfOk result
        (λ found. IfSome found (λ label. IsWhole label → IsBorrowed label.text)) }
{
    let bytes = text.as_bytes();
    let mut copied = String::new(alloc);
    let mut mark = 0;
    let mut count = 0;
    let mut has_words = false;
    let mut escaped = false;
    let mut at = 0;
    while at < bytes.len() {
        let byte = bytes[at];
        match closed_step(escaped, b']', b'[', true, byte) {
            Step::Ends => {
                if !is_label(count, has_words) {
                    return Ok(None);
                }
                return Ok(Some(LinkLabelRest {
                    end: at + 1,
                    text: joined(copied, &text[mark..at])?,
                }));
            }
            Step::Fails => return Ok(None),
            Step::GoesOn => {}
        }
        if 999 < count {
            return Ok(None);
        }
        count += begun(byte);
        has_words = finds_word(has_words, byte);
        escaped = escapes_next(escaped, byte);
        at += 1;
        let Some(size) = prefix_size(byte, &bytes[at..], handler) else {
            return Ok(None);
        };
        if 0 < size {
            copied.push_str(&text[mark..at])?;
            at += size;
            mark = at;
        }
    }
    Ok(None)
}

/// The label of a link whose `[` precedes `text`, if it is valid (CommonMark 4.7). It ends at the first unescaped `]`. It has 1 to 999
/// characters, not only white space, and no unescaped brackets. In a table cell `\|` and `\\|` become `|` in it (GFM 4.10).
///
/// `linebreak_handler` gets the bytes after each line ending in the label. It returns the number of them that are prefixes of containers,
/// in whole characters, or `None` if the label ends there. It must return equal results for equal bytes. At most 1000 characters are read.
/// If no byte is left out, the text is borrowed; else memory is needed.
pub fn scan_link_label_rest<'t, H: Fn(&[u8]) -> Option<usize>>(
    alloc: Global,
    text: &'t str,
    linebreak_handler: &H,
    is_in_table: bool,
) -> Result<Option<LinkLabelRest<'t>>, AllocError>
    requires callable { H.IsAlwaysCallable linebreak_handler.now }
    requires within { LabelsWithin H.Fn linebreak_handler.now }
    ensures value { ForLabels H.Fn linebreak_handler.now
        (λ prefix. IfOk result
        (λ found. option_map shown_label found
        ≡ option_map (cut_after text.now) (label_over_lines prefix is_in_table text.now))) }
    ensures boundary { IfOk result
        (λ found. IfSome found (λ label. IsCharBoundary text.now label.end)) }
    ensures borrowed { IfOk result
        (λ found. IfSome found (λ label. IsWhole label → IsBorrowed label.text)) }
{
    let Some(label) = read_label(alloc, text, linebreak_handler)? else {
        return Ok(None);
    };
    if !is_in_table {
        return Ok(Some(label));
    }
    Ok(Some(LinkLabelRest {
        end: label.end,
        text: with_literal_pipes(alloc, label.text)?,
    }))
}
