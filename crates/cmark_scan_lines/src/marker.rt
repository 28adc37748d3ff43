//! The markers of list items (CommonMark 5.2) and tasks (GFM 5.3), and the tags of alerts (this profile's own).

ghost use Rattle.std.specs.Prelude.{◌≡◌, ◌≢◌, ℕ, ◌<◌, ◌≤◌, length, drop, IsTrue, IfSome, option_map, true, slice_index};
ghost use Rattle.std.specs.List.{prefix_len};
ghost use Rattle.cmark_grammar.specs.Containers.{is_digit, is_delimiter, digits, number_of, delimited, marker_of};
ghost use Rattle.cmark_grammar.specs.Characters.{tab};
ghost use Rattle.cmark_grammar.specs.Leaves.{are_blank};
ghost use Rattle.cmark_grammar.specs.Alerts.{is_tag, alert_of};
ghost use Rattle.cmark_grammar.specs.TaskMarkers.{is_parted_text, task_of};
ghost use Rattle.cmark_values.specs.Shown.{shown_block_quote_kind};
ghost use Rattle.cmark_scan_lines.specs.Markers.{shown_marker, parted};

use crate::bytes::{are_blank, is_parted, starts_lower};
use cmark_scan_bytes::bytes::is_blank;
use cmark_values::BlockQuoteKind;

/// The marker of a list item.
#[derive(Clone, Copy)]
pub(crate) struct ListMarker {
    /// The bullet, or the byte after the number: `.` or `)`.
    pub delimiter: u8,
    /// The number of an ordered item; `None` for a bullet.
    pub number: Option<u64>,
    /// The number of its bytes, which is also its number of columns.
    pub size: usize,
}

/// The marker of the list item at the beginning, if there is one and the line is not a thematic break. It is a bullet, or one to nine
/// digits and `.` or `)`; then a blank or the line's end follows.
#[inline]
pub(crate) fn scan_listitem(line: &[u8]) -> Option<ListMarker>
    ensures value { option_map shown_marker result ≡ parted (marker_of line.now) line.now }
    ensures within { IfSome result (λ marker. marker.size ≤ length line.now) }
    ensures plain { IfSome result
        (λ marker. (k : ℕ) → k < marker.size → slice_index line.now k ≢ tab) }
{
    let marker = scan_marker(line)?;
    if is_parted(&line[marker.size..]) {
        Some(marker)
    } else {
        None
    }
}

/// A bullet, or else a number and the byte after it.
#[inline]
fn scan_marker(line: &[u8]) -> Option<ListMarker>
    ensures value { option_map shown_marker result ≡ marker_of line.now }
    ensures within { IfSome result (λ marker. marker.size ≤ length line.now) }
    ensures plain { IfSome result
        (λ marker. (k : ℕ) → k < marker.size → slice_index line.now k ≢ tab) }
{
    match line {
        [delimiter, ..] if *delimiter == b'-' || *delimiter == b'+' || *delimiter == b'*' => Some(
            ListMarker {
                delimiter: *delimiter,
                number: None,
                size: 1,
            },
        ),
        _ => scan_number(line),
    }
}

/// One to nine digits, and `.` or `)`.
#[inline]
fn scan_number(line: &[u8]) -> Option<ListMarker>
    ensures value { option_map shown_marker result
        ≡ delimited (digits line.now) (drop (length (digits line.now)) line.now) }
    ensures within { IfSome result (λ marker. marker.size ≤ length line.now) }
    ensures plain { IfSome result
        (λ marker. (k : ℕ) → k < marker.size → slice_index line.now k ≢ tab) }
{
    let count = count_digits(line);
    if count == 0 || count > 9 || count == line.len() {
        return None;
    }
    let delimiter = line[count];
    if !is_delimiter(delimiter) {
        return None;
    }
    Some(ListMarker {
        delimiter,
        number: Some(number_of(&line[..count])),
        size: count + 1,
    })
}

/// Whether a byte may follow the number of an ordered item.
#[inline]
fn is_delimiter(byte: u8) -> bool
    ensures { result ≡ is_delimiter byte }
{
    byte == b'.' || byte == b')'
}

/// The number of digits at the beginning.
#[inline]
fn count_digits(line: &[u8]) -> usize
    ensures value { result ≡ prefix_len is_digit line.now }
    ensures within { result ≤ length line.now }
{
    line.iter().take_while(|byte| is_digit(**byte)).count()
}

/// Whether a byte is an ASCII digit.
#[inline]
fn is_digit(byte: u8) -> bool
    ensures { result ≡ is_digit byte }
{
    byte >= b'0' && byte <= b'9'
}

/// The number that at most nine digits represent.
fn number_of(digits: &[u8]) -> u64
    requires few { length digits.now ≤ 9 }
    requires digits { (k : ℕ) → k < length digits.now → is_digit (slice_index digits.now k) ≡ true }
    ensures { result ≡ number_of digits.now }
{
    let mut number = 0;
    for digit in digits {
        number = number * 10 + u64::from(*digit - b'0');
    }
    number
}

/// Whether the box of the task marker at the beginning is checked, if there is a task marker (GFM 5.3): `[ ]`, `[x]` or `[X]`, a blank, and
/// text somewhere after it.
#[inline]
pub(crate) fn scan_task(line: &[u8]) -> Option<bool>
    ensures value { result ≡ task_of line.now }
    ensures within { IfSome result (λ checked. 3 ≤ length line.now) }
    ensures plain { IfSome result (λ checked. (k : ℕ) → k < 3 → slice_index line.now k ≢ tab) }
{
    match line {
        [b'[', b' ', b']', rest @ ..] if is_parted_text(rest) => Some(false),
        [b'[', b'x' | b'X', b']', rest @ ..] if is_parted_text(rest) => Some(true),
        _ => None,
    }
}

/// Whether the bytes begin with a blank, and text comes somewhere after it.
#[inline]
fn is_parted_text(bytes: &[u8]) -> bool
    ensures { result ≡ is_parted_text bytes.now }
{
    match bytes {
        [first, ..] => is_blank(*first) && !are_blank(bytes),
        [] => false,
    }
}

/// The kind of the alert whose tag the line is, if it is one (this profile's own), and the number of bytes of the tag.
pub(crate) fn scan_alert(line: &[u8]) -> Option<(BlockQuoteKind, usize)>
    ensures value { option_map (λ found. shown_block_quote_kind found.0) result
        ≡ alert_of line.now }
    ensures some { IfSome result (λ found. 0 < found.1) }
    ensures within { IfSome result (λ found. found.1 ≤ length line.now) }
    ensures plain { IfSome result (λ found. (k : ℕ) → k < found.1 → slice_index line.now k ≢ tab) }
    ensures blank { IfSome result (λ found. are_blank (drop found.1 line.now) ≡ true) }
{
    if is_tag(line, b"[!note]") {
        Some((BlockQuoteKind::Note, 7))
    } else if is_tag(line, b"[!tip]") {
        Some((BlockQuoteKind::Tip, 6))
    } else if is_tag(line, b"[!important]") {
        Some((BlockQuoteKind::Important, 12))
    } else if is_tag(line, b"[!warning]") {
        Some((BlockQuoteKind::Warning, 10))
    } else if is_tag(line, b"[!caution]") {
        Some((BlockQuoteKind::Caution, 10))
    } else {
        None
    }
}

/// Whether the line is this tag in any case of its letters, and then only blanks. The tag has no capital letters.
fn is_tag(line: &[u8], tag: &[u8]) -> bool
    ensures value { result ≡ is_tag tag.now line.now }
    ensures within { IsTrue result → length tag.now ≤ length line.now }
{
    starts_lower(line, tag) && are_blank(&line[tag.len()..])
}
