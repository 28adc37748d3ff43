//! Autolinks and the names of wikilinks.

ghost use Rattle.std.specs.Prelude.{◌≡◌, ◌+◌, ◌<◌, ◌≤◌, suc, length, drop, take, slice_index, IfSome, option_map};
ghost use Rattle.std.specs.List.{prefix_len};
ghost use Rattle.std.specs.Str.{IsCharBoundary};
ghost use Rattle.cmark_grammar.specs.Characters.{greater_than_sign};
ghost use Rattle.cmark_grammar.specs.Autolinks.{has_scheme, is_uri_byte, has_address, autolink_in, piped_name_in};
ghost use Rattle.cmark_scan_bytes.specs.Shown.{shown_cut, cut_at};

use crate::bytes::{Class, is_letter};
use crate::email::is_email;
use crate::find::begins_with;
use memchr::memchr;

/// A part of a text, and the byte offset after its closer.
#[derive(Clone, Copy)]
pub struct Cut<'t> {
    /// The byte offset in the text after the closer.
    pub end: usize,
    /// The part up to the closer.
    pub part: &'t str,
}

/// Whether the bytes begin with a scheme and a colon: a letter, then letters, digits, `+`, `-` and `.`, 2 to 32 bytes in all.
pub fn has_scheme(bytes: &[u8]) -> bool
    ensures { result ≡ has_scheme bytes.now }
{
    let [first, ..] = bytes else {
        return false;
    };
    let size = Class::Scheme.count(bytes);
    is_letter(*first) && 2 <= size && size <= 32 && begins_with(&bytes[size..], b':')
}

/// Whether the bytes begin with an address, if the first `size` bytes may be part of a URI: a URI or, with `emails`, an email address.
fn has_address(emails: bool, bytes: &[u8], size: usize) -> bool
    requires { size ≡ prefix_len is_uri_byte bytes.now }
    ensures { result ≡ has_address emails bytes.now }
{
    has_scheme(bytes) || emails && is_email(&bytes[..size])
}

/// The number of bytes of the address of an autolink at the beginning, if it is valid and a `>` follows it.
fn address_size(emails: bool, bytes: &[u8]) -> Option<usize>
    ensures value { option_map
        (λ size. record { bytes = take size bytes.now; following = drop (suc size) bytes.now })
        result ≡ autolink_in emails bytes.now }
    ensures within { IfSome result (λ size. size < length bytes.now) }
    ensures closed { IfSome result (λ size. slice_index bytes.now size ≡ greater_than_sign) }
{
    let size = Class::Uri.count(bytes);
    if has_address(emails, bytes, size) && begins_with(&bytes[size..], b'>') {
        Some(size)
    } else {
        None
    }
}

/// The autolink whose `<` ends at byte offset `start_ix` (CommonMark 6.5): its address, as written, up to the `>` that closes it, and the
/// byte offset after that. The address is a URI with a scheme of 2 to 32 bytes and without ASCII controls, space, `<` or `>`; with `emails`
/// it may also be an email address.
pub fn scan_autolink(emails: bool, text: &str, start_ix: usize) -> Option<Cut<'_>>
    requires { IsCharBoundary text.now start_ix }
    ensures value { option_map shown_cut result
        ≡ cut_at start_ix (autolink_in emails (drop start_ix text.entry.now)) }
    ensures within { IfSome result (λ link. link.end ≤ length text.entry.now) }
    ensures boundary { IfSome result (λ link. IsCharBoundary text.entry.now link.end) }
{
    let size = address_size(emails, &text.as_bytes()[start_ix..])?;
    Some(Cut {
        end: start_ix + size + 1,
        part: &text[start_ix..start_ix + size],
    })
}

/// The name of a wikilink before its first `|`, among the `len` bytes of the text from `start_ix` on, and the byte offset after that `|`
/// (this profile's own).
pub fn scan_wikilink_pipe(text: &str, start_ix: usize, len: usize) -> Option<Cut<'_>>
    requires starts { IsCharBoundary text.now start_ix }
    requires within { start_ix + len ≤ length text.now }
    ensures value { option_map shown_cut result
        ≡ cut_at start_ix (piped_name_in (take len (drop start_ix text.entry.now))) }
    ensures within { IfSome result (λ name. name.end ≤ start_ix + len) }
    ensures boundary { IfSome result (λ name. IsCharBoundary text.entry.now name.end) }
{
    let size = memchr(b'|', &text.as_bytes()[start_ix..start_ix + len])?;
    Some(Cut {
        end: start_ix + size + 1,
        part: &text[start_ix..start_ix + size],
    })
}
