//! Inline links (CommonMark 6.3).

ghost use Rattle.std.specs.Prelude.{◌≡◌, ◌<◌, Some, drop, IfSome, option_map, option_copied};
ghost use Rattle.std.specs.Str.{IsCharBoundary};
ghost use Rattle.cmark_grammar.specs.Destinations.{link_destination_in};
ghost use Rattle.cmark_grammar.specs.LinkDefinitions.{after_separator, title_in};
ghost use Rattle.cmark_grammar.specs.LinkTails.{closed_tail, with_title, tail_inside, link_tail_in};
ghost use Rattle.cmark_link_scan.specs.Rests.{IsRest};
ghost use Rattle.cmark_link_scan.specs.Shown.{shown_inside, shown_part, shown_tail};

use crate::blank::{after_byte, after_separator};
use crate::part::{Part, title_in};
use crate::place::place_of;
use cmark_scan_bytes::scan_link_dest;

/// The content of the parentheses of an inline link, as written.
#[derive(Clone, Copy)]
pub struct LinkTail<'t> {
    /// The destination, without angle brackets; it may be empty.
    pub destination: &'t str,
    /// The title without its quotes or parentheses, if there is one.
    pub title: Option<&'t str>,
    /// The byte offset after the closing parenthesis.
    pub end: usize,
}

/// The content of the parentheses, and the text after it.
#[derive(Clone, Copy)]
struct Inside<'t> {
    destination: &'t str,
    title: Option<&'t str>,
    following: &'t str,
}

/// The destination at the beginning, which may be empty.
fn destination_in(text: &str) -> Option<Part<'_>>
    ensures value { option_map shown_part result ≡ link_destination_in text.entry.now }
    ensures rest { IfSome result (λ destination. IsRest text.entry.now destination.following.now) }
{
    let destination = scan_link_dest(text, 0)?;
    Some(Part {
        part: destination.part,
        following: &text[destination.end..],
    })
}

/// The content of the parentheses, if they are closed after a separator.
fn closed_tail<'t>(
    destination: &'t str,
    title: Option<&'t str>,
    text: &'t str,
) -> Option<Inside<'t>>
    ensures value { option_map shown_inside result
        ≡ closed_tail destination.entry.now (option_copied title.entry) text.entry.now }
    ensures rest { IfSome result (λ inside. IsRest text.entry.now inside.following.now) }
{
    let following = after_byte(b')', after_separator(text))?;
    Some(Inside {
        destination,
        title,
        following,
    })
}

/// The content of the parentheses after a destination, with the title, if one follows.
fn with_title(destination: Part<'_>) -> Option<Inside<'_>>
    ensures value { option_map shown_inside result
        ≡ with_title (Some (shown_part destination.entry))
        (title_in (after_separator destination.entry.following.now)) }
    ensures rest { IfSome result
        (λ inside. IsRest destination.entry.following.now inside.following.now) }
{
    match title_in(after_separator(destination.following)) {
        Some(title) => closed_tail(destination.part, Some(title.part), title.following),
        None => closed_tail(destination.part, None, destination.following),
    }
}

/// The content of the parentheses, after the opening one.
fn tail_inside(text: &str) -> Option<Inside<'_>>
    ensures value { option_map shown_inside result ≡ tail_inside text.entry.now }
    ensures rest { IfSome result (λ inside. IsRest text.entry.now inside.following.now) }
{
    let destination = destination_in(after_separator(text))?;
    with_title(destination)
}

/// The destination and the title of an inline link at this byte offset of the text, directly after the closing bracket (CommonMark 6.3).
/// They are in parentheses: a destination, which may be empty, and perhaps a title. Blanks with at most one line ending may separate them;
/// a title may also follow its destination directly (this profile's own).
pub fn link_tail(text: &str, at: usize) -> Option<LinkTail<'_>>
    requires { IsCharBoundary text.now at }
    ensures value { option_map (shown_tail text.entry.now) result
        ≡ link_tail_in (drop at text.entry.now) }
    ensures further { IfSome result (λ tail. at < tail.end) }
    ensures ends { IfSome result (λ tail. IsCharBoundary text.entry.now tail.end) }
{
    let inside = tail_inside(after_byte(b'(', &text[at..])?)?;
    Some(LinkTail {
        destination: inside.destination,
        title: inside.title,
        end: place_of(text, inside.following),
    })
}
