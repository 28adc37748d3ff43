//! Parts of a text: labels, destinations and titles.

ghost use Rattle.std.specs.Prelude.{◌≡◌, ◌<◌, ◌==◌, ◌||◌, not, true, false, IfSome, option_map};
ghost use Rattle.cmark_grammar.specs.Characters.{less_than_sign};
ghost use Rattle.cmark_grammar.specs.Leaves.{is_empty};
ghost use Rattle.cmark_grammar.specs.Letters.{first_is};
ghost use Rattle.cmark_grammar.specs.LinkDefinitions.{up_to, destination_in, title_in};
ghost use Rattle.cmark_link_scan.specs.Rests.{IsRest};
ghost use Rattle.cmark_link_scan.specs.Shown.{shown_part};

use cmark_scan_bytes::{closed_size, scan_link_dest};

/// A part of a text, and the text after it and its closer.
#[derive(Clone, Copy)]
pub struct Part<'t> {
    /// The part, without its quotes, brackets or parentheses.
    pub part: &'t str,
    /// The text after it.
    pub following: &'t str,
}

/// The part up to an unescaped ASCII closer, if no unescaped refused byte comes before the closer. It may span several lines.
pub fn closed_part(text: &str, closer: u8, refused: u8) -> Option<Part<'_>>
    requires { closer < 128 }
    ensures value { option_map shown_part result ≡ up_to false closer refused true text.entry.now }
    ensures rest { IfSome result (λ part. IsRest text.entry.now part.following.now) }
{
    let size = closed_size(text.as_bytes(), closer, refused, true)?;
    Some(Part {
        part: &text[..size],
        following: &text[size + 1..],
    })
}

/// Whether a part is a destination of this text: it is in angle brackets, or not empty.
fn is_destination(text: &str, part: &str) -> bool
    ensures { result ≡ (first_is (λ b. b == less_than_sign) text.now || not (is_empty part.now)) }
{
    match text.as_bytes() {
        [b'<', ..] => true,
        _ => !part.is_empty(),
    }
}

/// The destination at the beginning: in angle brackets on one line, or bare and not empty.
pub fn destination_in(text: &str) -> Option<Part<'_>>
    ensures value { option_map shown_part result ≡ destination_in text.entry.now }
    ensures rest { IfSome result (λ destination. IsRest text.entry.now destination.following.now) }
{
    let destination = scan_link_dest(text, 0)?;
    if !is_destination(text, destination.part) {
        return None;
    }
    Some(Part {
        part: destination.part,
        following: &text[destination.end..],
    })
}

/// The title at the beginning: in double or single quotes, or in parentheses.
pub fn title_in(text: &str) -> Option<Part<'_>>
    ensures value { option_map shown_part result ≡ title_in text.entry.now }
    ensures rest { IfSome result (λ title. IsRest text.entry.now title.following.now) }
{
    match text.as_bytes() {
        [b'"', ..] => closed_part(&text[1..], b'"', b'"'),
        [b'\'', ..] => closed_part(&text[1..], b'\'', b'\''),
        [b'(', ..] => closed_part(&text[1..], b')', b'('),
        _ => None,
    }
}
