//! Link reference definitions as written.

ghost use Rattle.std.specs.Prelude.{◌≡◌, IfSome, option_map};
ghost use Rattle.std.specs.Str.{IsCharBoundary};
ghost use Rattle.cmark_grammar.specs.LinkDefinitions.{after_separator, destination_in, title_in, untitled, titled, with_destination, definition_in};
ghost use Rattle.cmark_link_definitions.specs.Shown.{shown_read, shown_definition};
ghost use Rattle.cmark_link_scan.specs.Rests.{IsRest};
ghost use Rattle.cmark_link_scan.specs.Shown.{shown_part};

use cmark_link_scan::{
    Part, after_byte, after_separator, destination_in, is_line_done, label_in, title_in,
};

/// A link reference definition as written (CommonMark 4.7).
#[derive(Clone, Copy)]
pub struct Definition<'a> {
    /// The text between the brackets.
    pub label: &'a str,
    /// The destination, without angle brackets.
    pub destination: &'a str,
    /// The title without its quotes or parentheses, if there is one.
    pub title: Option<&'a str>,
    /// The number of bytes of the definition, up to the end of its title, or else of its destination. Only blanks follow on the line.
    pub end: usize,
}

/// A definition that was read, and the text after it.
#[derive(Clone, Copy)]
struct Read<'a> {
    label: &'a str,
    destination: &'a str,
    title: Option<&'a str>,
    following: &'a str,
}

/// The text after a definition.
fn following(read: Read<'_>) -> &str
    ensures { result.now ≡ read.entry.following.now }
{
    read.following
}

/// The definition without a title, if the rest of the line after the destination is blank.
fn untitled<'a>(label: &'a str, destination: Part<'a>) -> Option<Read<'a>>
    ensures value { option_map shown_read result
        ≡ untitled label.entry.now (shown_part destination.entry) }
    ensures rest { IfSome result
        (λ read. IsRest destination.entry.following.now read.following.now) }
{
    if !is_line_done(destination.following) {
        return None;
    }
    Some(Read {
        label,
        destination: destination.part,
        title: None,
        following: destination.following,
    })
}

/// The definition with the title after the destination, if white space separates the two and the rest of the title's line is blank; else
/// the definition without a title.
fn titled<'a>(label: &'a str, destination: Part<'a>) -> Option<Read<'a>>
    ensures value { option_map shown_read result
        ≡ titled label.entry.now (shown_part destination.entry)
        (title_in (after_separator destination.entry.following.now)) }
    ensures rest { IfSome result
        (λ read. IsRest destination.entry.following.now read.following.now) }
{
    let following = after_separator(destination.following);
    let Some(title) = title_in(following) else {
        return untitled(label, destination);
    };
    if following.len() < destination.following.len() && is_line_done(title.following) {
        return Some(Read {
            label,
            destination: destination.part,
            title: Some(title.part),
            following: title.following,
        });
    }
    untitled(label, destination)
}

/// The definition of a label whose colon precedes this text.
fn with_destination<'a>(label: &'a str, text: &'a str) -> Option<Read<'a>>
    ensures value { option_map shown_read result
        ≡ with_destination label.entry.now (destination_in (after_separator text.entry.now)) }
    ensures rest { IfSome result (λ read. IsRest text.entry.now read.following.now) }
{
    titled(label, destination_in(after_separator(text))?)
}

/// The definition at the beginning.
fn read_definition(paragraph: &str) -> Option<Read<'_>>
    ensures value { option_map shown_read result ≡ definition_in paragraph.entry.now }
    ensures rest { IfSome result (λ read. IsRest paragraph.entry.now read.following.now) }
{
    let label = label_in(after_byte(b'[', paragraph)?)?;
    with_destination(label.part, after_byte(b':', label.following)?)
}

/// The link reference definition at the beginning of a paragraph, if there is one (CommonMark 4.7): a label in brackets, a colon, a
/// destination, and perhaps a title. `paragraph` is the text of a paragraph, or the rest of it from the beginning of a line. It has no
/// prefixes of containers, and its first line has no indent. Line endings separate its lines.
pub fn scan_definition(paragraph: &str) -> Option<Definition<'_>>
    ensures value { option_map (shown_definition paragraph.entry.now) result
        ≡ definition_in paragraph.entry.now }
    ensures ends { IfSome result (λ definition. IsCharBoundary paragraph.entry.now definition.end) }
{
    let read = read_definition(paragraph)?;
    Some(Definition {
        label: read.label,
        destination: read.destination,
        title: read.title,
        end: paragraph.len() - following(read).len(),
    })
}
