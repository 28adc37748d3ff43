//! The breaks between the lines of a leaf (CommonMark 6.7 and 6.8).

ghost use Rattle.std.specs.Prelude.{◌≡◌, ◌<◌, ◌+◌, drop, take_while, length, IfSome, option_map};
ghost use Rattle.std.specs.Str.{IsCharBoundary};
ghost use Rattle.cmark_grammar.specs.Columns.{is_blank_byte};
ghost use Rattle.cmark_grammar.specs.LinkDefinitions.{after_leading_blanks};
ghost use Rattle.cmark_grammar.specs.LineBreaks.{ends_with_two_spaces, backslash_break_in, blank_break_in, line_break_in};
ghost use Rattle.cmark_link_scan.specs.Rests.{IsRest};
ghost use Rattle.cmark_link_scan.specs.Shown.{shown_parting, shown_break, IsBreakAt};

use crate::blank::{after_byte, after_ending, after_leading_blanks};
use crate::place::place_of;

/// A break between two lines. The next line begins at its end.
#[derive(Clone, Copy)]
pub struct LineBreak {
    /// Whether it is hard.
    pub is_hard: bool,
    /// The byte offset at which it begins: a hard break with its blanks or its backslash, a soft break with its line ending.
    pub start: usize,
    /// The byte offset after its line ending.
    pub end: usize,
}

/// A break at the beginning of a text.
#[derive(Clone, Copy)]
struct Parting<'t> {
    is_hard: bool,
    /// The number of bytes before the break.
    before: usize,
    /// The text after its line ending.
    following: &'t str,
}

/// The break that begins with a backslash at the beginning of the text.
fn backslash_break_in(text: &str) -> Option<Parting<'_>>
    ensures value { option_map shown_parting result ≡ backslash_break_in text.entry.now }
    ensures rest { IfSome result (λ parting. IsRest text.entry.now parting.following.now) }
    ensures ordered { IfSome result
        (λ parting. parting.before + length parting.following.now < length text.entry.now) }
    ensures starts { IfSome result (λ parting. IsCharBoundary text.entry.now parting.before) }
{
    let following = after_ending(after_byte(b'\\', text)?)?;
    Some(Parting {
        is_hard: true,
        before: 0,
        following,
    })
}

/// Whether the last two bytes are two spaces.
fn ends_with_two_spaces(bytes: &[u8]) -> bool
    ensures { result ≡ ends_with_two_spaces bytes.now }
{
    bytes.ends_with(b"  ")
}

/// The blanks before `here`, which is the rest of the text after them.
fn blanks_before<'t>(text: &'t str, here: &str) -> &'t [u8]
    requires { here.now ≡ after_leading_blanks text.now }
    ensures { result.now ≡ take_while is_blank_byte text.entry.now }
{
    &text.as_bytes()[..text.len() - here.len()]
}

/// The break after the blanks at the beginning, if there are any.
fn blank_break_in(text: &str) -> Option<Parting<'_>>
    ensures value { option_map shown_parting result ≡ blank_break_in text.entry.now }
    ensures rest { IfSome result (λ parting. IsRest text.entry.now parting.following.now) }
    ensures ordered { IfSome result
        (λ parting. parting.before + length parting.following.now < length text.entry.now) }
    ensures starts { IfSome result (λ parting. IsCharBoundary text.entry.now parting.before) }
{
    let here = after_leading_blanks(text);
    let blanks = blanks_before(text, here);
    let following = after_ending(here)?;
    let is_hard = ends_with_two_spaces(blanks);
    Some(Parting {
        is_hard,
        before: if is_hard { 0 } else { blanks.len() },
        following,
    })
}

/// The break at the beginning, if a line ends there.
#[inline(always)]
fn parting_in(text: &str) -> Option<Parting<'_>>
    ensures value { option_map shown_parting result ≡ line_break_in text.entry.now }
    ensures rest { IfSome result (λ parting. IsRest text.entry.now parting.following.now) }
    ensures ordered { IfSome result
        (λ parting. parting.before + length parting.following.now < length text.entry.now) }
    ensures starts { IfSome result (λ parting. IsCharBoundary text.entry.now parting.before) }
{
    if let Some(parting) = backslash_break_in(text) {
        return Some(parting);
    }
    blank_break_in(text)
}

/// The break of the line that ends at this byte offset of the text (CommonMark 6.7 and 6.8). It begins with the first blank at the end of
/// the line, or with an unescaped backslash directly before the line ending. A break is hard if it begins with such a backslash, or if two
/// spaces come directly before the line ending. `None` if no line ends there, for example at the end of the text.
#[inline(always)]
pub fn line_break(text: &str, at: usize) -> Option<LineBreak>
    requires { IsCharBoundary text.now at }
    ensures value { option_map (shown_break text.now at) result ≡ line_break_in (drop at text.now) }
    ensures places { IfSome result (IsBreakAt text.now at) }
{
    let parting = parting_in(&text[at..])?;
    Some(LineBreak {
        is_hard: parting.is_hard,
        start: at + parting.before,
        end: place_of(text, parting.following),
    })
}
