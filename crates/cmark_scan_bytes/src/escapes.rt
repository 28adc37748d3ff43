//! Texts without their escapes and entities (CommonMark 2.4 and 2.5).

ghost use Rattle.std.specs.Prelude.{◌≡◌, ◌<◌, ◌++◌, ◌==◌, true, Ok, string_bytes, IfOk, OnOk, IfSome, MatchOption, option_map};
ghost use Rattle.std.specs.Str.{IsCharBoundary};
ghost use Rattle.memchr.specs.Find.{FindsNeedle};
ghost use Rattle.cmark_grammar.specs.Characters.{backslash};
ghost use Rattle.cmark_grammar.specs.Answers.{Lookup};
ghost use Rattle.cmark_grammar.specs.Letters.{first_is};
ghost use Rattle.cmark_grammar.specs.Tokens.{resolved};
ghost use Rattle.cmark_grammar.specs.Unescaped.{escaped_pipe, with_escaped_pipes, unescaped};
ghost use Rattle.cmark_scan_bytes.specs.Resolved.{resolved_front, HasNoEscapes, Resolves};
ghost use Rattle.cmark_scan_bytes.specs.Shown.{shown_entity};
ghost use Rattle.cmark_values.specs.Shown.{text_bytes};

use crate::entity::{Entity, scan_entity};
use crate::find::begins_with;
use cmark_search::find_escape;
use cmark_values::{CowStr, EntityLookup};
use memchr::memmem;
use std::alloc::{AllocError, Global};

/// An escape or an entity in a text.
#[derive(Drop)]
struct Resolved<'t> {
    /// The byte offset at which it begins.
    start: usize,
    /// The byte offset after it.
    end: usize,
    /// Its text.
    text: CowStr<'t>,
}

/// The escape at the beginning: a backslash, if ASCII punctuation follows it.
fn escape_before(text: &str) -> Option<Entity<'_>>
    requires { first_is (λ b. b == backslash) text.now ≡ true }
    ensures value { (lookup : Lookup)
        → option_map shown_entity result ≡ resolved_front lookup text.entry.now }
    ensures within { IfSome result
        (λ part. (0 < part.len) × IsCharBoundary text.entry.now part.len) }
{
    match text.as_bytes() {
        [_, second, ..] if second.is_ascii_punctuation() => Some(Entity {
            len: 2,
            text: CowStr::from(&text[1..2]),
        }),
        _ => None,
    }
}

/// The escape or the entity at the beginning, if there is one.
fn resolved_before<'t, E: EntityLookup>(text: &'t str, entities: &'t E) -> Option<Entity<'t>>
    ensures value { option_map shown_entity result
        ≡ resolved_front (E.replacement entities.now) text.entry.now }
    ensures within { IfSome result
        (λ part. (0 < part.len) × IsCharBoundary text.entry.now part.len) }
{
    if begins_with(text.as_bytes(), b'\\') {
        escape_before(text)
    } else {
        scan_entity(text.as_bytes(), entities)
    }
}

/// The first escape or entity.
fn find_resolved<'t, E: EntityLookup>(text: &'t str, entities: &'t E) -> Option<Resolved<'t>>
    ensures { MatchOption result
        (resolved (E.replacement entities.now) text.entry.now ≡ text.entry.now)
        (λ found. Resolves (E.replacement entities.now) text.entry.now found.start found.end
        (text_bytes found.text)) }
{
    let mut rest = text;
    while let Some(at) = find_escape(rest.as_bytes()) {
        if let Some(part) = resolved_before(&rest[at..], entities) {
            let start = text.len() - rest.len() + at;
            return Some(Resolved {
                start,
                end: start + part.len,
                text: part.text,
            });
        }
        rest = &rest[at + 1..];
    }
    None
}

/// Appends the text without its escapes and entities.
fn push_resolved<E: EntityLookup>(
    out: &mut String,
    text: &str,
    entities: &E,
) -> Result<(), AllocError>
    ensures { OnOk result
        (string_bytes out.new
        ≡ string_bytes out.old ++ resolved (E.replacement entities.now) text.now) }
{
    let mut rest = text;
    while let Some(found) = find_resolved(rest, entities) {
        out.push_str(&rest[..found.start])?;
        out.push_str(found.text.as_str())?;
        rest = &rest[found.end..];
    }
    out.push_str(rest)?;
    Ok(())
}

/// The text without its escapes and entities; this value if it has none.
fn resolve<'a, E: EntityLookup>(
    alloc: Global,
    text: CowStr<'a>,
    entities: &E,
) -> Result<CowStr<'a>, AllocError>
    ensures value { IfOk result
        (λ made. text_bytes made ≡ resolved (E.replacement entities.now) (text_bytes text.entry)) }
    ensures kept { HasNoEscapes (E.replacement entities.now) (text_bytes text.entry)
        → result ≡ Ok text.entry }
{
    if find_resolved(text.as_str(), entities).is_none() {
        return Ok(text);
    }
    let mut out = String::new(alloc);
    push_resolved(&mut out, text.as_str(), entities)?;
    CowStr::from_string(out)
}

/// The byte offset of the first escaped backslash before a pipe.
fn find_escaped_pipe(text: &str) -> Option<usize>
    ensures { FindsNeedle text.now escaped_pipe 0 result }
{
    memmem::find(text.as_bytes(), b"\\\\|")
}

/// Appends the text without the backslash directly before each escaped pipe.
fn push_with_escaped_pipes(out: &mut String, text: &str) -> Result<(), AllocError>
    ensures { OnOk result
        (string_bytes out.new ≡ string_bytes out.old ++ with_escaped_pipes text.now) }
{
    let mut rest = text;
    while let Some(at) = find_escaped_pipe(rest) {
        out.push_str(&rest[..at])?;
        rest = &rest[at + 1..];
    }
    out.push_str(rest)?;
    Ok(())
}

/// The text without the backslash directly before each escaped pipe; this value if there is none.
fn with_escaped_pipes<'a>(alloc: Global, text: CowStr<'a>) -> Result<CowStr<'a>, AllocError>
    ensures value { IfOk result
        (λ made. text_bytes made ≡ with_escaped_pipes (text_bytes text.entry)) }
    ensures kept { (lookup : Lookup) → HasNoEscapes lookup (text_bytes text.entry)
        → result ≡ Ok text.entry }
{
    if find_escaped_pipe(text.as_str()).is_none() {
        return Ok(text);
    }
    let mut out = String::new(alloc);
    push_with_escaped_pipes(&mut out, text.as_str())?;
    CowStr::from_string(out)
}

/// The text without its escapes and entities (CommonMark 2.4 and 2.5): a backslash before ASCII punctuation is removed, and an entity or a
/// numeric character reference becomes its text. In a table cell `\|` and `\\|` both become `|`.
///
/// A text without escapes and entities is returned unchanged, borrowed if it was borrowed. Other texts need memory; it fails only if that
/// is refused.
pub fn unescape<'a, E: EntityLookup>(
    alloc: Global,
    input: CowStr<'a>,
    is_in_table: bool,
    entities: &E,
) -> Result<CowStr<'a>, AllocError>
    ensures value { IfOk result
        (λ made. text_bytes made
        ≡ unescaped (E.replacement entities.now) is_in_table (text_bytes input.entry)) }
    ensures kept { HasNoEscapes (E.replacement entities.now) (text_bytes input.entry)
        → result ≡ Ok input.entry }
{
    if !is_in_table {
        return resolve(alloc, input, entities);
    }
    let text = with_escaped_pipes(alloc, input)?;
    resolve(alloc, text, entities)
}
