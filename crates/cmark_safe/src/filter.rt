//! The safe form of an event.

ghost use Rattle.std.specs.Prelude.{◌≡◌, ℕ, List, IfErr, IfOk, IsSome, length, option_map, string_bytes, false};
ghost use Rattle.std.specs.Str.{IsCharBoundary};
ghost use Rattle.cmark_grammar.specs.Tag as grammar;
ghost use Rattle.cmark_text.specs.Short.{shown_short};
ghost use Rattle.cmark_text.specs.Shown.{shown, shown_end, shown_tag};
ghost use Rattle.cmark_values.specs.Shown.{IsInlined, level_number, text_bytes};
ghost use Rattle.cmark_safe.specs.Memory.{NeedsMemory, TagNeedsMemory};
ghost use Rattle.cmark_safe.specs.SafeEvents.{anchored, first_word, own_name, safe, safe_destination, safe_end, safe_tag};

use crate::scheme::is_allowed;
use cmark_text::{
    CodeBlockKind, CowStr, Event, Excerpt, HeadingLevel, PlainTag, Short, Tag, TagEnd,
};
use std::alloc::{AllocError, Global};

/// The safe form of an event. The HTML of safe forms is safe, whatever the events are. `further` is a list of further schemes that
/// addresses may have, separated by white space; `javascript`, `vbscript`, `data` and `file` are never taken from it.
///
/// Raw HTML becomes text, and an HTML block a paragraph. A heading keeps its level and its anchor, and no other attribute. An anchor and
/// the name of a footnote get the prefix `user-content-`, which takes memory. A destination becomes empty unless its address is relative or
/// has an allowed scheme. An info string is cut before its first white space, so a code block has one class; memory is taken only for a
/// short owned text.
#[inline(always)]
pub fn safe_event<'a>(
    alloc: Global,
    further: &str,
    event: Event<'a>,
) -> Result<Event<'a>, AllocError>
    ensures value { IfOk result (λ made. shown made ≡ safe further.now (shown event.entry)) }
    ensures refused { IfErr result (λ error. NeedsMemory event.entry) }
{
    match event {
        Event::Start(tag) => safe_tag(alloc, further, tag).map(Event::Start),
        Event::End(end) => Ok(Event::End(safe_end(end))),
        Event::Html(text) => Ok(Event::Text(text)),
        Event::InlineHtml(text) => Ok(Event::Text(text)),
        Event::FootnoteReference(name) => own_name(alloc, name).map(Event::FootnoteReference),
        other => Ok(other),
    }
}

/// Whether the safe form of an event that owns nothing may differ from it: only raw HTML differs.
#[inline(always)]
pub fn is_raw(short: &Short<'_>) -> bool
    ensures { result ≡ false → (further : List ℕ) →
        safe further (shown_short short.now) ≡ shown_short short.now }
{
    match short {
        Short::Html(_) => true,
        Short::InlineHtml(_) => true,
        Short::Start(PlainTag::HtmlBlock) => true,
        Short::End(TagEnd::HtmlBlock) => true,
        _ => false,
    }
}

/// The safe form of an event that owns nothing.
#[inline(always)]
pub fn safe_short(short: Short<'_>) -> Short<'_>
    ensures { (further : List ℕ) → shown_short result ≡ safe further (shown_short short.entry) }
{
    match short {
        Short::Html(text) => Short::Text(Excerpt::whole(text)),
        Short::InlineHtml(text) => Short::Text(Excerpt::whole(text)),
        Short::Start(PlainTag::HtmlBlock) => Short::Start(PlainTag::Paragraph),
        Short::End(TagEnd::HtmlBlock) => Short::End(TagEnd::Paragraph),
        other => other,
    }
}

/// The safe form of a destination: the destination itself, or an empty one if it is not allowed.
pub fn safe_destination<'x>(further: &str, destination: &'x str) -> &'x str
    ensures { result.now ≡ safe_destination further.now destination.entry.now }
{
    if is_allowed(further, destination) {
        destination
    } else {
        ""
    }
}

/// The safe form of a start.
fn safe_tag<'a>(alloc: Global, further: &str, tag: Tag<'a>) -> Result<Tag<'a>, AllocError>
    ensures value { IfOk result
        (λ made. shown_tag made ≡ safe_tag further.now (shown_tag tag.entry)) }
    ensures refused { IfErr result (λ error. TagNeedsMemory tag.entry) }
{
    match tag {
        Tag::HtmlBlock => Ok(Tag::Paragraph),
        Tag::Heading {
            level,
            id,
            classes,
            attrs,
        } => {
            drop(classes);
            drop(attrs);
            safe_heading(alloc, level, id)
        }
        Tag::CodeBlock(CodeBlockKind::Fenced(info)) => {
            let language = language(alloc, info)?;
            Ok(Tag::CodeBlock(CodeBlockKind::Fenced(language)))
        }
        Tag::FootnoteDefinition(name) => own_name(alloc, name).map(Tag::FootnoteDefinition),
        Tag::Link {
            link_type,
            dest_url,
            title,
            id,
        } => Ok(Tag::Link {
            link_type,
            dest_url: kept_if_allowed(further, dest_url),
            title,
            id,
        }),
        Tag::Image {
            link_type,
            dest_url,
            title,
            id,
        } => Ok(Tag::Image {
            link_type,
            dest_url: kept_if_allowed(further, dest_url),
            title,
            id,
        }),
        other => Ok(other),
    }
}

/// The safe form of an end.
fn safe_end(end: TagEnd) -> TagEnd
    ensures { shown_end result ≡ safe_end (shown_end end) }
{
    match end {
        TagEnd::HtmlBlock => TagEnd::Paragraph,
        other => other,
    }
}

/// A heading of this level with this anchor, which gets a prefix, and no other attribute.
fn safe_heading<'a>(
    alloc: Global,
    level: HeadingLevel,
    id: Option<CowStr<'a>>,
) -> Result<Tag<'a>, AllocError>
    ensures value { IfOk result (λ made. shown_tag made
        ≡ grammar.Heading (level_number level) (anchored (option_map text_bytes id.entry))) }
    ensures refused { IfErr result (λ error. IsSome id.entry) }
{
    let id = match id {
        Some(name) => Some(own_name(alloc, name)?),
        None => None,
    };
    Ok(Tag::Heading {
        level,
        id,
        classes: Vec::new(alloc),
        attrs: Vec::new(alloc),
    })
}

/// The first word of an info string. Only a short owned text takes memory.
fn language<'a>(alloc: Global, info: CowStr<'a>) -> Result<CowStr<'a>, AllocError>
    ensures value { IfOk result (λ made. text_bytes made ≡ first_word (text_bytes info.entry)) }
    ensures refused { IfErr result (λ error. IsInlined info.entry) }
{
    let end = word_end(info.as_str());
    match info {
        CowStr::Borrowed(text) => Ok(CowStr::Borrowed(&text[..end])),
        owned => {
            let mut text = owned.into_string(alloc)?;
            text.truncate(end);
            CowStr::from_string(text)
        }
    }
}

/// The offset of a text's first white space, or its length if it has none.
fn word_end(text: &str) -> usize
    ensures value { result ≡ length (first_word text.now) }
    ensures starts { IsCharBoundary text.now result }
{
    text.as_bytes()
        .iter()
        .take_while(|byte| !byte.is_ascii_whitespace())
        .count()
}

/// The destination, or an empty one if it is not allowed.
fn kept_if_allowed<'a>(further: &str, destination: CowStr<'a>) -> CowStr<'a>
    ensures { text_bytes result ≡ safe_destination further.now (text_bytes destination.entry) }
{
    if is_allowed(further, destination.as_str()) {
        return destination;
    }
    drop(destination);
    CowStr::Borrowed("")
}

/// A name that the text chose, with a prefix.
fn own_name<'a>(alloc: Global, name: CowStr<'a>) -> Result<CowStr<'a>, AllocError>
    ensures { IfOk result (λ made. text_bytes made ≡ own_name (text_bytes name.entry)) }
{
    let made = prefixed(alloc, name.as_str());
    drop(name);
    match made {
        Ok(text) => CowStr::from_string(text),
        Err(error) => Err(error),
    }
}

/// The name after the prefix.
fn prefixed(alloc: Global, name: &str) -> Result<String, AllocError>
    ensures { IfOk result (λ made. string_bytes made ≡ own_name name.now) }
{
    let mut text = String::from_str(alloc, "user-content-")?;
    text.push_str(name)?;
    Ok(text)
}
