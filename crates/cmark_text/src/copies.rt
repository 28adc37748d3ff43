//! Copies of tags and events, also as values that borrow nothing.

ghost use Rattle.std.specs.Prelude.{◌≡◌, ◌∷◌, [], ◌++◌, length, IfOk, IsOk, IfSome, OnOk, map, option_map};
ghost use Rattle.cmark_grammar.specs.Tag as tag;
ghost use Rattle.cmark_text.specs.InPlace.{TagCopiesInPlace, EventCopiesInPlace, TagStaysInPlace, EventStaysInPlace};
ghost use Rattle.cmark_values.specs.InPlace.{CopiesInPlace, StaysInPlace};
ghost use Rattle.cmark_text.specs.Kinds.{shown_link_tag, shown_text};
ghost use Rattle.cmark_text.specs.Short.{MayOwn, shown_plain};
ghost use Rattle.cmark_text.specs.Shown.{shown, shown_tag};
ghost use Rattle.cmark_values.specs.Shown.{level_number, shown_attribute, shown_attributes, shown_linked, text_bytes};

use crate::event::{Event, Tag};
use crate::short::PlainTag;
use cmark_values::{CowStr, HeadingLevel, LinkType};
use std::alloc::{AllocError, Global};

impl<'a> Tag<'a> {
    /// A copy of the tag.
    pub fn clone(&self, alloc: Global) -> Result<Tag<'a>, AllocError>
        ensures value { IfOk result (λ copy. shown_tag copy ≡ shown_tag self.now) }
        ensures succeeds { TagCopiesInPlace self.now → IsOk result }
    {
        match self {
            Tag::Heading {
                level,
                id,
                classes,
                attrs,
            } => clone_heading(alloc, *level, id, classes, attrs),
            Tag::CodeBlock(kind) => kind.clone(alloc).map(Tag::CodeBlock),
            Tag::FootnoteDefinition(label) => label.clone(alloc).map(Tag::FootnoteDefinition),
            Tag::Table(alignments) => match Vec::from_slice(alloc, alignments) {
                Ok(copies) => Ok(Tag::Table(copies)),
                Err(error) => Err(error),
            },
            Tag::Link {
                link_type,
                dest_url,
                title,
                id,
            } => clone_linked(alloc, LinkKind::Link, *link_type, dest_url, title, id),
            Tag::Image {
                link_type,
                dest_url,
                title,
                id,
            } => clone_linked(alloc, LinkKind::Image, *link_type, dest_url, title, id),
            _ => Ok(self.textless().tag(alloc)),
        }
    }

    /// This tag as a value that borrows nothing.
    pub fn into_static(self, alloc: Global) -> Result<Tag<'static>, AllocError>
        ensures value { IfOk result (λ made. shown_tag made ≡ shown_tag self.entry) }
        ensures succeeds { TagStaysInPlace self.entry → IsOk result }
    {
        match self {
            Tag::Heading {
                level,
                id,
                classes,
                attrs,
            } => static_heading(alloc, level, id, classes, attrs),
            Tag::CodeBlock(kind) => kind.into_static(alloc).map(Tag::CodeBlock),
            Tag::FootnoteDefinition(label) => label.into_static(alloc).map(Tag::FootnoteDefinition),
            Tag::Table(alignments) => Ok(Tag::Table(alignments)),
            Tag::Link {
                link_type,
                dest_url,
                title,
                id,
            } => static_linked(alloc, LinkKind::Link, link_type, dest_url, title, id),
            Tag::Image {
                link_type,
                dest_url,
                title,
                id,
            } => static_linked(alloc, LinkKind::Image, link_type, dest_url, title, id),
            _ => {
                let plain = self.textless();
                // Dropped by a call: the compiler would write out an implicit drop here, which takes long to prove.
                drop(self);
                Ok(plain.tag(alloc))
            }
        }
    }

    /// The tag as a `PlainTag`. It has to be the tag of an element without texts of its own.
    fn textless(&self) -> PlainTag
        requires { MayOwn self.now → ⊥ }
        ensures { shown_plain result ≡ shown_tag self.now }
    {
        match self.plain() {
            Some(plain) => plain,
            None => unreachable!(),
        }
    }
}

impl<'a> Event<'a> {
    /// A copy of the event.
    pub fn clone(&self, alloc: Global) -> Result<Event<'a>, AllocError>
        ensures value { IfOk result (λ copy. shown copy ≡ shown self.now) }
        ensures succeeds { EventCopiesInPlace self.now → IsOk result }
    {
        let (kind, text) = match self {
            Event::Text(text) => (TextKind::Text, text),
            Event::Code(text) => (TextKind::Code, text),
            Event::InlineMath(text) => (TextKind::InlineMath, text),
            Event::DisplayMath(text) => (TextKind::DisplayMath, text),
            Event::Html(text) => (TextKind::Html, text),
            Event::InlineHtml(text) => (TextKind::InlineHtml, text),
            Event::FootnoteReference(text) => (TextKind::FootnoteReference, text),
            Event::Start(tag) => return tag.clone(alloc).map(Event::Start),
            Event::End(end) => return Ok(Event::End(*end)),
            Event::SoftBreak => return Ok(Event::SoftBreak),
            Event::HardBreak => return Ok(Event::HardBreak),
            Event::Rule => return Ok(Event::Rule),
            Event::TaskListMarker(is_checked) => return Ok(Event::TaskListMarker(*is_checked)),
        };
        match text.clone(alloc) {
            Ok(copy) => Ok(kind.event(copy)),
            Err(error) => Err(error),
        }
    }

    /// This event as a value that borrows nothing.
    pub fn into_static(self, alloc: Global) -> Result<Event<'static>, AllocError>
        ensures value { IfOk result (λ made. shown made ≡ shown self.entry) }
        ensures succeeds { EventStaysInPlace self.entry → IsOk result }
    {
        let (kind, text) = match self {
            Event::Text(text) => (TextKind::Text, text),
            Event::Code(text) => (TextKind::Code, text),
            Event::InlineMath(text) => (TextKind::InlineMath, text),
            Event::DisplayMath(text) => (TextKind::DisplayMath, text),
            Event::Html(text) => (TextKind::Html, text),
            Event::InlineHtml(text) => (TextKind::InlineHtml, text),
            Event::FootnoteReference(text) => (TextKind::FootnoteReference, text),
            Event::Start(tag) => return tag.into_static(alloc).map(Event::Start),
            Event::End(end) => return Ok(Event::End(end)),
            Event::SoftBreak => return Ok(Event::SoftBreak),
            Event::HardBreak => return Ok(Event::HardBreak),
            Event::Rule => return Ok(Event::Rule),
            Event::TaskListMarker(is_checked) => return Ok(Event::TaskListMarker(is_checked)),
        };
        match text.into_static(alloc) {
            Ok(made) => Ok(kind.event(made)),
            Err(error) => Err(error),
        }
    }
}

/// The kinds of events that hold a text and nothing else.
#[derive(Clone, Copy)]
enum TextKind {
    Text,
    Code,
    InlineMath,
    DisplayMath,
    Html,
    InlineHtml,
    FootnoteReference,
}

impl TextKind {
    /// The event of this kind with this text.
    fn event<'a>(self, text: CowStr<'a>) -> Event<'a>
        ensures { shown result ≡ shown_text self (text_bytes text.entry) }
    {
        match self {
            TextKind::Text => Event::Text(text),
            TextKind::Code => Event::Code(text),
            TextKind::InlineMath => Event::InlineMath(text),
            TextKind::DisplayMath => Event::DisplayMath(text),
            TextKind::Html => Event::Html(text),
            TextKind::InlineHtml => Event::InlineHtml(text),
            TextKind::FootnoteReference => Event::FootnoteReference(text),
        }
    }
}

/// An attribute of a heading: its name, and its value if it has one.
type Attribute<'a> = (CowStr<'a>, Option<CowStr<'a>>);

/// The elements with a destination.
#[derive(Clone, Copy)]
enum LinkKind {
    Link,
    Image,
}

impl LinkKind {
    /// The tag of this element with these texts.
    fn tag<'a>(
        self,
        link_type: LinkType,
        dest_url: CowStr<'a>,
        title: CowStr<'a>,
        id: CowStr<'a>,
    ) -> Tag<'a>
        ensures { shown_tag result
            ≡ shown_link_tag self (shown_linked link_type dest_url.entry title.entry id.entry) }
    {
        match self {
            LinkKind::Link => Tag::Link {
                link_type,
                dest_url,
                title,
                id,
            },
            LinkKind::Image => Tag::Image {
                link_type,
                dest_url,
                title,
                id,
            },
        }
    }
}

/// A copy of the link or the image with this type and these texts.
fn clone_linked<'a>(
    alloc: Global,
    kind: LinkKind,
    link_type: LinkType,
    dest_url: &CowStr<'a>,
    title: &CowStr<'a>,
    id: &CowStr<'a>,
) -> Result<Tag<'a>, AllocError>
    ensures value { let linked = shown_linked link_type dest_url.now title.now id.now in
        IfOk result (λ copy. shown_tag copy ≡ shown_link_tag kind linked) }
    ensures succeeds { CopiesInPlace dest_url.now → CopiesInPlace title.now → CopiesInPlace id.now
        → IsOk result }
{
    // The other texts are dropped by calls: the compiler would write out implicit drops at each exit, which takes long to prove.
    let Ok(dest_url) = dest_url.clone(alloc) else {
        return Err(AllocError);
    };
    let Ok(title) = title.clone(alloc) else {
        drop(dest_url);
        return Err(AllocError);
    };
    let Ok(id) = id.clone(alloc) else {
        drop(dest_url);
        drop(title);
        return Err(AllocError);
    };
    Ok(kind.tag(link_type, dest_url, title, id))
}

/// The link or the image with this type and these texts, as a value that borrows nothing.
fn static_linked(
    alloc: Global,
    kind: LinkKind,
    link_type: LinkType,
    dest_url: CowStr<'_>,
    title: CowStr<'_>,
    id: CowStr<'_>,
) -> Result<Tag<'static>, AllocError>
    ensures value { let linked = shown_linked link_type dest_url.entry title.entry id.entry in
        IfOk result (λ made. shown_tag made ≡ shown_link_tag kind linked) }
    ensures succeeds { StaysInPlace dest_url.entry → StaysInPlace title.entry
        → StaysInPlace id.entry → IsOk result }
{
    // Calls drop the other texts, as in `clone_linked`.
    let Ok(dest_url) = dest_url.into_static(alloc) else {
        drop(title);
        drop(id);
        return Err(AllocError);
    };
    let Ok(title) = title.into_static(alloc) else {
        drop(dest_url);
        drop(id);
        return Err(AllocError);
    };
    let Ok(id) = id.into_static(alloc) else {
        drop(dest_url);
        drop(title);
        return Err(AllocError);
    };
    Ok(kind.tag(link_type, dest_url, title, id))
}

/// A copy of the heading with this level and these attributes.
fn clone_heading<'a>(
    alloc: Global,
    level: HeadingLevel,
    id: &Option<CowStr<'a>>,
    classes: &[CowStr<'a>],
    attrs: &[Attribute<'a>],
) -> Result<Tag<'a>, AllocError>
    ensures value { let attributes = shown_attributes id.now classes.now attrs.now in
        IfOk result (λ copy. shown_tag copy ≡ tag.Heading (level_number level) attributes) }
    ensures succeeds { IfSome id.now CopiesInPlace → length classes.now ≡ 0 → length attrs.now ≡ 0
        → IsOk result }
{
    let Ok(classes) = clone_texts(alloc, classes) else {
        return Err(AllocError);
    };
    let Ok(attrs) = clone_attributes(alloc, attrs) else {
        return Err(AllocError);
    };
    match clone_optional_text(alloc, id) {
        Ok(id) => Ok(Tag::Heading {
            level,
            id,
            classes,
            attrs,
        }),
        Err(error) => Err(error),
    }
}

/// The heading with this level and these attributes, as a value that borrows nothing.
fn static_heading(
    alloc: Global,
    level: HeadingLevel,
    id: Option<CowStr<'_>>,
    classes: Vec<CowStr<'_>>,
    attrs: Vec<Attribute<'_>>,
) -> Result<Tag<'static>, AllocError>
    ensures value { let attributes =
        shown_attributes id.entry classes.entry.items attrs.entry.items in
        IfOk result (λ made. shown_tag made ≡ tag.Heading (level_number level) attributes) }
    ensures succeeds { IfSome id.entry StaysInPlace → length classes.entry.items ≡ 0
        → length attrs.entry.items ≡ 0 → IsOk result }
{
    // A call drops the anchor, as in `clone_linked`. A list is dropped by a call in any case.
    let Ok(classes) = static_texts(alloc, classes) else {
        drop(id);
        return Err(AllocError);
    };
    let Ok(attrs) = static_attributes(alloc, attrs) else {
        drop(id);
        return Err(AllocError);
    };
    match static_optional_text(alloc, id) {
        Ok(id) => Ok(Tag::Heading {
            level,
            id,
            classes,
            attrs,
        }),
        Err(error) => Err(error),
    }
}

fn clone_optional_text<'a>(
    alloc: Global,
    text: &Option<CowStr<'a>>,
) -> Result<Option<CowStr<'a>>, AllocError>
    ensures value { IfOk result
        (λ copy. option_map text_bytes copy ≡ option_map text_bytes text.now) }
    ensures succeeds { IfSome text.now CopiesInPlace → IsOk result }
{
    match text {
        Some(text) => text.clone(alloc).map(Some),
        None => Ok(None),
    }
}

fn clone_texts<'a>(alloc: Global, texts: &[CowStr<'a>]) -> Result<Vec<CowStr<'a>>, AllocError>
    ensures value { IfOk result (λ copies. map text_bytes copies.items ≡ map text_bytes texts.now) }
    ensures succeeds { length texts.now ≡ 0 → IsOk result }
{
    let Ok(mut copies) = Vec::with_capacity(alloc, texts.len()) else {
        return Err(AllocError);
    };
    for text in texts {
        if let Err(error) = push_clone(&mut copies, alloc, text) {
            return Err(error);
        }
    }
    Ok(copies)
}

/// Appends a copy of this text. The list is passed by reference, so that no exit of this function drops it.
fn push_clone<'a>(
    copies: &mut Vec<CowStr<'a>>,
    alloc: Global,
    text: &CowStr<'a>,
) -> Result<(), AllocError>
    ensures { OnOk result
        (map text_bytes copies.new.items ≡ map text_bytes copies.old.items
        ++ (text_bytes text.now ∷ [])) }
{
    let Ok(copy) = text.clone(alloc) else {
        return Err(AllocError);
    };
    copies.push(copy)?;
    Ok(())
}

fn clone_attributes<'a>(
    alloc: Global,
    attributes: &[Attribute<'a>],
) -> Result<Vec<Attribute<'a>>, AllocError>
    ensures value { IfOk result
        (λ copies. map shown_attribute copies.items ≡ map shown_attribute attributes.now) }
    ensures succeeds { length attributes.now ≡ 0 → IsOk result }
{
    let Ok(mut copies) = Vec::with_capacity(alloc, attributes.len()) else {
        return Err(AllocError);
    };
    for attribute in attributes {
        if let Err(error) = push_attribute_clone(&mut copies, alloc, attribute) {
            return Err(error);
        }
    }
    Ok(copies)
}

/// Appends a copy of this attribute, as `push_clone` does for a text.
fn push_attribute_clone<'a>(
    copies: &mut Vec<Attribute<'a>>,
    alloc: Global,
    attribute: &Attribute<'a>,
) -> Result<(), AllocError>
    ensures { OnOk result
        (map shown_attribute copies.new.items ≡ map shown_attribute copies.old.items
        ++ (shown_attribute attribute.now ∷ [])) }
{
    let (name, value) = attribute;
    let Ok(name) = name.clone(alloc) else {
        return Err(AllocError);
    };
    let Ok(value) = clone_optional_text(alloc, value) else {
        drop(name);
        return Err(AllocError);
    };
    copies.push((name, value))?;
    Ok(())
}

fn static_optional_text(
    alloc: Global,
    text: Option<CowStr<'_>>,
) -> Result<Option<CowStr<'static>>, AllocError>
    ensures value { IfOk result
        (λ made. option_map text_bytes made ≡ option_map text_bytes text.entry) }
    ensures succeeds { IfSome text.entry StaysInPlace → IsOk result }
{
    match text {
        Some(text) => text.into_static(alloc).map(Some),
        None => Ok(None),
    }
}

fn static_texts(alloc: Global, texts: Vec<CowStr<'_>>) -> Result<Vec<CowStr<'static>>, AllocError>
    ensures value { IfOk result
        (λ made. map text_bytes made.items ≡ map text_bytes texts.entry.items) }
    ensures succeeds { length texts.entry.items ≡ 0 → IsOk result }
{
    let Ok(mut made) = Vec::with_capacity(alloc, texts.len()) else {
        return Err(AllocError);
    };
    for text in texts {
        if let Err(error) = push_static(&mut made, alloc, text) {
            return Err(error);
        }
    }
    Ok(made)
}

/// Appends this text as a value that borrows nothing. The list is passed by reference, so that no exit of this function drops it.
fn push_static(
    made: &mut Vec<CowStr<'static>>,
    alloc: Global,
    text: CowStr<'_>,
) -> Result<(), AllocError>
    ensures { OnOk result
        (map text_bytes made.new.items ≡ map text_bytes made.old.items
        ++ (text_bytes text.entry ∷ [])) }
{
    let Ok(text) = text.into_static(alloc) else {
        return Err(AllocError);
    };
    made.push(text)?;
    Ok(())
}

fn static_attributes(
    alloc: Global,
    attributes: Vec<Attribute<'_>>,
) -> Result<Vec<Attribute<'static>>, AllocError>
    ensures value { IfOk result
        (λ made. map shown_attribute made.items ≡ map shown_attribute attributes.entry.items) }
    ensures succeeds { length attributes.entry.items ≡ 0 → IsOk result }
{
    let Ok(mut made) = Vec::with_capacity(alloc, attributes.len()) else {
        return Err(AllocError);
    };
    for attribute in attributes {
        if let Err(error) = push_static_attribute(&mut made, alloc, attribute) {
            return Err(error);
        }
    }
    Ok(made)
}

/// Appends this attribute as a value that borrows nothing, as `push_static` does for a text.
fn push_static_attribute(
    made: &mut Vec<Attribute<'static>>,
    alloc: Global,
    attribute: Attribute<'_>,
) -> Result<(), AllocError>
    ensures { OnOk result
        (map shown_attribute made.new.items ≡ map shown_attribute made.old.items
        ++ (shown_attribute attribute.entry ∷ [])) }
{
    let (name, value) = attribute;
    let Ok(name) = name.into_static(alloc) else {
        drop(value);
        return Err(AllocError);
    };
    let Ok(value) = static_optional_text(alloc, value) else {
        drop(name);
        return Err(AllocError);
    };
    made.push((name, value))?;
    Ok(())
}
