//! The contents of further records.

ghost use Rattle.std.specs.Prelude.{◌≤◌, length, map, option_map, IfSome};
ghost use Rattle.cmark_flat.specs.Decode.{attribute_at, attribute_of, attributes_of, classes_at, first_of, heading_parts_of, id_at, linked_of, part_text, value_of};
ghost use Rattle.cmark_flat.specs.Gives.{Gives, Reads};
ghost use Rattle.cmark_flat.specs.Records.{shown_record};
ghost use Rattle.cmark_values.specs.Shown.{shown_attribute, shown_attributes, shown_linked, text_bytes};

use crate::decode_numbers::link_of;
use crate::error::DecodeError;
use crate::numbers::*;
use crate::record::{Record, rest_from};
use cmark_text::{CowStr, LinkType};
use std::alloc::Global;

/// The text of a further record of this kind.
pub fn part_text<'a>(kind: u8, part: &Record<'a>) -> Option<&'a str>
    ensures { Reads (λ x. x.now) result (part_text kind (shown_record part.now)) }
{
    if part.tag == kind && part.datum == NO_DATA && part.start == 0 && part.end == 0 {
        Some(part.text)
    } else {
        None
    }
}

/// The first number of an ordered list.
pub fn first_of(part: &Record<'_>) -> Option<u64>
    ensures { Reads (λ x. x) result (first_of (shown_record part.now)) }
{
    if part.tag == FIRST_NUMBER_PART
        && part.datum == NO_DATA
        && part.end == 0
        && part.text.is_empty()
    {
        Some(part.start)
    } else {
        None
    }
}

/// The value of an attribute, if it has one.
fn value_of<'a>(part: &Record<'a>) -> Option<Option<CowStr<'a>>>
    ensures { Reads (λ x. option_map text_bytes x) result (value_of (shown_record part.now)) }
{
    if part.tag == NO_VALUE_PART {
        let text = part_text(NO_VALUE_PART, part)?;
        if text.is_empty() { Some(None) } else { None }
    } else {
        let text = part_text(VALUE_PART, part)?;
        Some(Some(CowStr::Borrowed(text)))
    }
}

/// An attribute's name and its value.
fn attribute_of<'a>(
    name: &Record<'a>,
    value: &Record<'a>,
) -> Option<(CowStr<'a>, Option<CowStr<'a>>)>
    ensures { Reads shown_attribute result
        (attribute_of (shown_record name.now) (shown_record value.now)) }
{
    let name = part_text(ATTRIBUTE_PART, name)?;
    let value = value_of(value)?;
    Some((CowStr::Borrowed(name), value))
}

/// The attribute of the two further records that come first.
fn attribute_at<'a>(parts: &[Record<'a>]) -> Option<(CowStr<'a>, Option<CowStr<'a>>)>
    ensures reads { Reads shown_attribute result (attribute_at (map shown_record parts.now)) }
    ensures two { IfSome result (λ x. 2 ≤ length parts.now) }
{
    let [name, value, ..] = parts else {
        return None;
    };
    attribute_of(name, value)
}

/// The attributes of a heading, without its id and its classes.
fn attributes_of<'a>(
    alloc: Global,
    parts: &[Record<'a>],
) -> Result<Vec<(CowStr<'a>, Option<CowStr<'a>>)>, DecodeError>
    ensures { Gives (λ v. map shown_attribute v.items) result
        (attributes_of (map shown_record parts.now)) }
{
    let mut attributes = Vec::new(alloc);
    let mut at = 0;
    while at < parts.len() {
        let Some(attribute) = attribute_at(rest_from(parts, at)) else {
            return Err(DecodeError::Malformed);
        };
        attributes.push(attribute)?;
        at += 2;
    }
    Ok(attributes)
}

/// The classes of a heading that come first, and the records after them.
fn classes_at<'a, 'b>(
    alloc: Global,
    parts: &'b [Record<'a>],
) -> Result<(Vec<CowStr<'a>>, &'b [Record<'a>]), DecodeError>
    ensures { Gives (λ x. (map text_bytes x.0.items, map shown_record x.1.now)) result
        (classes_at (map shown_record parts.now)) }
{
    let mut classes = Vec::new(alloc);
    let mut rest = parts;
    while let [first, after @ ..] = rest {
        if first.tag != CLASS_PART {
            break;
        }
        let Some(class) = part_text(CLASS_PART, first) else {
            return Err(DecodeError::Malformed);
        };
        classes.push(CowStr::Borrowed(class))?;
        rest = after;
    }
    Ok((classes, rest))
}

/// The id of a heading, if one comes first, and the records after it.
fn id_at<'a, 'b>(parts: &'b [Record<'a>]) -> Option<(Option<CowStr<'a>>, &'b [Record<'a>])>
    ensures { Reads (λ x. (option_map text_bytes x.0, map shown_record x.1.now)) result
        (id_at (map shown_record parts.now)) }
{
    let [first, after @ ..] = parts else {
        return Some((None, parts));
    };
    if first.tag == HEADING_ID_PART {
        let id = part_text(HEADING_ID_PART, first)?;
        Some((Some(CowStr::Borrowed(id)), after))
    } else {
        Some((None, parts))
    }
}

/// The id, the classes and the other attributes of a heading.
#[derive(Drop)]
pub struct HeadingParts<'a> {
    pub id: Option<CowStr<'a>>,
    pub classes: Vec<CowStr<'a>>,
    pub attrs: Vec<(CowStr<'a>, Option<CowStr<'a>>)>,
}

/// The attributes of a heading, its id and its classes included, from its further records.
pub fn heading_parts_of<'a>(
    alloc: Global,
    parts: &[Record<'a>],
) -> Result<HeadingParts<'a>, DecodeError>
    ensures { Gives (λ x. shown_attributes x.id x.classes.items x.attrs.items) result
        (heading_parts_of (map shown_record parts.now)) }
{
    let Some((id, rest)) = id_at(parts) else {
        return Err(DecodeError::Malformed);
    };
    let (classes, rest) = classes_at(alloc, rest)?;
    let attrs = attributes_of(alloc, rest)?;
    Ok(HeadingParts { id, classes, attrs })
}

/// The parts of a link or an image.
#[derive(Drop)]
pub struct Linked<'a> {
    pub link_type: LinkType,
    pub dest_url: CowStr<'a>,
    pub title: CowStr<'a>,
    pub id: CowStr<'a>,
}

/// The link or image of a record and its further records.
pub fn linked_of<'a>(own: &Record<'a>, parts: &[Record<'a>]) -> Option<Linked<'a>>
    ensures { Reads (λ x. shown_linked x.link_type x.dest_url x.title x.id) result
        (linked_of (shown_record own.now) (map shown_record parts.now)) }
{
    let [title, label] = parts else {
        return None;
    };
    let link_type = link_of(own.datum)?;
    let title = part_text(TITLE_PART, title)?;
    let id = part_text(LABEL_PART, label)?;
    Some(Linked {
        link_type,
        dest_url: CowStr::Borrowed(own.text),
        title: CowStr::Borrowed(title),
        id: CowStr::Borrowed(id),
    })
}
