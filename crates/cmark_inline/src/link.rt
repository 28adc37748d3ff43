//! The targets of links and images. An inline one has its destination and title after the closing bracket (CommonMark 6.3 and 6.4).

ghost use Rattle.std.specs.Prelude.{◌≡◌, ◌==◌, List, None, ℕ, drop, IfOk, option_copied};
ghost use Rattle.std.specs.Str.{IsCharBoundary};
ghost use Rattle.cmark_leaf_text.specs.Reads.{IsRead, is_cell_of, text_of};
ghost use Rattle.cmark_grammar.specs.Characters.{left_parenthesis};
ghost use Rattle.cmark_grammar.specs.Letters.{first_is};
ghost use Rattle.cmark_values.specs.Shown.{text_bytes};
ghost use Rattle.cmark_inline.specs.Linked.{FindsInline, resolved_title, shown_target};

use cmark_leaf_text::LeafText;
use cmark_link_scan::{link_tail, title_text};
use cmark_references::Link;
use cmark_scan_bytes::unescape;
use cmark_text::{CowStr, EntityLookup, LinkType};
use std::alloc::{AllocError, Global};

/// The target of a link or an image.
#[derive(Drop)]
pub struct Target<'a> {
    /// Its type, destination, title and id.
    pub link: Link<'a>,
    /// The offset after the link or the image.
    pub end: usize,
    /// The offset after all bytes that it uses up. Reading continues there.
    pub resume: usize,
}

/// The target of the inline link whose closing bracket ends at `at`; `None` if there is none. Its texts can borrow from `text`. If
/// `is_cell`, `text` is the text of a table's cell.
fn inline_in<'t, E: EntityLookup>(
    alloc: Global,
    text: &'t str,
    at: usize,
    is_cell: bool,
    entities: &E,
) -> Result<Option<Target<'t>>, AllocError>
    requires { IsCharBoundary text.now at }
    ensures { IfOk result (FindsInline (E.replacement entities.now) is_cell text.entry.now at) }
{
    let Some(tail) = link_tail(text, at) else {
        return Ok(None);
    };
    let dest_url = unescape(alloc, CowStr::Borrowed(tail.destination), is_cell, entities)?;
    let title = resolved_title(alloc, tail.title, is_cell, entities)?;
    Ok(Some(Target {
        link: Link {
            link_type: LinkType::Inline,
            dest_url,
            title,
            id: CowStr::Borrowed(""),
        },
        end: tail.end,
        resume: tail.end,
    }))
}

/// The text of a title; empty if there is none.
fn resolved_title<'t, E: EntityLookup>(
    alloc: Global,
    title: Option<&'t str>,
    is_cell: bool,
    entities: &E,
) -> Result<CowStr<'t>, AllocError>
    ensures { IfOk result
        (λ made. text_bytes made
        ≡ resolved_title (E.replacement entities.now) is_cell (option_copied title.entry)) }
{
    match title {
        Some(title) => title_text(alloc, title, is_cell, entities),
        None => Ok(CowStr::Borrowed("")),
    }
}

/// Copies the borrowed texts of a target, so that it borrows nothing. Fails only if memory is refused.
fn own_target(alloc: Global, target: Target<'_>) -> Result<Target<'static>, AllocError>
    ensures value { IfOk result
        (λ made. (text : List ℕ) → shown_target text made ≡ shown_target text target.entry) }
    ensures ends { IfOk result
        (λ made. (made.end ≡ target.entry.end) × (made.resume ≡ target.entry.resume)) }
{
    let Target { link, end, resume } = target;
    let Link {
        link_type,
        dest_url,
        title,
        id,
    } = link;
    let dest_url = dest_url.into_static(alloc)?;
    let title = title.into_static(alloc)?;
    let id = id.into_static(alloc)?;
    Ok(Target {
        link: Link {
            link_type,
            dest_url,
            title,
            id,
        },
        end,
        resume,
    })
}

/// Whether an opening parenthesis is at `at`. An inline link has one after its closing bracket.
#[inline(always)]
fn opens_tail(text: &str, at: usize) -> bool
    ensures { result ≡ first_is (λ b. b == left_parenthesis) (drop at text.now) }
{
    let bytes = text.as_bytes();
    if at >= bytes.len() {
        return false;
    }
    bytes[at] == b'('
}

/// The target of the inline link whose closing bracket ends at the offset `at` of `text` (CommonMark 6.3); `None` if there is none. Its
/// texts can borrow from the source if the leaf's text is a slice of it. Fails only if memory is refused.
#[inline(always)]
pub fn inline_target<'a, E: EntityLookup>(
    alloc: Global,
    leaf: &LeafText<'a>,
    text: &str,
    at: usize,
    entities: &E,
) -> Result<Option<Target<'a>>, AllocError>
    requires read { IsRead leaf.now }
    requires same { text.now ≡ text_of leaf.now }
    requires place { IsCharBoundary text.now at }
    ensures { IfOk result
        (FindsInline (E.replacement entities.now) (is_cell_of leaf.now) text.now at) }
{
    if !opens_tail(text, at) {
        return Ok(None);
    }
    tail_target(alloc, leaf, text, at, entities)
}

// The target of an inline link, if an opening parenthesis is at `at`. The function is not inlined: Rattle clears locals on entry, and a
// link takes much room.
#[inline(never)]
fn tail_target<'a, E: EntityLookup>(
    alloc: Global,
    leaf: &LeafText<'a>,
    text: &str,
    at: usize,
    entities: &E,
) -> Result<Option<Target<'a>>, AllocError>
    requires read { IsRead leaf.now }
    requires same { text.now ≡ text_of leaf.now }
    requires place { IsCharBoundary text.now at }
    ensures { IfOk result
        (FindsInline (E.replacement entities.now) (is_cell_of leaf.now) text.now at) }
{
    let is_cell = leaf.is_cell();
    if let Some(source) = leaf.as_source() {
        let found = inline_in(alloc, source, at, is_cell, entities)?;
        return Ok(found);
    }
    match inline_in(alloc, text, at, is_cell, entities)? {
        Some(target) => Ok(Some(own_target(alloc, target)?)),
        None => Ok(None),
    }
}
