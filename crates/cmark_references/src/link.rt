//! The data of a link or an image.

ghost use Rattle.cmark_references.specs.Links.{IsUnknown};

use cmark_values::{CowStr, LinkType};

/// The data of a link or an image (CommonMark 6.3, 6.4).
#[derive(Drop)]
pub struct Link<'a> {
    /// Its written form.
    pub link_type: LinkType,
    /// Its destination.
    pub dest_url: CowStr<'a>,
    /// Its title; empty if it has none.
    pub title: CowStr<'a>,
    /// The label of a reference; empty for others.
    pub id: CowStr<'a>,
}

impl<'a> Link<'a> {
    /// An unknown shortcut without texts: the value at the index of a link that was taken.
    pub fn none() -> Link<'a>
        ensures { IsUnknown result }
    {
        Link {
            link_type: LinkType::ShortcutUnknown,
            dest_url: CowStr::Borrowed(""),
            title: CowStr::Borrowed(""),
            id: CowStr::Borrowed(""),
        }
    }
}
