//! The tables that items point into.

ghost use Rattle.std.specs.Prelude.{◌≡◌, ◌<◌, [], length, IfOk, OnOk, OnErr, slice_get, Some, None, List, ℕ};
ghost use Rattle.cmark_references.specs.Definitions.{definition};
ghost use Rattle.cmark_references.specs.Footnotes.{footnote};
ghost use Rattle.cmark_items.specs.Tables.{with_text, with_link, with_alignments, LeavesNoText, LeavesNoLink, without_alignments};

use cmark_references::{FootnoteDefs, Link, RefDefs};
use cmark_values::{Alignment, CowStr, LinkType};
use std::alloc::{AllocError, Global};
use std::marker::Model;
use std::mem;
use std::ops::Index;

/// The index of a text in its table.
#[derive(Clone, Copy, PartialEq, Eq)]
pub struct CowIndex(usize);

/// The index of a link or an image in its table.
#[derive(Clone, Copy, PartialEq, Eq)]
pub struct LinkIndex(usize);

/// The index of a table's alignments in their table.
#[derive(Clone, Copy, PartialEq, Eq)]
pub struct AlignmentIndex(usize);

/// The index, in the table of texts, of the words between the braces of a heading's attributes.
#[derive(Clone, Copy, PartialEq, Eq)]
pub struct HeadingIndex(usize);

/// The tables that the items of a tree point into, and the definitions of links and footnotes.
///
/// An index is valid for the table that returned it. An allocated value stays at its index; taking a value leaves an empty one there.
#[derive(Drop)]
pub struct Allocations<'a> {
    /// The link reference definitions of the text.
    pub refdefs: RefDefs<'a>,
    /// The footnotes that the text defines.
    pub footdefs: FootnoteDefs,
    texts: Vec<CowStr<'a>>,
    links: Vec<Link<'a>>,
    alignments: Vec<Vec<Alignment>>,
    alloc: Global,
}

/// The contents of the tables, each at its index, and the definitions.
impl<'a> Model for Allocations<'a> {
    ghost use Rattle.std.specs.Prelude.{map};
    ghost use Rattle.cmark_items.specs.Tables.{Tables};

    ghost Value = { Tables };

    ghost view = { λ a. record {
      texts = a.texts.items;
      links = a.links.items;
      alignments = map (λ row. row.items) a.alignments.items;
      references = a.refdefs;
      footnotes = a.footdefs;
    } };
}

impl<'a> Allocations<'a> {
    /// Empty tables.
    pub fn new(alloc: Global) -> Allocations<'a>
        ensures texts { result.texts ≡ [] }
        ensures links { result.links ≡ [] }
        ensures alignments { result.alignments ≡ [] }
        ensures references { (folded : List ℕ) → definition result.references folded ≡ None }
        ensures footnotes { (folded : List ℕ) → footnote result.footnotes folded ≡ None }
    {
        Allocations {
            refdefs: RefDefs::new(alloc),
            footdefs: FootnoteDefs::new(alloc),
            texts: Vec::new(alloc),
            links: Vec::new(alloc),
            alignments: Vec::new(alloc),
            alloc,
        }
    }

    /// Tables that have only these definitions and footnotes.
    pub fn with_definitions(
        alloc: Global,
        definitions: RefDefs<'a>,
        footnotes: FootnoteDefs,
    ) -> Allocations<'a>
        ensures { result
            ≡
            record { texts = []; links = []; alignments = []; references = definitions.entry; footnotes = footnotes } }
    {
        Allocations {
            refdefs: definitions,
            footdefs: footnotes,
            texts: Vec::new(alloc),
            links: Vec::new(alloc),
            alignments: Vec::new(alloc),
            alloc,
        }
    }

    /// Keeps a text and returns its index. If memory is refused nothing changes, and the text is dropped.
    pub fn allocate_cow(&mut self, text: CowStr<'a>) -> Result<CowIndex, AllocError>
        ensures index { IfOk result (λ index. index.0 ≡ length self.old.texts) }
        ensures kept { OnOk result (self.new ≡ with_text text.entry self.old) }
        ensures refused { OnErr result (self.new ≡ self.old) }
    {
        let index = self.texts.len();
        self.texts.push(text)?;
        Ok(CowIndex(index))
    }

    /// Keeps the data of a link or an image and returns its index. If memory is refused nothing changes, and the texts are dropped.
    pub fn allocate_link(
        &mut self,
        link_type: LinkType,
        dest_url: CowStr<'a>,
        title: CowStr<'a>,
        id: CowStr<'a>,
    ) -> Result<LinkIndex, AllocError>
        ensures index { IfOk result (λ index. index.0 ≡ length self.old.links) }
        ensures kept { OnOk result
            (self.new
            ≡ with_link
            (record { link_type = link_type; dest_url = dest_url.entry; title = title.entry; id = id.entry })
            self.old) }
        ensures refused { OnErr result (self.new ≡ self.old) }
    {
        let index = self.links.len();
        self.links.push(Link {
            link_type,
            dest_url,
            title,
            id,
        })?;
        Ok(LinkIndex(index))
    }

    /// Keeps a table's alignments and returns their index. If memory is refused nothing changes, and the alignments are dropped.
    pub fn allocate_alignment(
        &mut self,
        alignments: Vec<Alignment>,
    ) -> Result<AlignmentIndex, AllocError>
        ensures index { IfOk result (λ index. index.0 ≡ length self.old.alignments) }
        ensures kept { OnOk result (self.new ≡ with_alignments alignments.items self.old) }
        ensures refused { OnErr result (self.new ≡ self.old) }
    {
        let index = self.alignments.len();
        self.alignments.push(alignments)?;
        Ok(AlignmentIndex(index))
    }

    /// Keeps the words between the braces of a heading's attributes, for `HeadingAttributes::read`, and returns their index. If memory is
    /// refused nothing changes, and the words are dropped.
    pub fn allocate_heading(&mut self, words: CowStr<'a>) -> Result<HeadingIndex, AllocError>
        ensures index { IfOk result (λ index. index.0 ≡ length self.old.texts) }
        ensures kept { OnOk result (self.new ≡ with_text words.entry self.old) }
        ensures refused { OnErr result (self.new ≡ self.old) }
    {
        let index = self.texts.len();
        self.texts.push(words)?;
        Ok(HeadingIndex(index))
    }

    /// Takes a text out and leaves an empty one.
    pub fn take_cow(&mut self, index: CowIndex) -> CowStr<'a>
        requires { index.0 < length self.old.texts }
        ensures value { slice_get self.old.texts index.0 ≡ Some result }
        ensures left { LeavesNoText index.0 self.old self.new }
    {
        mem::replace(&mut self.texts[index.0], CowStr::Borrowed(""))
    }

    /// Takes a link or an image out and leaves an unknown shortcut without texts.
    pub fn take_link(&mut self, index: LinkIndex) -> Link<'a>
        requires { index.0 < length self.old.links }
        ensures value { slice_get self.old.links index.0 ≡ Some result }
        ensures left { LeavesNoLink index.0 self.old self.new }
    {
        mem::replace(&mut self.links[index.0], Link::none())
    }

    /// Takes a table's alignments out and leaves an empty list.
    pub fn take_alignment(&mut self, index: AlignmentIndex) -> Vec<Alignment>
        requires { index.0 < length self.old.alignments }
        ensures value { slice_get self.old.alignments index.0 ≡ Some result.items }
        ensures left { self.new ≡ without_alignments index.0 self.old }
    {
        let none = Vec::new(self.alloc);
        mem::replace(&mut self.alignments[index.0], none)
    }
}

impl<'a> Index<CowIndex> for Allocations<'a> {
    type Output = CowStr<'a>;

    ghost can_index = { λ a index. index.0 < length a.texts };

    ghost index_gives = { λ a index text. slice_get a.texts index.0 ≡ Some text };

    fn index(&self, index: CowIndex) -> &CowStr<'a> {
        &self.texts[index.0]
    }
}

impl<'a> Index<HeadingIndex> for Allocations<'a> {
    type Output = CowStr<'a>;

    ghost can_index = { λ a index. index.0 < length a.texts };

    ghost index_gives = { λ a index words. slice_get a.texts index.0 ≡ Some words };

    fn index(&self, heading: HeadingIndex) -> &CowStr<'a> {
        &self.texts[heading.0]
    }
}

impl<'a> Index<LinkIndex> for Allocations<'a> {
    type Output = Link<'a>;

    ghost can_index = { λ a index. index.0 < length a.links };

    ghost index_gives = { λ a index link. slice_get a.links index.0 ≡ Some link };

    fn index(&self, index: LinkIndex) -> &Link<'a> {
        &self.links[index.0]
    }
}

impl<'a> Index<AlignmentIndex> for Allocations<'a> {
    type Output = Vec<Alignment>;

    ghost can_index = { λ a index. index.0 < length a.alignments };

    ghost index_gives = { λ a index row. slice_get a.alignments index.0 ≡ Some row.items };

    fn index(&self, index: AlignmentIndex) -> &Vec<Alignment> {
        &self.alignments[index.0]
    }
}
