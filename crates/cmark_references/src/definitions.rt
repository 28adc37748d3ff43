//! Link reference definitions (CommonMark 4.7).

ghost use Rattle.std.specs.Prelude.{◌≡◌, ◌↔◌, [], IfOk, IsTrue, OnOk, OnErr, List, ℕ, option_copied, None, Some, All};
ghost use Rattle.std.specs.Iterator.{YieldsFirstBy, item_count};
ghost use Rattle.cmark_grammar.specs.Labels.{fold};
ghost use Rattle.cmark_values.specs.Labelled.{link_key};
ghost use Rattle.cmark_references.specs.Definitions.{definition, definitions, entry_of, first_of, at_label, left, reference_at, seen, shown_definition};

use cmark_values::{CowStr, LinkLabel};
use std::alloc::{AllocError, Global};
use std::collections::btree_map::{self, BTreeMap};
use std::marker::Model;
use std::ops::Range;

/// A link reference definition, without its label.
#[derive(Debug, Drop)]
pub struct LinkDef<'a> {
    /// The destination, with escapes and entities resolved.
    pub dest: CowStr<'a>,
    /// The title, with escapes and entities resolved, if there is one.
    pub title: Option<CowStr<'a>>,
    /// The definition's range in the text, in bytes, from its opening bracket up to its last line ending.
    pub span: Range<usize>,
}

/// The link reference definitions of a text: the first definition of each label. Two labels are equal if they are equal as a `LinkLabel`.
#[derive(Drop)]
pub struct RefDefs<'a> {
    defs: BTreeMap<LinkLabel, LinkDef<'a>>,
    alloc: Global,
}

/// The definitions, each with its label.
impl<'a> Model for RefDefs<'a> {
    ghost use Rattle.std.specs.Prelude.{List};
    ghost use Rattle.cmark_values.specs.declared.label.LinkLabel.{LinkLabel};
    ghost use Rattle.cmark_references.specs.declared.definitions.LinkDef.{LinkDef};

    ghost Value = { List (LinkLabel × LinkDef) };

    ghost view = { λ table. table.defs.entries };
}

impl<'a> RefDefs<'a> {
    /// An empty table.
    pub fn new(alloc: Global) -> RefDefs<'a>
        ensures { (folded : List ℕ) → definition result folded ≡ None }
    {
        RefDefs {
            defs: BTreeMap::new(alloc),
            alloc,
        }
    }

    /// The definition of the label in this text, if there is one. Fails if there is no memory for the label's normal form.
    pub fn get(&self, label: &str) -> Result<Option<&LinkDef<'a>>, AllocError>
        ensures { IfOk result
            (λ found. option_copied found ≡ definition self.now (fold label.now)) }
    {
        let label = LinkLabel::new(self.alloc, label)?;
        Ok(self.defs.get(&label))
    }

    /// The definition of this label.
    pub fn get_label(&self, label: &LinkLabel) -> Option<&LinkDef<'a>>
        ensures { option_copied result ≡ definition self.now (link_key label.now) }
    {
        self.defs.get(label)
    }

    /// Whether no label has a definition.
    pub fn is_empty(&self) -> bool
        ensures { IsTrue result ↔ (self.now ≡ []) }
    {
        self.defs.is_empty()
    }

    /// Adds a definition, unless the label has one already. The spelling of a label is that of its first definition. If memory is refused
    /// nothing changes, and the definition is dropped.
    pub fn insert(&mut self, label: LinkLabel, def: LinkDef<'a>) -> Result<(), AllocError>
        ensures first_stays { OnOk result ((folded : List ℕ) → definition self.new folded
            ≡ first_of (definition self.old folded) (at_label (link_key label) def.entry folded)) }
        ensures spelled { OnOk result
            ((folded : List ℕ)
            → entry_of self.new folded
            ≡ first_of (entry_of self.old folded)
            (at_label (link_key label) (label, def.entry) folded)) }
        ensures refused { OnErr result (self.new ≡ self.old) }
    {
        self.defs.entry(label)?.or_insert(def);
        Ok(())
    }

    /// A copy of the table, with its spelling of each label. Fails only if memory is refused.
    pub fn clone(&self, alloc: Global) -> Result<RefDefs<'a>, AllocError>
        ensures { IfOk result
            (λ copy. (folded : List ℕ) → reference_at copy folded ≡ reference_at self.now folded) }
    {
        let mut copy = RefDefs::new(alloc);
        let mut entries = self.defs.iter();
        while let Some((label, def)) = entries.next() {
            let label = label.clone(alloc)?;
            let def = def.clone(alloc)?;
            copy.insert(label, def)?;
        }
        Ok(copy)
    }

    /// All definitions, each with the normal form of its label in the spelling of its first definition. The order is unspecified.
    pub fn iter(&self) -> RefDefsIter<'_, 'a>
        ensures all { left result ≡ definitions self.now }
        ensures found { All (λ e. entry_of self.now (link_key e.0) ≡ Some e) self.now }
    {
        RefDefsIter {
            entries: self.defs.iter(),
        }
    }
}

impl<'a> LinkDef<'a> {
    /// A copy of the definition. Fails only if memory is refused.
    pub fn clone(&self, alloc: Global) -> Result<LinkDef<'a>, AllocError>
        ensures { IfOk result (λ copy. shown_definition copy ≡ shown_definition self.now) }
    {
        let title = match &self.title {
            Some(title) => Some(title.clone(alloc)?),
            None => None,
        };
        Ok(LinkDef {
            dest: self.dest.clone(alloc)?,
            title,
            span: self.span.start..self.span.end,
        })
    }

    /// This definition in a value that borrows nothing. Fails only if memory is refused.
    pub fn into_static(self, alloc: Global) -> Result<LinkDef<'static>, AllocError>
        ensures { IfOk result (λ made. shown_definition made ≡ shown_definition self.entry) }
    {
        let LinkDef { dest, title, span } = self;
        let title = match title {
            Some(title) => Some(title.into_static(alloc)?),
            None => None,
        };
        let dest = dest.into_static(alloc)?;
        Ok(LinkDef { dest, title, span })
    }
}

/// An iterator over the definitions of a text: the label's normal form, and the definition.
#[derive(Drop)]
pub struct RefDefsIter<'s, 'a> {
    entries: btree_map::Iter<'s, LinkLabel, LinkDef<'a>>,
}

impl<'s, 'a> Iterator for RefDefsIter<'s, 'a> {
    type Item = (&'s str, &'s LinkDef<'a>);

    ghost next_gives = { YieldsFirstBy seen left };

    ghost remaining = { item_count left };

    fn next(&mut self) -> Option<(&'s str, &'s LinkDef<'a>)> {
        let Some(entry) = self.entries.next() else {
            return None;
        };
        let (label, def) = entry;
        Some((label.as_str(), def))
    }
}
