//! Footnote definitions (this profile's own).

ghost use Rattle.std.specs.Prelude.{◌≡◌, ◌↔◌, [], IfOk, IsTrue, OnOk, OnErr, List, ℕ, None, is_some};
ghost use Rattle.std.specs.Option.{option_copied_mut};
ghost use Rattle.cmark_grammar.specs.Labels.{fold};
ghost use Rattle.cmark_values.specs.Labelled.{footnote_key};
ghost use Rattle.cmark_references.specs.Definitions.{first_of, at_label};
ghost use Rattle.cmark_references.specs.Footnotes.{footnote, with_use, Counts, Keeps};

use cmark_values::FootnoteLabel;
use std::alloc::{AllocError, Global};
use std::collections::BTreeMap;
use std::marker::Model;

/// The data of a footnote that is defined.
#[derive(Clone, Copy)]
pub struct FootnoteDef {
    /// The number of references to it that were read; 0 before the text is read for spans.
    pub use_count: usize,
}

impl FootnoteDef {
    /// The definition with one further use.
    fn used(&self) -> FootnoteDef
        ensures { result ≡ with_use self.now }
    {
        FootnoteDef {
            use_count: self.use_count.saturating_add(1),
        }
    }
}

/// The footnotes that a text defines: the first definition of each label. Two labels are equal if they are equal as a `FootnoteLabel`.
#[derive(Drop)]
pub struct FootnoteDefs {
    defs: BTreeMap<FootnoteLabel, FootnoteDef>,
    alloc: Global,
}

/// The definitions, each with its label.
impl Model for FootnoteDefs {
    ghost use Rattle.std.specs.Prelude.{List};
    ghost use Rattle.cmark_values.specs.declared.label.FootnoteLabel.{FootnoteLabel};
    ghost use Rattle.cmark_references.specs.declared.footnotes.FootnoteDef.{FootnoteDef};

    ghost Value = { List (FootnoteLabel × FootnoteDef) };

    ghost view = { λ table. table.defs.entries };
}

impl FootnoteDefs {
    /// An empty table.
    pub fn new(alloc: Global) -> FootnoteDefs
        ensures { (folded : List ℕ) → footnote result folded ≡ None }
    {
        FootnoteDefs {
            defs: BTreeMap::new(alloc),
            alloc,
        }
    }

    /// Whether no footnote is defined.
    pub fn is_empty(&self) -> bool
        ensures { IsTrue result ↔ (self.now ≡ []) }
    {
        self.defs.is_empty()
    }

    /// Whether the label in this text is defined. Fails if there is no memory for the label's normal form.
    pub fn contains(&self, label: &str) -> Result<bool, AllocError>
        ensures { IfOk result (λ found. found ≡ is_some (footnote self.now (fold label.now))) }
    {
        let label = FootnoteLabel::new(self.alloc, label)?;
        Ok(self.defs.contains_key(&label))
    }

    /// The definition of the label in this text, for writing, if there is one. No clause states the effect of a write; for the number of
    /// uses `count_use` has a clause. If there is no memory for the label's normal form it fails, and nothing changes.
    pub fn get_mut(&mut self, label: &str) -> Result<Option<&mut FootnoteDef>, AllocError>
        ensures { IfOk result
            (λ found. option_copied_mut found ≡ footnote self.old (fold label.now)) }
    {
        let label = FootnoteLabel::new(self.alloc, label)?;
        Ok(self.defs.get_mut(&label))
    }

    /// Counts a reference to the footnote of the label in this text, up to the largest `usize`, and returns whether the footnote is
    /// defined. If there is no memory for the label's normal form it fails, and nothing changes.
    pub fn count_use(&mut self, label: &str) -> Result<bool, AllocError>
        ensures found { IfOk result
            (λ found. found ≡ is_some (footnote self.old (fold label.now))) }
        ensures counted { OnOk result (Counts (fold label.now) self.old self.new) }
        ensures refused { OnErr result (Keeps self.old self.new) }
    {
        let label = FootnoteLabel::new(self.alloc, label)?;
        match self.defs.get_mut(&label) {
            Some(def) => {
                *def = def.used();
                Ok(true)
            }
            None => Ok(false),
        }
    }

    /// Adds a definition, unless the label has one already. If memory is refused nothing changes.
    pub fn insert(&mut self, label: FootnoteLabel, def: FootnoteDef) -> Result<(), AllocError>
        ensures first_stays { OnOk result ((folded : List ℕ) → footnote self.new folded
            ≡ first_of (footnote self.old folded) (at_label (footnote_key label) def folded)) }
        ensures refused { OnErr result (Keeps self.old self.new) }
    {
        self.defs.entry(label)?.or_insert(def);
        Ok(())
    }
}
