//! The numbers of footnotes.

ghost use Rattle.std.specs.Prelude.{◌<◌, length, All};
ghost use Rattle.std.specs.BTreeMap.{values};
ghost use Rattle.std.specs.Cow.{cow_str_bytes};
ghost use Rattle.std.proofs.Props.{props};
ghost use Rattle.cmark_html.specs.Names.{IsNumbered};

use cmark_text::CowStr;
use std::alloc::{AllocError, Global};
use std::borrow;
use std::collections::BTreeMap;

/// The names of the footnotes that were numbered, each with its number, counted from 0.
///
/// The names are kept in the order of their bytes. So no choice of names makes a look-up longer than the logarithm of their number, as it
/// could in a hash table.
#[derive(Drop)]
pub struct FootnoteNames<'a> {
    numbers: BTreeMap<borrow::CowStr<'a>, usize>,
    alloc: Global,
    ghost numbered: { IsNumbered cow_str_bytes numbers } by { Prim.hlevel props },
    ghost below: { All (λ n. n < length numbers.entries) (values numbers) } by { Prim.hlevel props },
}

impl<'a> FootnoteNames<'a> {
    ghost use Rattle.std.specs.Prelude.{◌≡◌, ◌↔◌, [], IsTrue, OnOk};
    ghost use Rattle.cmark_grammar.specs.Html.{footnote_number, named};
    ghost use Rattle.cmark_values.specs.Shown.{text_bytes};
    ghost use Rattle.cmark_html.specs.Writer.{shown_names};

    /// A list without names.
    pub fn new(alloc: Global) -> FootnoteNames<'a>
        ensures { shown_names result ≡ [] }
    {
        FootnoteNames {
            numbers: BTreeMap::new(alloc),
            alloc,
        }
    }

    /// Whether no footnote has a number.
    pub fn is_empty(&self) -> bool
        ensures { IsTrue result ↔ (shown_names self.now ≡ []) }
    {
        self.numbers.is_empty()
    }

    /// The number of a footnote, counted from 1. A name without a number gets the next one.
    pub fn number(&self, name: &CowStr<'a>) -> usize
        ensures { result ≡ footnote_number (shown_names self.now) (text_bytes name.now) }
    {
        let count = self.numbers.len();
        match self.numbers.get(name.as_str()) {
            Some(place) => *place + 1,
            None => count + 1,
        }
    }

    /// Gives the name the next number, if it has none.
    pub fn add(&mut self, name: CowStr<'a>) -> Result<(), AllocError>
        ensures { OnOk result
            (shown_names self.new ≡ named (shown_names self.old) (text_bytes name.entry)) }
    {
        if self.numbers.contains_key(name.as_str()) {
            drop(name);
            return Ok(());
        }
        let key = name.into_cow(self.alloc)?;
        let place = self.numbers.len();
        self.numbers.insert(key, place)?;
        Ok(())
    }
}
