//! Quotes, and their characters (this profile's own).

ghost use Rattle.std.specs.Prelude.{◌≡◌, ◌<◌, ◌≤◌, ◌++◌, ◌∷◌, ℕ, List, [], drop, take, get_or, length, map, IsOk, OnOk};
ghost use Rattle.cmark_inline_model.specs.SlotRows.{quoted};
ghost use Rattle.cmark_leaf_text.specs.declared.leaf_text.LeafText.{LeafText};
ghost use Rattle.cmark_values.specs.declared.text.CowStr.{CowStr};
ghost use Rattle.cmark_slots.specs.MarkedSlots.{HaveTexts};
ghost use Rattle.cmark_slots.specs.QuoteSlots.{characters_of, with_characters};
ghost use Rattle.cmark_slots.specs.SlotViews.{shown_slots};
ghost use Rattle.cmark_slots.specs.Slots.{AreSlots, NoNewLink};
ghost use Rattle.cmark_references.specs.declared.link.Link.{Link};
ghost use Rattle.cmark_slots.specs.declared.quote.PlacedQuote.{PlacedQuote};

use crate::slot::{Slot, become_character};
use cmark_emphasis::{Quote, quote_characters};
use std::alloc::{AllocError, Global};

/// A quote and the index of its slot.
#[derive(Clone, Copy)]
pub struct PlacedQuote {
    pub slot: usize,
    pub quote: Quote,
}

/// The quotes of the siblings that are not resolved, and working memory for their characters.
#[derive(Drop)]
pub struct Quotes {
    placed: Vec<PlacedQuote>,
    quotes: Vec<Quote>,
    characters: Vec<char>,
}

impl Quotes {
    pub fn new(alloc: Global) -> Quotes {
        Quotes {
            placed: Vec::new(alloc),
            quotes: Vec::new(alloc),
            characters: Vec::new(alloc),
        }
    }

    pub fn clear(&mut self)
        ensures { self.new.placed.items ≡ [] }
    {
        self.placed.clear();
    }

    /// The number of quotes.
    pub fn len(&self) -> usize
        ensures { result ≡ length self.now.placed.items }
    {
        self.placed.len()
    }

    pub fn push(&mut self, slot: usize, quote: Quote) -> Result<(), AllocError>
        ensures { OnOk result
            (self.new.placed.items
            ≡ self.old.placed.items ++ (record { slot = slot; quote = quote } ∷ [])) }
    {
        self.placed.push(PlacedQuote { slot, quote })?;
        Ok(())
    }

    /// The index of the first quote, from `first` on, whose slot is at or after the index `slot`; the number of quotes if there is none.
    pub fn first_from(&self, first: usize, slot: usize) -> usize
        requires { first ≤ length self.now.placed.items }
        ensures order { first ≤ result }
        ensures within { result ≤ length self.now.placed.items }
        ensures before { (k : ℕ) (d : PlacedQuote) → first ≤ k → k < result
            → (get_or self.now.placed.items k d).slot < slot }
        ensures following { (d : PlacedQuote) → result < length self.now.placed.items
            → slot ≤ (get_or self.now.placed.items result d).slot }
    {
        let mut at = first;
        while at < self.placed.len() && self.placed[at].slot < slot {
            at += 1;
        }
        at
    }

    /// Removes the quotes from the index `first` on.
    pub fn truncate(&mut self, first: usize)
        ensures { self.new.placed.items ≡ take first self.old.placed.items }
    {
        self.placed.truncate(first);
    }

    /// Gives the quotes from the index `first` on their characters, and removes them. They have to be the quotes of one list of siblings,
    /// each a text in a slot.
    #[inline(always)]
    pub fn resolve(&mut self, first: usize, slots: &mut Vec<Slot>) -> Result<(), AllocError>
        requires first { first ≤ length self.old.placed.items }
        requires texts { HaveTexts slots.old.items (drop first self.old.placed.items) }
        ensures value { OnOk result
            (slots.new.items
            ≡ with_characters (drop first self.old.placed.items)
            (characters_of (drop first self.old.placed.items)) slots.old.items) }
        ensures slots { OnOk result
            ((text : List ℕ) (place : ℕ) → AreSlots text place slots.old.items
            → AreSlots text place slots.new.items) }
        ensures length { OnOk result (length slots.new.items ≡ length slots.old.items) }
        ensures links { OnOk result (NoNewLink slots.old.items slots.new.items) }
        ensures quotes { OnOk result
            ((leaf : LeafText) (texts : List CowStr) (links : List Link)
            → shown_slots leaf texts links slots.new.items
            ≡ quoted (map (λ (p : PlacedQuote). p.slot) (drop first self.old.placed.items))
            (characters_of (drop first self.old.placed.items))
            (shown_slots leaf texts links slots.old.items)) }
        ensures placed { OnOk result (self.new.placed.items ≡ take first self.old.placed.items) }
        ensures succeeds { length self.old.placed.items ≤ first → IsOk result }
    {
        if self.placed.len() <= first {
            return Ok(());
        }
        gather(&mut self.quotes, quotes_from(self.placed.as_slice(), first))?;
        quote_characters(&self.quotes, &mut self.characters)?;
        write(
            slots,
            quotes_from(self.placed.as_slice(), first),
            self.characters.as_slice(),
        );
        self.placed.truncate(first);
        Ok(())
    }
}

/// The quotes from the index `first` on.
fn quotes_from(placed: &[PlacedQuote], first: usize) -> &[PlacedQuote]
    requires { first ≤ length placed.now }
    ensures { result.now ≡ drop first placed.entry.now }
{
    &placed[first..]
}

/// Collects the quotes in `quotes`, whose old content is dropped.
fn gather(quotes: &mut Vec<Quote>, placed: &[PlacedQuote]) -> Result<(), AllocError>
    ensures { OnOk result (quotes.new.items ≡ map (λ (p : PlacedQuote). p.quote) placed.now) }
{
    quotes.clear();
    let mut rest = placed;
    while let Some((next, others)) = rest.split_first() {
        quotes.push(next.quote)?;
        rest = others;
    }
    Ok(())
}

/// Writes each character into the slot of its quote.
fn write(slots: &mut Vec<Slot>, placed: &[PlacedQuote], characters: &[char])
    requires texts { HaveTexts slots.old.items placed.now }
    requires characters { length characters.now ≡ length placed.now }
    ensures value { slots.new.items ≡ with_characters placed.now characters.now slots.old.items }
    ensures slots { (text : List ℕ) (place : ℕ) → AreSlots text place slots.old.items
        → AreSlots text place slots.new.items }
    ensures length { length slots.new.items ≡ length slots.old.items }
    ensures links { NoNewLink slots.old.items slots.new.items }
{
    for at in 0..placed.len() {
        become_character(slots, placed[at].slot, characters[at]);
    }
}
