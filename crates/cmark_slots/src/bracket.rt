//! Opening brackets, and those that may still form a link or an image (CommonMark 6.3 and 6.4).

ghost use Rattle.std.specs.Prelude.{◌≡◌, ◌≤◌, min, true, false, ◌-◌, ◌++◌, ◌∷◌, [], ℕ, List, length, take, OnOk, IfSome};
ghost use Rattle.cmark_slots.specs.Doubled.{DropsAfter, doubles, nearest, touching};
ghost use Rattle.cmark_slots.specs.Slots.{AreBrackets, AreFree, HoldNoLink, IsBracket};
ghost use Rattle.cmark_slots.specs.declared.slot.Slot.{Slot};
ghost use Rattle.cmark_values.specs.Shown.{shown_options};

use bitflags::Flags;
use cmark_values::Options;
use std::alloc::{AllocError, Global};

/// An opening bracket that no closing bracket has taken yet.
#[derive(Clone, Copy)]
pub struct Bracket {
    /// The index of its slot.
    pub slot: usize,
    /// The number of delimiter runs before it.
    pub runs: usize,
    /// The number of quotes before it.
    pub quotes: usize,
    /// Its byte offset in the leaf's text.
    pub start: usize,
    /// The offset after it, where its content begins.
    pub inside: usize,
    /// Whether it opens an image.
    pub is_image: bool,
}

/// The open brackets.
#[derive(Drop)]
pub struct Brackets {
    standing: Vec<Bracket>,
    /// The number of brackets, from the first on, that cannot form a link any more, because that link would contain another.
    inactive_below: usize,
}

impl Brackets {
    pub fn new(alloc: Global) -> Brackets {
        Brackets {
            standing: Vec::new(alloc),
            inactive_below: 0,
        }
    }

    pub fn clear(&mut self)
        ensures standing { self.new.standing.items ≡ [] }
        ensures inactive_below { self.new.inactive_below ≡ 0 }
    {
        self.standing.clear();
        self.inactive_below = 0;
    }

    pub fn push(&mut self, bracket: Bracket) -> Result<(), AllocError>
        ensures brackets { OnOk result
            (self.new.standing.items ≡ self.old.standing.items ++ (bracket ∷ [])) }
        ensures inactive_below { self.new.inactive_below ≡ self.old.inactive_below }
    {
        self.standing.push(bracket)?;
        Ok(())
    }

    /// Removes the nearest bracket, and returns it with whether it can form a link or an image.
    pub fn take(&mut self) -> Option<(Bracket, bool)>
        ensures value { result ≡ nearest self.old }
        ensures others { self.new.standing.items
            ≡ take (length self.old.standing.items - 1) self.old.standing.items }
        ensures inactive_below { self.old.inactive_below ≤ length self.old.standing.items
            → self.new.inactive_below
            ≡ min self.old.inactive_below (length self.new.standing.items) }
        ensures brackets { (text : List ℕ) (at : ℕ) → AreBrackets text at self.old.standing.items
            → AreBrackets text at self.new.standing.items }
        ensures free { (slots : List Slot)
            → AreFree slots self.old.standing.items self.old.inactive_below
            → AreFree slots self.new.standing.items self.new.inactive_below }
        ensures link { (slots : List Slot)
            → AreFree slots self.old.standing.items self.old.inactive_below
            → IfSome result
            (λ taken. taken.1 ≡ true → taken.0.is_image ≡ false → HoldNoLink slots taken.0.slot) }
        ensures bracket { (text : List ℕ) (at : ℕ) → AreBrackets text at self.old.standing.items
            → IfSome result (λ taken. IsBracket text at taken.0) }
    {
        let bracket = self.standing.pop()?;
        let forms = bracket.is_image || self.standing.len() >= self.inactive_below;
        self.inactive_below = self.inactive_below.min(self.standing.len());
        Some((bracket, forms))
    }

    /// The last bracket, if it ends at this offset and no link was formed after it.
    pub fn touching(&self, place: usize) -> Option<Bracket>
        ensures value { result ≡ touching place self.now }
        ensures ends { IfSome result (λ first. first.inside ≡ place) }
        ensures bracket { (text : List ℕ) (at : ℕ) → AreBrackets text at self.now.standing.items
            → IfSome result (IsBracket text at) }
        ensures free { (slots : List Slot)
            → AreFree slots self.now.standing.items self.now.inactive_below
            → IfSome result (λ first. HoldNoLink slots first.slot) }
    {
        let count = self.standing.len();
        if count <= self.inactive_below {
            return None;
        }
        let last = self.standing[count - 1];
        if last.inside == place {
            Some(last)
        } else {
            None
        }
    }

    /// Adds a doubled bracket to these, if the bracket `second` touches the last bracket of `single`. A doubled bracket may open a
    /// wikilink, so `second` has to be no image, and wikilinks have to be enabled.
    pub fn double(
        &mut self,
        single: &Brackets,
        options: Options,
        second: Bracket,
    ) -> Result<(), AllocError>
        ensures inactive_below { self.new.inactive_below ≡ self.old.inactive_below }
        ensures doubled { OnOk result
            (self.new.standing.items
            ≡ doubles (shown_options options) single.now second.is_image second.start second.inside
            self.old.standing.items) }
        ensures brackets { OnOk result
            ((text : List ℕ) (at : ℕ) → AreBrackets text at single.now.standing.items
            → AreBrackets text at self.old.standing.items → IsBracket text at second
            → AreBrackets text at self.new.standing.items) }
        ensures free { OnOk result
            ((slots : List Slot) → AreFree slots single.now.standing.items single.now.inactive_below
            → AreFree slots self.old.standing.items self.old.inactive_below
            → AreFree slots self.new.standing.items self.new.inactive_below) }
    {
        if second.is_image || !options.contains(Options::ENABLE_WIKILINKS) {
            return Ok(());
        }
        if let Some(first) = single.touching(second.start) {
            self.push(Bracket {
                inside: second.inside,
                ..first
            })?;
        }
        Ok(())
    }

    /// Removes all brackets at the end of the list that end after an offset.
    pub fn drop_after(&mut self, place: usize)
        ensures drops { DropsAfter place self.old.standing.items self.new.standing.items }
        ensures inactive_below { self.new.inactive_below
            ≡ min self.old.inactive_below (length self.new.standing.items) }
        ensures brackets { (text : List ℕ) (at : ℕ) → AreBrackets text at self.old.standing.items
            → AreBrackets text at self.new.standing.items }
        ensures free { (slots : List Slot)
            → AreFree slots self.old.standing.items self.old.inactive_below
            → AreFree slots self.new.standing.items self.new.inactive_below }
    {
        let mut count = self.standing.len();
        while 0 < count && place < self.standing[count - 1].inside {
            count -= 1;
        }
        self.standing.truncate(count);
        self.inactive_below = self.inactive_below.min(count);
    }

    /// Takes account of a link that was formed: the open brackets cannot form a link any more.
    pub fn deactivate_all(&mut self)
        ensures standing { self.new.standing ≡ self.old.standing }
        ensures inactive_below { self.new.inactive_below ≡ length self.old.standing.items }
        ensures free { (slots : List Slot)
            → AreFree slots self.new.standing.items self.new.inactive_below }
    {
        self.inactive_below = self.standing.len();
    }
}
