//! The state of the inline pass.

ghost use Rattle.std.specs.Prelude.{◌≡◌, ℕ, false, List, [], max};
ghost use Rattle.cmark_inline.specs.Counted.{total};
ghost use Rattle.cmark_inline.specs.CursorProgress.{IsCleared};
ghost use Rattle.cmark_inline.specs.Sound.{IsSound};
ghost use Rattle.cmark_inline.specs.Stands.{Stands};

use crate::steps::Steps;
use cmark_references::Link;
use cmark_slots::bracket::Brackets;
use cmark_slots::delimiter::Delimiters;
use cmark_slots::quote::Quotes;
use cmark_slots::slot::Slot;
use cmark_text::CowStr;
use std::alloc::Global;

/// The reference expansion limit of a source that is shorter than this, in bytes of destinations and titles.
pub const LEAST_REFERENCE_EXPANSION_LIMIT: usize = 100_000;

/// The state of the inline pass, with its result for one leaf at a time: slots, texts and links. Each leaf reuses the memory of the one
/// before.
#[derive(Drop)]
pub struct InlineState<'a> {
    pub(crate) alloc: Global,
    /// The slots of the last resolved leaf.
    pub slots: Vec<Slot>,
    pub(crate) brackets: Brackets,
    /// Doubled brackets, in the order of the text. Each is a pair of opening brackets that touch, kept as one bracket.
    pub(crate) doubled: Brackets,
    pub(crate) delimiters: Delimiters,
    pub(crate) quotes: Quotes,
    /// The texts that slots name by their index.
    pub texts: Vec<CowStr<'a>>,
    /// The links that slots name by their index.
    pub links: Vec<Link<'a>>,
    pub(crate) expansion_left: usize,
    pub(crate) label_close: Option<usize>,
    /// The steps of the searches so far.
    pub(crate) steps: Steps,
    /// Whether memory was refused. Then `resolve` always fails.
    pub(crate) failed: bool,
}

impl<'a> InlineState<'a> {
    /// A state for the leaves of a source of `source_len` bytes. Its reference expansion limit is this length, or
    /// `LEAST_REFERENCE_EXPANSION_LIMIT` for a shorter source.
    pub fn new(alloc: Global, source_len: usize) -> InlineState<'a>
        ensures expansion_left { result.expansion_left ≡ max source_len 100000 }
        ensures slots { result.slots.items ≡ [] }
        ensures steps { total result.steps ≡ 0 }
        ensures live { result.failed ≡ false }
    {
        InlineState::with_limit(alloc, source_len.max(LEAST_REFERENCE_EXPANSION_LIMIT))
    }

    /// A state with a reference expansion limit of `limit` bytes of destinations and titles.
    pub fn with_limit(alloc: Global, limit: usize) -> InlineState<'a>
        ensures expansion_left { result.expansion_left ≡ limit }
        ensures slots { result.slots.items ≡ [] }
        ensures steps { total result.steps ≡ 0 }
        ensures live { result.failed ≡ false }
    {
        InlineState {
            alloc,
            slots: Vec::new(alloc),
            brackets: Brackets::new(alloc),
            doubled: Brackets::new(alloc),
            delimiters: Delimiters::new(alloc),
            quotes: Quotes::new(alloc),
            texts: Vec::new(alloc),
            links: Vec::new(alloc),
            expansion_left: limit,
            label_close: None,
            steps: Steps {
                html: 0,
                openers: 0,
                closers: 0,
            },
            failed: false,
        }
    }

    /// The steps that the searches in all leaves so far have taken. A leaf for which memory was refused adds nothing.
    pub fn steps(&self) -> Steps
        ensures { result ≡ self.now.steps }
    {
        self.steps
    }

    // Clears the state for the next leaf. The counted steps and the rest of the reference expansion limit stay.
    pub(crate) fn clear(&mut self)
        ensures stands { (text : List ℕ) → Stands text 0 self.new }
        ensures sound { IsSound self.new }
        ensures slots { self.new.slots.items ≡ [] }
        ensures cleared { IsCleared self.new }
        ensures expansion_left { self.new.expansion_left ≡ self.old.expansion_left }
        ensures steps { self.new.steps ≡ self.old.steps }
    {
        self.slots.clear();
        self.brackets.clear();
        self.doubled.clear();
        self.delimiters.clear();
        self.quotes.clear();
        self.texts.clear();
        self.links.clear();
        self.label_close = None;
    }
}
