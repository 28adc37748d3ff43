//! The walk over a document's events with the spans of its leaves.

ghost use Rattle.std.specs.Prelude.{◌≡◌, ◌≢◌, ◌<◌, ◌≤◌, true, false, List, [], is_some, length, option_map, IfOk, IfSome, OnErr, OnOk};
ghost use Rattle.cmark_grammar.specs.Event.{Ranged as Shown};
ghost use Rattle.cmark_grammar.specs.Questions.{Exchange};
ghost use Rattle.cmark_grammar.specs.Readers.{Reader as GrammarReader};
ghost use Rattle.cmark_grammar.specs.LeafText.{Leaf};
ghost use Rattle.cmark_grammar.specs.SpanDocuments.{Left, Segment};
ghost use Rattle.cmark_inline.specs.Counted.{total};
ghost use Rattle.cmark_inline_model.specs.LeafExtents.{extents};
ghost use Rattle.cmark_references.specs.Links.{shown_link};
ghost use Rattle.cmark_inline.specs.Resolved.{StopsAs};
ghost use Rattle.cmark_slot_events.specs.Shorts.{IfLong as IfNextLong};
ghost use Rattle.cmark_leaf_text.specs.Stretches.{AreLines};
ghost use Rattle.cmark_block_walk.specs.Walking.{Remains as BlocksRemain, definitions_of as block_definitions, text_of};
ghost use Rattle.cmark_text.specs.Excerpt.{excerpt_bytes};
ghost use Rattle.cmark_text.specs.Ranged.{IsRangedZeroCopy};
ghost use Rattle.cmark_values.specs.Shown.{shown_options};
ghost use Rattle.cmark_event_walk.specs.Plain.{ArePlain};
ghost use Rattle.cmark_event_walk.specs.declared.plain.Lines.TheVariants.{One};
ghost use Rattle.cmark_event_walk.specs.Walking.{ArePlaced, HasAsked, HasPlaces, IsOnlyLine};

use crate::plain::{Lines, plain_lines};
use crate::walk_step::WalkStep;
use cmark_block_walk::{BlockStep, Walk};
use cmark_inline::{BrokenLinkCallback, InlineState, Reader, SpecialBytes, Steps, special_bytes};
use cmark_leaf_text::{LeafLine, LeafText};
use cmark_references::{FootnoteDefs, Link, RefDefs};
use cmark_slot_events::LeafEvents;
use cmark_text::{EntityLookup, Excerpt, Options, Ranged, Short, Step};
use std::alloc::{AllocError, Global};

/// The length in bytes of the longest text that `plain_text` searches for a special byte, if the text has to be one line. A longer line
/// mostly has one, and would be searched twice: here and by the inline pass.
const LONGEST: usize = 128;

/// A walk over the events of a document, with the spans of each leaf instead of its lines.
#[derive(Drop)]
pub struct SpanWalk<'input, 'e, E, F> {
    walk: Walk<'input>,
    /// More than the number of events and leaves that `walk` still returns.
    budget: u128,
    /// Whether the walk is in a leaf.
    in_leaf: bool,
    lines: Vec<LeafLine>,
    leaf: LeafText<'input>,
    inline: InlineState<'input>,
    events: LeafEvents<'input>,
    footnotes: FootnoteDefs,
    entities: &'e E,
    options: Options,
    special: SpecialBytes,
    callback: F,
}

impl<'input, 'e, E: EntityLookup, F: BrokenLinkCallback<'input> + Drop> SpanWalk<'input, 'e, E, F> {
    ghost use Rattle.cmark_event_walk.specs.Walking.{BeforeLeaf, ComesLong, CountsDown, KeepsAround, EntersLeaf, Gives, GivesWalkStep, GivesInLeaf, GivesStart, HasSettings, IfLong, IsLong, IsReadBy, KeepsAfterLeaf, KeepsText, LeavesFewerAfter, LeavesLeaf, NoEndIsNext, ReadsLeaf, ReadsSame, Refuses, Remains, Stands, are_lines, callback_of, definitions_of, events_left, expansion_left_of, footnotes_of, link_to_come, source_of, steps_of};

    /// Returns a walk over the rest of `walk`, which is a walk over the blocks of `text`. `budget` is more than the number of events and
    /// leaves that `walk` still returns. `entities` maps entity names to their characters. `footnotes` are the footnotes that the text
    /// defines; each counts its references. `callback` is asked about references without a definition. `expansion_limit` is the reference
    /// expansion limit, in bytes.
    pub fn new(
        alloc: Global,
        text: &'input str,
        walk: Walk<'input>,
        budget: u128,
        options: Options,
        entities: &'e E,
        footnotes: FootnoteDefs,
        callback: F,
        expansion_limit: usize,
    ) -> SpanWalk<'input, 'e, E, F>
        ensures stands { (left : List Segment) → BlocksRemain walk.entry left
            → text_of walk.entry ≡ text.entry.now → length left < budget
            → extents left ≤ length text.entry.now → Stands result }
        ensures begins { (reader : GrammarReader) (left : List Segment)
            → BlocksRemain walk.entry left → text_of walk.entry ≡ text.entry.now
            → length left < budget → extents left ≤ length text.entry.now → ArePlaced reader left
            → ReadsSame E.replacement reader result
            → IsReadBy E.replacement reader result
            ×
            ((exchanges : List Exchange) (events : List Shown)
            → Left reader left (expansion_left_of result) exchanges events
            → Remains E.replacement reader result exchanges events) }
        ensures reads { (reader : GrammarReader) (left : List Segment) (exchanges : List Exchange)
            (events : List Shown) → BlocksRemain walk.entry left
            → Remains E.replacement reader result exchanges events
            → Left reader left (expansion_left_of result) exchanges events }
        ensures settings { HasSettings result
            (shown_options options) entities.entry.now expansion_limit callback }
        ensures steps { total (steps_of result) ≡ 0 }
        ensures definitions { definitions_of result ≡ block_definitions walk.entry }
        ensures footnotes { footnotes_of result ≡ footnotes }
        ensures source { source_of result ≡ text.entry.now }
    {
        SpanWalk {
            walk,
            budget,
            in_leaf: false,
            lines: Vec::new(alloc),
            leaf: LeafText::new(alloc, text),
            inline: InlineState::with_limit(alloc, expansion_limit),
            events: LeafEvents::new(alloc),
            footnotes,
            entities,
            options,
            special: special_bytes(options),
            callback,
        }
    }

    /// The link reference definitions of the text, which do not change during the walk.
    pub fn definitions(&self) -> &RefDefs<'input>
        ensures { result.now ≡ definitions_of self.now }
    {
        self.walk.definitions()
    }

    /// The allocator of the walk.
    pub fn allocator(&self) -> Global {
        *self.lines.allocator()
    }

    /// How much the searches in the leaves have looked at so far.
    pub fn steps(&self) -> Steps
        ensures { result ≡ steps_of self.now }
    {
        self.inline.steps()
    }

    /// Returns the next event with its range, without an `Event`. An event that owns nothing is consumed. Any other is reported as
    /// `WalkStep::Long` and left for [`take_long`](SpanWalk::take_long). `joins` says whether the events of several plain lines may be
    /// returned at once, as `WalkStep::Lines`. After an error (out of memory) the walk cannot be continued.
    ///
    /// `C` names the caller and has no effect. The step is one large function, which the compiler inlines only if it is called at one place.
    /// With a type for each place, each place has a copy of its own.
    #[inline(always)]
    pub fn step<C>(&mut self, joins: bool) -> Result<WalkStep<'input>, AllocError>
        requires stands { Stands self.old }
        requires ready { F.ready (callback_of self.old) }
        ensures ready { F.ready (callback_of self.new) }
        ensures stands { OnOk result (Stands self.new) }
        ensures given { (reader : GrammarReader) → IsReadBy E.replacement reader self.old
            → IfOk result
            (λ coming. GivesWalkStep F.answers E.replacement reader self.old coming self.new) }
        ensures joins { joins ≡ false → IfOk result (λ coming. are_lines coming ≡ false) }
        ensures long { IfOk result
            (λ coming. IfLong coming (ComesLong E.replacement self.old self.new)) }
        ensures fewer { IfOk result (λ coming. LeavesFewerAfter self.old coming self.new) }
        ensures refused { OnErr result (Refuses F.answers E.replacement self.old self.new) }
        ensures keeps { KeepsText self.old self.new }
    {
        loop {
            let Ok(span) = self.next_in_leaf() else {
                return Err(AllocError);
            };
            match span {
                Step::Short(short, start, end) => return Ok(WalkStep::Span(short, start, end)),
                Step::Long => return Ok(WalkStep::Long),
                Step::Over => {}
            }
            let Ok(met) = self.walk.step(&mut self.lines) else {
                return Err(AllocError);
            };
            match met {
                BlockStep::Short(short, start, end) => {
                    self.budget -= 1;
                    return Ok(WalkStep::Block(short, start, end));
                }
                BlockStep::Leaf { is_cell } => {
                    self.budget -= 1;
                    if let Some((text, start, end, lines)) = self.plain_text(joins) {
                        return match lines {
                            Lines::One => Ok(WalkStep::Span(Short::Text(text), start, end)),
                            Lines::Several => Ok(WalkStep::Lines(Short::Text(text), start, end)),
                        };
                    }
                    self.enter_leaf(is_cell)?;
                }
                BlockStep::Long => return Ok(WalkStep::Long),
                BlockStep::Over => return Ok(WalkStep::Over),
            }
        }
    }

    /// Returns the next event with its range, after [`step`](SpanWalk::step) reported it as long. Asks nothing. After an error
    /// (out of memory) the walk cannot be continued.
    #[inline(always)]
    pub fn take_long(&mut self) -> Result<Ranged<'input>, AllocError>
        requires stands { Stands self.old }
        requires long { IsLong self.old }
        ensures stands { OnOk result (Stands self.new) }
        ensures given { (reader : GrammarReader) → IsReadBy E.replacement reader self.old
            → IfOk result (λ given. Gives F.answers E.replacement reader self.old given self.new) }
        ensures lent { IfOk result (IsRangedZeroCopy (source_of self.old)) }
        ensures fewer { OnOk result (events_left self.new < events_left self.old) }
        ensures ends { OnErr result
            ((reader : GrammarReader) → NoEndIsNext E.replacement reader self.old) }
        ensures callback { callback_of self.new ≡ callback_of self.old }
        ensures keeps { KeepsText self.old self.new }
    {
        if self.in_leaf {
            return self.events.take_long(&self.leaf);
        }
        let Ok(given) = self.walk.take_long() else {
            return Err(AllocError);
        };
        self.budget -= 1;
        Ok(given)
    }

    /// The callback, as the questions so far left it.
    pub fn callback(&self) -> &F
        ensures { result.now ≡ callback_of self.now }
    {
        &self.callback
    }

    /// Returns the link whose start is the next event, if the walk is in a leaf and a link or an autolink is next there. Consumes nothing:
    /// [`pass_link`](SpanWalk::pass_link) consumes the start.
    #[inline(always)]
    pub fn link_ahead(&self) -> Option<&Link<'input>>
        ensures { option_map (λ link. link.now) result ≡ link_to_come self.now }
    {
        if !self.in_leaf {
            return None;
        }
        self.events.link_ahead()
    }

    /// Consumes the start of the link that is next, like `take_long`, but builds no `Event`. After an error (out of memory) the walk cannot be
    /// continued.
    #[inline(always)]
    pub fn pass_link(&mut self) -> Result<(), AllocError>
        requires stands { Stands self.old }
        requires ahead { is_some (link_to_come self.old) ≡ true }
        ensures stands { OnOk result (Stands self.new) }
        ensures given { (reader : GrammarReader) → IsReadBy E.replacement reader self.old
            → OnOk result
            (IfSome (link_to_come self.old)
            (λ link. GivesStart F.answers E.replacement reader self.old (shown_link link)
            self.new)) }
        ensures fewer { OnOk result (events_left self.new < events_left self.old) }
        ensures ends { OnErr result
            ((reader : GrammarReader) → NoEndIsNext E.replacement reader self.old) }
        ensures callback { callback_of self.new ≡ callback_of self.old }
        ensures keeps { KeepsText self.old self.new }
    {
        self.events.pass_link(&self.leaf)
    }

    // Like `step`, but only for the current leaf. The result is `Over` if there is no current leaf or it has no more events; the walk
    // is then in no leaf.
    #[inline(always)]
    fn next_in_leaf(&mut self) -> Result<Step<'input>, AllocError>
        requires { Stands self.old }
        ensures stands { OnOk result (Stands self.new) }
        ensures outside { IfOk result (λ next. LeavesLeaf next self.new) }
        ensures long { IfOk result
            (λ next. IfNextLong next (ComesLong E.replacement self.old self.new)) }
        ensures given { (reader : GrammarReader) → IsReadBy E.replacement reader self.old
            → IfOk result
            (λ next. GivesInLeaf F.answers E.replacement reader self.old next self.new) }
        ensures kept { (reader : GrammarReader)
            → IfOk result (λ next. KeepsAfterLeaf E.replacement reader self.old next self.new) }
        ensures ends { OnErr result
            ((reader : GrammarReader) → NoEndIsNext E.replacement reader self.old) }
        ensures fewer { IfOk result (λ next. CountsDown self.old next self.new) }
        ensures around { KeepsAround self.old self.new }
    {
        if !self.in_leaf {
            return Ok(Step::Over);
        }
        let Ok(next) = self.events.step(&self.leaf) else {
            return Err(AllocError);
        };
        if let Step::Over = next {
            self.in_leaf = false;
            return Ok(Step::Over);
        }
        Ok(next)
    }

    // Returns the text of the leaf whose lines are in `lines`, with its range in the source and its number of lines. It does so only if the
    // lines are adjacent and plain, as in most table cells and in much prose. The text then is a slice of the source. `joins` says whether it
    // may have several lines.
    #[inline(always)]
    fn plain_text(&self, joins: bool) -> Option<(Excerpt<'input>, usize, usize, Lines)>
        requires { AreLines (source_of self.now) 0 self.now.lines.items }
        ensures line { IfSome result
            (λ found. IsOnlyLine (source_of self.now) self.now.lines.items (excerpt_bytes found.0)
            found.1 found.2) }
        ensures plain { IfSome result
            (λ found. ArePlain self.now.special (excerpt_bytes found.0) found.3) }
        ensures joins { joins ≡ false → IfSome result (λ found. found.3 ≡ One) }
    {
        let [line] = self.lines.as_slice() else {
            return None;
        };
        if line.start >= line.content_end {
            return None;
        }
        let size = line.content_end - line.start;
        if !joins && size > LONGEST {
            return None;
        }
        let text = self.leaf.source_at(line.start, line.content_end);
        let ahead = self.leaf.source_ahead(line.start);
        let lines = plain_lines(&self.special, text.as_bytes(), ahead.as_bytes(), joins)?;
        Some((
            Excerpt::new(ahead, size),
            line.start,
            line.content_end,
            lines,
        ))
    }

    // Enters the leaf whose lines are in `lines`. `is_cell` says whether it is a table cell.
    fn enter_leaf(&mut self, is_cell: bool) -> Result<(), AllocError>
        requires before { (leaf : Leaf) × (others : List Segment)
            × BeforeLeaf self.old is_cell leaf others }
        requires ready { F.ready (callback_of self.old) }
        ensures ready { F.ready (callback_of self.new) }
        ensures enters { OnOk result
            ((leaf : Leaf) (others : List Segment) → BeforeLeaf self.old is_cell leaf others
            → EntersLeaf others self.new) }
        ensures reads { OnOk result
            ((reader : GrammarReader) (leaf : Leaf) (others : List Segment)
            → BeforeLeaf self.old is_cell leaf others → HasPlaces reader leaf
            → ReadsSame E.replacement reader self.old
            → ReadsLeaf F.answers E.replacement reader leaf self.old self.new) }
        ensures lines { OnErr result (self.old.lines.items ≢ []) }
        ensures stops { OnErr result
            ((reader : GrammarReader) (leaf : Leaf) (others : List Segment)
            → BeforeLeaf self.old is_cell leaf others → HasPlaces reader leaf
            → ReadsSame E.replacement reader self.old
            → StopsAs F.answers reader leaf (expansion_left_of self.old) (callback_of self.old)
            (callback_of self.new)) }
        ensures asked { HasAsked F.answers (callback_of self.old) (callback_of self.new) }
        ensures budget { self.new.budget ≡ self.old.budget }
        ensures keeps { KeepsText self.old self.new }
    {
        let Ok(()) = self.leaf.read(self.lines.as_slice(), is_cell) else {
            return Err(AllocError);
        };
        let reader = Reader {
            entities: self.entities,
            references: self.walk.definitions(),
            options: self.options,
            special: &self.special,
        };
        let footnotes = &mut self.footnotes;
        let Ok(()) = self
            .inline
            .resolve(&self.leaf, &reader, footnotes, &mut self.callback)
        else {
            return Err(AllocError);
        };
        let inline = &mut self.inline;
        self.events
            .begin_leaf(&mut inline.slots, &mut inline.texts, &mut inline.links);
        self.in_leaf = true;
        Ok(())
    }
}
