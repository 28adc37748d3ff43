//! The parser: iterators over the events of a text's document.

ghost use Rattle.std.specs.Prelude.{◌≡◌, ◌*◌, ◌≤◌, length, true, false, None, Some, IfOk, is_some, option_copied, option_map};
ghost use Rattle.std.specs.Iterator.{at_most};
ghost use Rattle.std.specs.Option.{ForSome};
ghost use Rattle.cmark_grammar.specs.Options.{no_options};
ghost use Rattle.cmark_values.specs.Shown.{shown_options};
ghost use Rattle.cmark_inline.specs.Counted.{total};
ghost use Rattle.cmark_event_walk.specs.Walking.{IfLong, are_lines};
ghost use Rattle.cmark_parser.specs.Parsing.{is_last};

use crate::event::ranged_event;
use bitflags::Flags;
use cmark_block_walk::Walk;
use cmark_blocks::{FirstPass, run_first_pass};
use cmark_event_walk::{ForItems, ForShorts, OptionalCallback, SpanWalk, WalkStep};
use cmark_inline::{
    BrokenLinkCallback, DefaultBrokenLinkCallback, LEAST_REFERENCE_EXPANSION_LIMIT, Steps,
};
use cmark_references::{FootnoteDefs, Link, RefDefs};
use cmark_text::{EntityLookup, Event, Options, Ranged, Step};
use std::alloc::{AllocError, Global};
use std::mem;
use std::ops::Range;

/// An iterator over the events of a text's document, in the order of the text.
///
/// Each item is an event, or one error if memory is refused. After the error, and after `None`, `next` returns only `None`.
///
/// ```text
/// for event in Parser::new(alloc, "hello world", &BasicEntities)? {
///     let event = event?;
/// }
/// ```
#[derive(Drop)]
pub struct Parser<'input, E, F = DefaultBrokenLinkCallback> {
    pub(crate) spans: SpanWalk<'input, 'input, E, OptionalCallback<F>>,
    /// Whether the walk is over, so that no item is returned any more.
    pub(crate) is_over: bool,
}

/// An upper bound of the events and leaves of blocks for each byte of a text. It is twelve, and three more for each table cell that may be
/// filled in. A table is at least one byte, and at most 262,144 of its cells are filled in.
pub(crate) const EVENTS_A_BYTE: u128 = 786_444;

impl<'input, E: EntityLookup> Parser<'input, E> {
    ghost use Rattle.cmark_parser.specs.Parsing.{Reads, Defines, DefinesFootnotes, CanGo, callback_of, text_of};

    /// Returns a parser of `text`, without extensions. `entities` maps entity names to their characters. Fails only if memory is refused.
    pub fn new(
        alloc: Global,
        text: &'input str,
        entities: &'input E,
    ) -> Result<Parser<'input, E>, AllocError>
        ensures text { IfOk result (λ parser. text_of parser ≡ text.entry.now) }
        ensures reads { IfOk result
            (Reads E.replacement text.entry.now no_options (E.replacement entities.entry.now)) }
        ensures definitions { IfOk result
            (Defines text.entry.now no_options (E.replacement entities.entry.now)) }
        ensures footnotes { IfOk result
            (DefinesFootnotes text.entry.now no_options (E.replacement entities.entry.now)) }
        ensures callback { IfOk result (λ parser. callback_of parser ≡ None) }
        ensures goes { IfOk result (CanGo E.replacement) }
    {
        Parser::new_ext(alloc, text, Options::empty(), entities)
    }

    /// Returns a parser of `text` with these options. An option that is not set changes nothing. `entities` maps entity names to their
    /// characters. Fails only if memory is refused.
    pub fn new_ext(
        alloc: Global,
        text: &'input str,
        options: Options,
        entities: &'input E,
    ) -> Result<Parser<'input, E>, AllocError>
        ensures text { IfOk result (λ parser. text_of parser ≡ text.entry.now) }
        ensures reads { IfOk result (Reads E.replacement text.entry.now
            (shown_options options) (E.replacement entities.entry.now)) }
        ensures definitions { IfOk result (Defines text.entry.now
            (shown_options options) (E.replacement entities.entry.now)) }
        ensures footnotes { IfOk result (DefinesFootnotes text.entry.now
            (shown_options options) (E.replacement entities.entry.now)) }
        ensures callback { IfOk result (λ parser. callback_of parser ≡ None) }
        ensures goes { IfOk result (CanGo E.replacement) }
    {
        Parser::new_with_broken_link_callback(alloc, text, options, entities, None)
    }
}

impl<'input, E: EntityLookup, F: BrokenLinkCallback<'input> + Drop> Parser<'input, E, F> {
    ghost use Rattle.cmark_parser.specs.Parsing.{Reads, Defines, DefinesFootnotes, CanGo, CanGoRanged, ComesLong, GivesOrErr, GivesStartOrErr, GivesStep, IsLong, IsReady, ReadsWithin, callback_of, definitions, link_to_come, steps_of, text_of, walk_of};

    /// Returns a parser of `text` with these options. If there is a callback, it is asked about each reference without a definition, while
    /// events are returned. `entities` maps entity names to their characters. Fails only if memory is refused.
    pub fn new_with_broken_link_callback(
        alloc: Global,
        text: &'input str,
        options: Options,
        entities: &'input E,
        callback: Option<F>,
    ) -> Result<Parser<'input, E, F>, AllocError>
        requires ready { ForSome callback F.ready }
        ensures ready { IfOk result (IsReady F.ready) }
        ensures text { IfOk result (λ parser. text_of parser ≡ text.entry.now) }
        ensures reads { IfOk result (Reads E.replacement text.entry.now
            (shown_options options) (E.replacement entities.entry.now)) }
        ensures definitions { IfOk result (Defines text.entry.now
            (shown_options options) (E.replacement entities.entry.now)) }
        ensures footnotes { IfOk result (DefinesFootnotes text.entry.now
            (shown_options options) (E.replacement entities.entry.now)) }
        ensures callback { IfOk result (λ parser. callback_of parser ≡ callback) }
        ensures goes { IfOk result (CanGo E.replacement) }
    {
        let limit = text.len().max(LEAST_REFERENCE_EXPANSION_LIMIT);
        Parser::new_with_expansion_limit(alloc, text, options, entities, callback, limit)
    }

    /// Returns a parser with a reference expansion limit of the caller. Once the destinations and titles of references total `limit` bytes,
    /// no definition is looked up, and the callback is not asked. Fails only if memory is refused.
    // It is apart from its caller: inlined into the function that writes HTML, the loop over lines takes more instructions.
    #[inline(never)]
    pub fn new_with_expansion_limit(
        alloc: Global,
        text: &'input str,
        options: Options,
        entities: &'input E,
        callback: Option<F>,
        limit: usize,
    ) -> Result<Parser<'input, E, F>, AllocError>
        requires ready { ForSome callback F.ready }
        ensures ready { IfOk result (IsReady F.ready) }
        ensures text { IfOk result (λ parser. text_of parser ≡ text.entry.now) }
        ensures reads { IfOk result (ReadsWithin E.replacement limit text.entry.now
            (shown_options options) (E.replacement entities.entry.now)) }
        ensures definitions { IfOk result (Defines text.entry.now
            (shown_options options) (E.replacement entities.entry.now)) }
        ensures footnotes { IfOk result (DefinesFootnotes text.entry.now
            (shown_options options) (E.replacement entities.entry.now)) }
        ensures callback { IfOk result (λ parser. callback_of parser ≡ callback) }
        ensures goes { IfOk result (CanGo E.replacement) }
    {
        let FirstPass {
            tree,
            mut allocations,
        } = run_first_pass(alloc, text, options, entities)?;
        let none = FootnoteDefs::new(alloc);
        let footnotes = mem::replace(&mut allocations.footdefs, none);
        let budget = text.len() as u128 * EVENTS_A_BYTE + 1;
        let walk = Walk::new(alloc, text, tree, allocations);
        let callback = OptionalCallback { callback };
        Ok(Parser {
            spans: SpanWalk::new(
                alloc, text, walk, budget, options, entities, footnotes, callback, limit,
            ),
            is_over: false,
        })
    }

    /// The link reference definitions of the text, the first one for each label (CommonMark 4.7). They do not change during the walk.
    pub fn reference_definitions(&self) -> &RefDefs<'input>
        ensures { result.now ≡ definitions self.now }
    {
        self.spans.definitions()
    }

    /// The callback, as the questions so far left it, or `None` if there is no callback.
    pub fn callback(&self) -> Option<&F>
        ensures { option_copied result ≡ callback_of self.now }
    {
        self.spans.callback().callback.as_ref()
    }

    /// How much the searches of the spans have looked at so far: at most 128 steps for each byte of the text.
    pub fn steps(&self) -> Steps
        ensures steps { result ≡ steps_of self.now }
        ensures counted { CanGo E.replacement self.now
            → total result ≤ 128 * length (text_of self.now) }
    {
        self.spans.steps()
    }

    /// Returns the rest of this walk as an iterator over events with their ranges.
    pub fn into_offset_iter(self) -> OffsetIter<'input, E, F>
        ensures walk { walk_of result ≡ self.entry }
        ensures goes { CanGo E.replacement self.entry → CanGoRanged E.replacement result }
    {
        OffsetIter { parser: self }
    }

    // Returns the next event with its range, without an `Event`. An event that owns nothing is consumed. Any other is reported as
    // `WalkStep::Long` and left for `take_long`. `joins` says whether the events of several plain lines may be returned at once, as
    // `WalkStep::Lines`. `C` names the caller. After an error (out of memory) the walk is over.
    #[inline(always)]
    pub(crate) fn step<C>(&mut self, joins: bool) -> Result<WalkStep<'input>, AllocError>
        requires goes { CanGo E.replacement self.old }
        requires ready { IsReady F.ready self.old }
        ensures gives { GivesOrErr F.answers E.replacement self.old result self.new }
        ensures joins { joins ≡ false → IfOk result (λ coming. are_lines coming ≡ false) }
        ensures long { IfOk result
            (λ coming. IfLong coming (ComesLong E.replacement self.old self.new)) }
        ensures ready { IsReady F.ready self.new }
    {
        if !self.is_over {
            let given = self.spans.step::<C>(joins);
            if is_last(&given) {
                self.is_over = true;
            }
            return given;
        }
        Ok(WalkStep::Over)
    }

    // Returns the link whose start is the next event, if a link is next. Consumes nothing.
    #[inline(always)]
    pub(crate) fn link_ahead(&self) -> Option<&Link<'input>>
        ensures { option_map (λ link. link.now) result ≡ link_to_come self.now }
    {
        match self.is_over {
            true => None,
            false => self.spans.link_ahead(),
        }
    }

    // Consumes the start of the link that is next, like `next`, but builds no `Event`. After an error (out of memory) the walk is over.
    #[inline(always)]
    pub(crate) fn pass_link(&mut self) -> Result<(), AllocError>
        requires goes { CanGo E.replacement self.old }
        requires ahead { is_some (link_to_come self.old) ≡ true }
        ensures gives { GivesStartOrErr F.answers E.replacement self.old result self.new }
        ensures callback { callback_of self.new ≡ callback_of self.old }
    {
        match self.spans.pass_link() {
            Ok(()) => Ok(()),
            Err(error) => {
                self.is_over = true;
                Err(error)
            }
        }
    }

    // Returns the next event with its range, after `step` reported it as long. After an error (out of memory) the walk is over.
    #[inline(always)]
    pub(crate) fn take_long(&mut self) -> Result<Ranged<'input>, AllocError>
        requires goes { CanGo E.replacement self.old }
        requires long { IsLong self.old }
        ensures gives { GivesStep F.answers E.replacement self.old (Some result) self.new }
        ensures callback { callback_of self.new ≡ callback_of self.old }
    {
        let given = self.spans.take_long();
        self.is_over = given.is_err();
        given
    }

    // Returns the next event with its range. An error (out of memory) is the last item.
    #[inline(always)]
    pub(crate) fn advance(&mut self) -> Option<Result<Ranged<'input>, AllocError>>
        requires goes { CanGo E.replacement self.old }
        requires ready { IsReady F.ready self.old }
        ensures gives { GivesStep F.answers E.replacement self.old result self.new }
        ensures ready { IsReady F.ready self.new }
    {
        match self.step::<ForItems>(false) {
            Ok(WalkStep::Span(short, start, end)) => {
                Some(Ok(ranged_event(self.spans.allocator(), short, start, end)))
            }
            Ok(WalkStep::Block(short, start, end)) => {
                Some(Ok(ranged_event(self.spans.allocator(), short, start, end)))
            }
            Ok(WalkStep::Lines(_, _, _)) => unreachable!(),
            Ok(WalkStep::Long) => Some(self.take_long()),
            Ok(WalkStep::Over) => None,
            Err(error) => Some(Err(error)),
        }
    }
}

// Whether the walk is over after this result: no event is left, or memory was refused.
#[inline(always)]
fn is_last(given: &Result<WalkStep<'_>, AllocError>) -> bool
    ensures { result ≡ is_last given.now }
{
    match given {
        Ok(
            WalkStep::Span(_, _, _)
            | WalkStep::Block(_, _, _)
            | WalkStep::Lines(_, _, _)
            | WalkStep::Long,
        ) => false,
        Ok(WalkStep::Over) | Err(_) => true,
    }
}

impl<'input, E: EntityLookup, F: BrokenLinkCallback<'input> + Drop> Iterator
    for Parser<'input, E, F> {
    ghost use Rattle.cmark_parser.specs.Parsing.{CanGo, Gives, IsReady, events_left};

    type Item = Result<Event<'input>, AllocError>;

    ghost can_next = { λ parser. CanGo E.replacement parser × IsReady F.ready parser };

    ghost next_gives = { Gives F.answers E.replacement };

    ghost remaining = { λ parser. at_most (events_left parser) };

    #[inline(always)]
    fn next(&mut self) -> Option<Result<Event<'input>, AllocError>> {
        match self.advance() {
            Some(Ok(given)) => Some(Ok(given.event)),
            Some(Err(error)) => Some(Err(error)),
            None => None,
        }
    }

    fn size_hint(&self) -> (usize, Option<usize>) {
        (0, None)
    }
}

/// An iterator over the events of a text's document, each with its range in byte offsets. The range is the bytes of the text from which the
/// event comes, up to its end, exclusive. A start and its end both have the range of the whole element.
#[derive(Drop)]
pub struct OffsetIter<'input, E, F = DefaultBrokenLinkCallback> {
    parser: Parser<'input, E, F>,
}

impl<'input, E: EntityLookup, F: BrokenLinkCallback<'input> + Drop> OffsetIter<'input, E, F> {
    ghost use Rattle.cmark_parser.specs.Parsing.{CanGoRanged, GivesNextOrErr, GivesStep, IfNextLong, IsRangedLong, IsRangedReady, callback_of, ranged_definitions, ranged_steps, ranged_text, walk_of};

    /// The link reference definitions of the text, as [`Parser::reference_definitions`] returns them.
    pub fn reference_definitions(&self) -> &RefDefs<'input>
        ensures { result.now ≡ ranged_definitions self.now }
    {
        self.parser.reference_definitions()
    }

    /// The callback, as [`Parser::callback`] returns it.
    pub fn callback(&self) -> Option<&F>
        ensures { option_copied result ≡ callback_of (walk_of self.now) }
    {
        self.parser.callback()
    }

    /// The next event with its range, without an `Event`. An event that owns nothing is returned and consumed. Any other is reported as
    /// `Step::Long` and left for [`take_long`](OffsetIter::take_long). If memory is refused, nothing is returned any more.
    #[inline(always)]
    pub fn step(&mut self) -> Result<Step<'input>, AllocError>
        requires goes { CanGoRanged E.replacement self.old }
        requires ready { IsRangedReady F.ready self.old }
        ensures gives { GivesNextOrErr F.answers E.replacement
            (walk_of self.old) result (walk_of self.new) }
        ensures long { IfOk result (λ next. IfNextLong next (IsRangedLong self.new)) }
        ensures ready { IsRangedReady F.ready self.new }
    {
        match self.parser.step::<ForShorts>(false)? {
            WalkStep::Span(short, start, end) => Ok(Step::Short(short, start, end)),
            WalkStep::Block(short, start, end) => Ok(Step::Short(short, start, end)),
            WalkStep::Lines(_, _, _) => unreachable!(),
            WalkStep::Long => Ok(Step::Long),
            WalkStep::Over => Ok(Step::Over),
        }
    }

    /// The next event with its range, after [`step`](OffsetIter::step) reported it as long. If memory is refused, nothing is
    /// returned any more.
    #[inline(always)]
    pub fn take_long(&mut self) -> Result<Ranged<'input>, AllocError>
        requires goes { CanGoRanged E.replacement self.old }
        requires ready { IsRangedReady F.ready self.old }
        requires long { IsRangedLong self.old }
        ensures gives { GivesStep F.answers E.replacement
            (walk_of self.old) (Some result) (walk_of self.new) }
        ensures ready { IsRangedReady F.ready self.new }
    {
        self.parser.take_long()
    }

    /// How much the searches of the spans have looked at so far, as [`Parser::steps`] returns it.
    pub fn steps(&self) -> Steps
        ensures steps { result ≡ ranged_steps self.now }
        ensures counted { CanGoRanged E.replacement self.now
            → total result ≤ 128 * length (ranged_text self.now) }
    {
        self.parser.steps()
    }
}

impl<'input, E: EntityLookup, F: BrokenLinkCallback<'input> + Drop> Iterator
    for OffsetIter<'input, E, F> {
    ghost use Rattle.cmark_parser.specs.Parsing.{CanGoRanged, GivesRanged, IsRangedReady, ranged_left};

    type Item = Result<(Event<'input>, Range<usize>), AllocError>;

    ghost can_next = { λ iter. CanGoRanged E.replacement iter × IsRangedReady F.ready iter };

    ghost next_gives = { GivesRanged F.answers E.replacement };

    ghost remaining = { λ iter. at_most (ranged_left iter) };

    #[inline(always)]
    fn next(&mut self) -> Option<Result<(Event<'input>, Range<usize>), AllocError>> {
        match self.parser.advance() {
            Some(Ok(given)) => Some(Ok((given.event, given.range))),
            Some(Err(error)) => Some(Err(error)),
            None => None,
        }
    }

    fn size_hint(&self) -> (usize, Option<usize>) {
        (0, None)
    }
}
