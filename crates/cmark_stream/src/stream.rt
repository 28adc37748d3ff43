//! A text that grows at its end, with its HTML.

use crate::bytes::{joined, whole_characters};
use crate::fault::StreamFault;
use crate::rest::{Rest, read_from};
use arrayvec::ArrayVec;
use cmark_parser::{Filtering, Parser, parse_rest};
use cmark_references::{FootnoteDefs, RefDefs};
use cmark_text::{EntityLookup, Options};
use std::alloc::{AllocError, Global};

/// What a refresh did with the settled HTML.
#[derive(Clone, Copy)]
pub enum Change {
    /// The settled HTML begins with the settled HTML of the last refresh, so a renderer appends the rest of it.
    Grown,
    /// Nothing is settled any more: the text defines a link or a footnote, so that earlier blocks may have changed.
    Anew,
}

/// A text that grows at its end, with the HTML of all of it. It is for a text that arrives in parts, such as the output of a model.
///
/// The HTML is in two strings. `settled` is the HTML of the blocks that no further text changes, as long as the text defines neither a link
/// nor a footnote. `tail` is the HTML of the other blocks. After a successful `refresh`, `settled` followed by `tail` is the HTML of the
/// whole text.
///
/// A refresh reads the blocks that were not settled, so it takes time in proportion to the last blocks, and not to the text. The whole text
/// is read at each refresh in these cases:
///
/// - The text defines a link or a footnote: any earlier block may refer to it.
/// - A line may begin metadata, and its end is not in the text: if it comes, all lines up to it are metadata.
/// - The text is one block: a list, a table, a code block or a paragraph without end.
///
/// `is_due` says when a refresh is worth it.
///
/// A chunk is a text or bytes. Bytes may end inside a character, and the next bytes continue it. Until then its first bytes are kept apart from
/// the text.
///
/// ```text
/// let mut stream = Stream::new(alloc, Options::GITHUB, &BasicEntities, 100_000);
/// stream.push("# Bread\n\nFlour\nand *wa")?;
/// stream.refresh()?;
/// stream.settled()    // "<h1>Bread</h1>\n"
/// stream.tail()       // "<p>Flour\nand *wa</p>\n"
/// ```
#[derive(Drop)]
pub struct Stream<'e, E> {
    text: String,
    /// The first bytes of a character, at the end of what was pushed.
    begun: ArrayVec<u8, 3>,
    options: Options,
    entities: &'e E,
    /// The reference expansion limit, in bytes.
    limit: usize,
    /// For safe HTML: the further schemes that addresses may have.
    schemes: Option<String>,
    /// The HTML of the blocks before `cut`.
    settled: String,
    /// The HTML of the rest of the text, as it was at the last refresh.
    tail: String,
    /// A byte offset: the beginning of the text or a settled cut.
    cut: usize,
    /// How many bytes the text had at the last successful refresh.
    read: usize,
}

impl<'e, E: EntityLookup> Stream<'e, E> {
    ghost use Rattle.std.specs.Prelude.{◌≡◌, ◌≢◌, ◌++◌, ◌↔◌, ℕ, List, [], length, option_map, string_bytes, IfOk, IsErrOf, IsTrue, None, OnErr, OnOk, Some};
    ghost use Rattle.cmark_grammar.specs.Headline.{IsHtmlWithin};
    ghost use Rattle.cmark_parser.specs.Filters.{filtered_by};
    ghost use Rattle.cmark_parser.specs.Parsing.{CanGo, Defines, DefinesFootnotes, ReadsWithin, callback_of, text_of as parsed_text};
    ghost use Rattle.cmark_parser.specs.Tails.{ReadsRest};
    ghost use Rattle.cmark_safe.specs.SafeHtml.{IsSafe};
    ghost use Rattle.cmark_values.specs.Shown.{shown_options};
    ghost use Rattle.cmark_stream.specs.Chunks.{IsNeverUtf8};
    ghost use Rattle.cmark_stream.specs.Streams.{Appends, Begins, Completes, IsDue, IsRest, IsShown, IsStream, KeepsHtml, KeepsText, Refreshed, Refreshes, Tells, begun_of, bytes_of, filter_of, lookup_of, options_of, schemes_of, settled_of, tail_of, text_of};
    ghost use Rattle.cmark_stream.specs.declared.fault.StreamFault.TheVariants.{NotUtf8};

    /// The empty text, with the options with which it is read. `entities` maps entity names to their characters. `limit` is the reference
    /// expansion limit, in bytes: once the destinations and titles of references total `limit` bytes, no definition is looked up.
    pub fn new(alloc: Global, options: Options, entities: &'e E, limit: usize) -> Stream<'e, E>
        ensures { Begins E.replacement result
            (shown_options options) (E.replacement entities.entry.now) limit None }
    {
        Stream::empty(alloc, options, entities, limit, None)
    }

    /// The empty text, whose HTML is safe to show, also if the text comes from a stranger, as that of `to_safe_html` is. `further` lists further
    /// schemes for addresses, with white space between them. The other parameters are those of `new`. Fails only if memory is refused.
    pub fn new_safe(
        alloc: Global,
        options: Options,
        entities: &'e E,
        limit: usize,
        further: &str,
    ) -> Result<Stream<'e, E>, AllocError>
        ensures { IfOk result (λ stream. Begins E.replacement stream
            (shown_options options) (E.replacement entities.entry.now) limit (Some further.now)) }
    {
        let schemes = String::from_str(alloc, further)?;
        Ok(Stream::empty(alloc, options, entities, limit, Some(schemes)))
    }

    /// The empty text. Its HTML is safe if there are `schemes`.
    fn empty(
        alloc: Global,
        options: Options,
        entities: &'e E,
        limit: usize,
        schemes: Option<String>,
    ) -> Stream<'e, E>
        ensures { Begins E.replacement result
            (shown_options options) (E.replacement entities.entry.now) limit
            (option_map string_bytes schemes) }
    {
        let text = String::new(alloc);
        let settled = String::new(alloc);
        let tail = String::new(alloc);
        let begun = ArrayVec::new();
        Stream {
            text,
            begun,
            options,
            entities,
            limit,
            schemes,
            settled,
            tail,
            cut: 0,
            read: 0,
        }
    }

    /// The text so far: all chunks, joined. The first bytes of a character that is not whole yet are not in it.
    pub fn text(&self) -> &str
        ensures { result.now ≡ text_of self.now }
    {
        self.text.as_str()
    }

    /// Whether the bytes that were pushed end inside a character. If no more arrive, the text was cut off.
    pub fn ends_inside_character(&self) -> bool
        ensures { IsTrue result ↔ (begun_of self.now ≢ []) }
    {
        !self.begun.is_empty()
    }

    /// The byte offset after the settled blocks, at which `rest` begins. It is 0 if nothing is settled.
    pub fn cut(&self) -> usize
        ensures { result ≡ self.now.cut }
    {
        self.cut
    }

    /// The HTML of the blocks that are settled, at the last successful refresh.
    pub fn settled(&self) -> &str
        ensures { result.now ≡ settled_of self.now }
    {
        self.settled.as_str()
    }

    /// The HTML of the other blocks, at the last successful refresh.
    pub fn tail(&self) -> &str
        ensures { result.now ≡ tail_of self.now }
    {
        self.tail.as_str()
    }

    /// Appends a chunk to the text. Nothing is read: the HTML stays as it is until the next refresh.
    ///
    /// `NotUtf8` if the bytes before the chunk end inside a character, and `NoMemory` if memory is refused. The stream is then as before.
    pub fn push(&mut self, chunk: &str) -> Result<(), StreamFault>
        requires { IsStream E.replacement self.old }
        ensures text { OnOk result (text_of self.new ≡ text_of self.old ++ chunk.now) }
        ensures not_utf8 { IsErrOf result NotUtf8 ↔ (begun_of self.old ≢ []) }
        ensures refused { OnErr result (text_of self.new ≡ text_of self.old) }
        ensures begun { begun_of self.new ≡ begun_of self.old }
        ensures html { KeepsHtml E.replacement self.old self.new }
    {
        if self.ends_inside_character() {
            return Err(StreamFault::NotUtf8);
        }
        self.text.push_str(chunk)?;
        Ok(())
    }

    /// Appends bytes to the text. They may end inside a character; its first bytes are then kept until the next bytes continue it. Nothing is
    /// read: the HTML stays as it is until the next refresh.
    ///
    /// `NotUtf8` if the chunk is not UTF-8 after the bytes before it, whatever follows. `NoMemory` if memory is refused. The stream is then as
    /// before.
    pub fn push_bytes(&mut self, chunk: &[u8]) -> Result<(), StreamFault>
        requires { IsStream E.replacement self.old }
        ensures bytes { OnOk result (bytes_of self.new ≡ bytes_of self.old ++ chunk.now) }
        ensures not_utf8 { IsErrOf result NotUtf8 → IsNeverUtf8 (bytes_of self.old ++ chunk.now) }
        ensures refused { OnErr result (text_of self.new ≡ text_of self.old) }
        ensures begun { OnErr result (begun_of self.new ≡ begun_of self.old) }
        ensures html { KeepsHtml E.replacement self.old self.new }
    {
        if !self.ends_inside_character() {
            return self.append(chunk);
        }
        let alloc = *self.text.allocator();
        let bytes = joined(alloc, self.begun.as_slice(), chunk)?;
        self.append(bytes.as_slice())
    }

    /// Appends the whole characters of `bytes` to the text. The first bytes of a character after them replace those that were kept.
    fn append(&mut self, bytes: &[u8]) -> Result<(), StreamFault>
        requires { IsStream E.replacement self.old }
        ensures { Appends E.replacement bytes.now self.old result self.new }
    {
        let Some((text, begun)) = whole_characters(bytes) else {
            return Err(StreamFault::NotUtf8);
        };
        self.text.push_str(text)?;
        self.begun = begun;
        Ok(())
    }

    /// A parser of the whole text so far, with the options and the limit of the stream and without a callback. It has the events with their
    /// ranges, and the link reference definitions. Fails only if memory is refused.
    pub fn parser(&self) -> Result<Parser<'_, E>, AllocError>
        ensures text { IfOk result (λ parser. parsed_text parser ≡ text_of self.now) }
        ensures reads { IfOk result (ReadsWithin E.replacement self.now.limit
            (text_of self.now) (options_of self.now) (lookup_of E.replacement self.now)) }
        ensures definitions { IfOk result (Defines
            (text_of self.now) (options_of self.now) (lookup_of E.replacement self.now)) }
        ensures footnotes { IfOk result (DefinesFootnotes
            (text_of self.now) (options_of self.now) (lookup_of E.replacement self.now)) }
        ensures callback { IfOk result (λ parser. callback_of parser ≡ None) }
        ensures goes { IfOk result (CanGo E.replacement) }
    {
        let alloc = *self.text.allocator();
        let whole = self.text.as_str();
        Parser::new_with_expansion_limit(
            alloc,
            whole,
            self.options,
            self.entities,
            None,
            self.limit,
        )
    }

    /// A parser of the text from `cut` on, where the blocks begin that are not settled. Ranges are offsets of the whole text, and all link
    /// reference definitions of the text are known. Fails only if memory is refused.
    ///
    /// If the text defines neither a link nor a footnote, the parser of the whole text returns these events after those of the settled blocks.
    /// If it defines one, earlier blocks may have changed too: the next refresh returns `Change::Anew`.
    pub fn rest(&self) -> Result<Parser<'_, E>, AllocError>
        requires { IsStream E.replacement self.now }
        ensures text { IfOk result (λ parser. parsed_text parser ≡ text_of self.now) }
        ensures reads { IfOk result (ReadsRest E.replacement self.now.limit
            (text_of self.now) self.now.cut
            (options_of self.now) (lookup_of E.replacement self.now)) }
        ensures completes { IfOk result (Completes E.replacement self.now) }
        ensures definitions { IfOk result (Defines
            (text_of self.now) (options_of self.now) (lookup_of E.replacement self.now)) }
        ensures footnotes { IfOk result (DefinesFootnotes
            (text_of self.now) (options_of self.now) (lookup_of E.replacement self.now)) }
        ensures callback { IfOk result (λ parser. callback_of parser ≡ None) }
        ensures goes { IfOk result (CanGo E.replacement) }
    {
        let alloc = *self.text.allocator();
        let text = self.text.as_str();
        let from = self.cut;
        let definitions = RefDefs::new(alloc);
        let footnotes = FootnoteDefs::new(alloc);
        parse_rest(
            alloc,
            text,
            from,
            definitions,
            footnotes,
            self.options,
            self.entities,
            None,
            self.limit,
        )
    }

    /// Whether the part of the text that a refresh reads has grown by more than a sixteenth since the last refresh.
    ///
    /// A program that refreshes only then, and once at the end, reads at most 36 bytes for each byte of a text, whatever the text is. Without
    /// this rule a text of one block is read again at each refresh.
    pub fn is_due(&self) -> bool
        requires { IsStream E.replacement self.now }
        ensures { IsTrue result ↔ IsDue self.now.cut self.now.read (length (text_of self.now)) }
    {
        let open = self.read - self.cut;
        let new = self.text.as_str().len() - self.read;
        open / 16 < new
    }

    /// Reads the blocks that are not settled. Afterwards `settled` followed by `tail` is the HTML of the whole text. Fails only if memory is
    /// refused; the text and its HTML are then as before.
    pub fn refresh(&mut self) -> Result<Change, AllocError>
        requires { IsStream E.replacement self.old }
        ensures html { OnOk result
            (IsShown E.replacement self.old (settled_of self.new ++ tail_of self.new)) }
        ensures plain { schemes_of self.old ≡ None → OnOk result (IsHtmlWithin self.old.limit
            (text_of self.old) (options_of self.old) (lookup_of E.replacement self.old)
            (settled_of self.new ++ tail_of self.new)) }
        ensures safe { (schemes : List ℕ) → schemes_of self.old ≡ Some schemes
            → OnOk result (IsSafe schemes (settled_of self.new ++ tail_of self.new)) }
        ensures grown { IfOk result
            (λ change. Tells change (settled_of self.old) (settled_of self.new)) }
        ensures text { KeepsText self.old self.new }
        ensures refused { OnErr result (KeepsHtml E.replacement self.old self.new) }
        ensures read { OnOk result (self.new.read ≡ length (text_of self.new)) }
        ensures good { IsStream E.replacement self.new }
    {
        self.read_on()
    }

    /// Does the work of `refresh`.
    fn read_on(&mut self) -> Result<Change, AllocError>
        requires { IsStream E.replacement self.old }
        ensures { Refreshes E.replacement self.old result self.new }
    {
        let rest = self.read_rest()?;
        if rest.cut == 0 {
            return Ok(self.begin_anew(rest));
        }
        self.grow(rest)
    }

    /// The HTML from the last cut on.
    fn read_rest(&self) -> Result<Rest, AllocError>
        requires { IsStream E.replacement self.now }
        ensures { IfOk result (IsRest E.replacement self.now) }
    {
        let alloc = *self.text.allocator();
        let text = self.text.as_str();
        let filter = self.filter();
        read_from(
            alloc,
            text,
            self.cut,
            self.options,
            self.entities,
            &filter,
            self.limit,
        )
    }

    /// What replaces each event.
    fn filter(&self) -> Filtering<'_>
        ensures { filtered_by result ≡ filter_of self.now }
    {
        match &self.schemes {
            None => Filtering::AsTheyAre,
            Some(schemes) => Filtering::Safe(schemes.as_str()),
        }
    }

    /// Settles the blocks before a new cut.
    fn grow(&mut self, rest: Rest) -> Result<Change, AllocError>
        requires good { IsStream E.replacement self.old }
        requires rest { IsRest E.replacement self.old rest }
        requires cut { rest.cut ≢ 0 }
        ensures { Refreshes E.replacement self.old result self.new }
    {
        let Rest { settled, tail, cut } = rest;
        self.settled.push_str(settled.as_str())?;
        self.tail = tail;
        self.cut = cut;
        self.read = self.text.as_str().len();
        Ok(Change::Grown)
    }

    /// Takes the HTML of the whole text as the tail. Nothing is settled afterwards.
    fn begin_anew(&mut self, rest: Rest) -> Change
        requires good { IsStream E.replacement self.old }
        requires rest { IsRest E.replacement self.old rest }
        requires cut { rest.cut ≡ 0 }
        ensures { Refreshed E.replacement self.old result self.new }
    {
        let change = self.change_if_cleared();
        self.settled.clear();
        self.tail = rest.tail;
        self.cut = 0;
        self.read = self.text.as_str().len();
        change
    }

    /// What a refresh did if nothing is settled after it.
    fn change_if_cleared(&self) -> Change
        ensures { Tells result (settled_of self.now) [] }
    {
        if self.settled.as_str().is_empty() {
            Change::Grown
        } else {
            Change::Anew
        }
    }
}
