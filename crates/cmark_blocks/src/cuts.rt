//! The search for the last cut of a text that grows: a line before which the blocks stay as they are, whatever follows the text.

ghost use Rattle.std.specs.Prelude.{◌≡◌, ◌≤◌, ◌&&◌, ◌||◌, not, ℕ, IfOk, IsCharBoundary, if◌then◌else◌};
ghost use Rattle.std.specs.List.{list_all};
ghost use Rattle.cmark_grammar.specs.Columns.{bytes_of};
ghost use Rattle.cmark_grammar.specs.Containers as grammar;
ghost use Rattle.cmark_grammar.specs.Containers.{keeps};
ghost use Rattle.cmark_line_rules.specs.Continuations.{shown_continuation};
ghost use Rattle.cmark_line_rules.specs.Rests.{row_of};
ghost use Rattle.cmark_line_rules.specs.Starts.{Shows};
ghost use Rattle.cmark_stream_model.specs.Growth.{looks_ahead};
ghost use Rattle.cmark_stream_model.specs.Settled.{IsSettledAt, StaysJoinedAt};
ghost use Rattle.cmark_stream_model.specs.Undecided.{is_nothing};
ghost use Rattle.cmark_values.specs.Shown.{shown_options};
ghost use Rattle.cmark_blocks.specs.Cuts.{stops, is_missed, shown_undecided, EndsLeaf};

use crate::list_facts::{ListFacts, list_facts};
use crate::state::{OpenLeaf, Pass};
use crate::table::is_row;
use crate::undecided::Undecided;
use cmark_line_rules::{
    CodeOrHtml, Container, Continuation, LineRest, begins_with_pipe, interrupts, underlines,
};
use cmark_references::{FootnoteDefs, RefDefs};
use cmark_values::{BasicEntities, EntityLookup, Options};
use std::alloc::{AllocError, Global};

/// Whether the lines after a line with this byte may decide what the line is: it may begin a link reference definition or a table.
fn looks_ahead(byte: u8) -> bool
    ensures { result ≡ looks_ahead byte }
{
    byte == b'[' || byte == b'|'
}

fn is_blind_byte(byte: u8) -> bool
    ensures { result ≡ not (looks_ahead byte) }
{
    !looks_ahead(byte)
}

/// Whether no later line decides what this line is, by its bytes.
fn is_blind(line: LineRest<'_>) -> bool
    ensures { result ≡ list_all (λ b. not (looks_ahead b)) (bytes_of (row_of line.entry).columns) }
{
    line.bytes().iter().all(|byte| is_blind_byte(*byte))
}

/// Whether a block has ended before a line.
fn is_stop(continuation: Continuation) -> bool
    ensures { result ≡ stops (shown_continuation continuation) }
{
    matches!(continuation, Continuation::Stops)
}

/// Whether the line, which lacks no prefix, ends the open leaf, or no leaf is open. `by`: it ends an open paragraph.
fn ends_leaf(leaf: OpenLeaf<'_>, by: bool, line: LineRest<'_>, options: Options) -> bool
    ensures { EndsLeaf (shown_options options) leaf.entry by line.entry result }
{
    match leaf {
        OpenLeaf::Closed => true,
        OpenLeaf::Paragraph(_, _) => by,
        OpenLeaf::Definition(left) => left == 0,
        OpenLeaf::Table {
            columns,
            left,
            has_delimiter,
        } => has_delimiter && !is_row(line, columns, left, options),
        OpenLeaf::Indented(_, _) => is_stop(CodeOrHtml::Indented.continuation(line)),
        OpenLeaf::Html(kind) => is_stop(CodeOrHtml::Html(kind).continuation(line)),
        OpenLeaf::AfterTag => false,
        OpenLeaf::Fenced(_, _, _, _) => false,
        OpenLeaf::Metadata(_, _) => false,
    }
}

/// Whether the container does not keep the line.
fn misses(container: Container, bare: bool, line: LineRest<'_>) -> bool
    ensures { (k : grammar.Container) → Shows container k
        → result ≡ is_missed (keeps k bare (row_of line.entry)) }
{
    match container.keeps(bare, line) {
        Some(_) => false,
        None => true,
    }
}

/// What a whole line says about cuts.
#[derive(Clone, Copy)]
struct LineFacts {
    /// Whether it begins a block after all open ones.
    begins: bool,
    /// Whether it is complete, and no later line decides whether it begins a block.
    is_decided: bool,
    is_blank: bool,
    /// Whether no later line decides what the line is.
    is_blind: bool,
    lists: ListFacts,
}

/// The search for cuts, between two lines.
#[derive(Clone, Copy)]
struct CutSearch {
    /// The last cut so far, a byte offset.
    cut: usize,
    /// Whether no further line decides what the lines so far are, metadata aside.
    is_resolved: bool,
    /// Whether the last block may be an item of a list, or a definition.
    after_item: bool,
    /// What the lines so far leave undecided about metadata.
    undecided: Undecided,
}

impl CutSearch {
    /// Whether the lines so far are what they are, whatever follows them.
    fn is_settled(self) -> bool
        ensures { result ≡ (self.is_resolved && is_nothing (shown_undecided self.undecided)) }
    {
        self.is_resolved && self.undecided.is_nothing()
    }

    /// Whether the next line is a cut.
    fn has_cut(self, line: LineFacts) -> bool
        ensures { result
            ≡
            (line.begins &&
            ((self.is_resolved && is_nothing (shown_undecided self.undecided)) &&
            (line.is_decided && (not line.lists.is_marked &&
            (line.lists.is_apart || not self.after_item))))) }
    {
        line.begins
            && (self.is_settled()
                && (line.is_decided
                    && (!line.lists.is_marked && (line.lists.is_apart || !self.after_item))))
    }

    /// The last cut after the next line, which begins at the byte offset `at`.
    fn cut_after(self, at: usize, line: LineFacts) -> usize
        ensures { result
            ≡
            (if line.begins &&
            ((self.is_resolved && is_nothing (shown_undecided self.undecided)) &&
            (line.is_decided && (not line.lists.is_marked &&
            (line.lists.is_apart || not self.after_item)))) then at else self.cut) }
    {
        if self.has_cut(line) { at } else { self.cut }
    }

    /// Whether the last block after the next line may be an item of a list, or a definition.
    fn item_after(self, line: LineFacts) -> bool
        ensures { result ≡ (if line.begins then not line.lists.is_outside else self.after_item) }
    {
        if line.begins {
            !line.lists.is_outside
        } else {
            self.after_item
        }
    }

    /// Whether no further line decides what the lines up to the next one are.
    fn resolved_after(self, line: LineFacts) -> bool
        ensures { result ≡ (line.is_blind && (line.is_blank || self.is_resolved)) }
    {
        line.is_blind && (line.is_blank || self.is_resolved)
    }

    /// The search after the next line, which begins at the byte offset `at`. `undecided` is what the line leaves undecided about metadata.
    fn after(self, at: usize, line: LineFacts, undecided: Undecided) -> CutSearch
        ensures cut { result.cut
            ≡
            (if line.begins &&
            ((self.is_resolved && is_nothing (shown_undecided self.undecided)) &&
            (line.is_decided && (not line.lists.is_marked &&
            (line.lists.is_apart || not self.after_item)))) then at else self.cut) }
        ensures resolved { result.is_resolved
            ≡ (line.is_blind && (line.is_blank || self.is_resolved)) }
        ensures after_item { result.after_item
            ≡ (if line.begins then not line.lists.is_outside else self.after_item) }
        ensures undecided { result.undecided ≡ undecided }
    {
        let cut = self.cut_after(at, line);
        let is_resolved = self.resolved_after(line);
        let after_item = self.item_after(line);
        CutSearch {
            cut,
            is_resolved,
            after_item,
            undecided,
        }
    }
}

impl<'a, E: EntityLookup> Pass<'a, E> {
    ghost use Rattle.std.specs.Prelude.{◌≡◌, ◌≤◌, ◌<◌, ◌&&◌, not, true, false, ℕ, List, Option, IfOk, IsCharBoundary, nat_lt, nat_le, length};
    ghost use Rattle.std.specs.List.{list_all};
    ghost use Rattle.cmark_blocks.specs.Cuts.{ends_paragraph, ends_all, Tells, StartsAt};
    ghost use Rattle.cmark_grammar.specs.Columns.{bytes_of};
    ghost use Rattle.cmark_grammar.specs.Openings.{opens_at, texts};
    ghost use Rattle.cmark_grammar.specs.Places.{Apart};
    ghost use Rattle.cmark_grammar.specs.Rows.{Row, is_blank_line, indent_of, words_of};
    ghost use Rattle.cmark_grammar.specs.TableRows.{begins_with_pipe};
    ghost use Rattle.cmark_leaf_nodes.specs.TextColumns.{IsRead};
    ghost use Rattle.cmark_line_rules.specs.Rests.{row_of};
    ghost use Rattle.cmark_grammar.specs.DefinitionLists.{begins_definition};
    ghost use Rattle.cmark_stream_model.specs.Growth.{is_outside_of_lists, looks_ahead, may_continue};
    ghost use Rattle.cmark_stream_model.specs.Settled.{IsSettledAt};
    ghost use Rattle.cmark_values.specs.Shown.{shown_options};

    /// Whether the line, which lacks no prefix, is no text of an open paragraph.
    fn ends_text(&self, line: LineRest<'a>) -> bool
        requires { IsRead self.now.text.now line }
        ensures { Tells E.replacement self.now line.entry result
            (λ text options lookup m r ahead. not (texts options r ahead)) }
    {
        interrupts(line, true, self.options) || self.block_interrupts(0, line)
    }

    /// Whether the line, which lacks no prefix, ends an open paragraph.
    fn ends_paragraph(&self, line: LineRest<'a>) -> bool
        requires { IsRead self.now.text.now line }
        ensures { Tells E.replacement self.now line.entry result
            (λ text options lookup m r ahead. ends_paragraph text options lookup r ahead) }
    {
        match underlines(line) {
            Some(_) => false,
            None => self.ends_text(line),
        }
    }

    /// Whether the line continues none of the open containers.
    fn ends_containers(&self, line: LineRest<'a>) -> bool
        requires line { IsRead self.now.text.now line }
        requires some { 0 < length self.now.outer.items }
        ensures { Tells E.replacement self.now line.entry result ends_all }
    {
        let bare = self.is_bare(0);
        misses(self.outer[0].container, bare, line) && !self.is_lazy(0, line)
    }

    /// Whether the whole line continues no open block, so that it begins a block after all of them.
    fn ends_all(&self, line: LineRest<'a>) -> bool
        requires { IsRead self.now.text.now line }
        ensures { Tells E.replacement self.now line.entry result ends_all }
    {
        if self.outer.is_empty() {
            let by = self.ends_paragraph(line);
            return ends_leaf(self.leaf, by, line, self.options);
        }
        self.ends_containers(line)
    }

    /// Whether the whole line is not blank, and begins a block after all open ones.
    fn begins_apart(&self, line: LineRest<'a>) -> bool
        requires { IsRead self.now.text.now line }
        ensures { Tells E.replacement self.now line.entry result
            (λ text options lookup m r ahead. not (is_blank_line r) && ends_all text options lookup
            m r ahead) }
    {
        if line.is_blank() {
            return false;
        }
        self.ends_all(line)
    }

    /// Whether the line is complete, as a byte follows it, and is no head of a table that interrupts a paragraph, whatever follows it.
    fn is_decided(&self, line: LineRest<'a>) -> bool
        ensures { result
            ≡
            (not
            (nat_le (indent_of (row_of line.entry)) 3 && begins_with_pipe
            (words_of (row_of line.entry))) && nat_lt (row_of line.entry).line_end
            (length self.now.text.now)) }
    {
        if begins_with_pipe(line) {
            return false;
        }
        line.line_end() < self.text.len()
    }

    /// What the next line, a whole one, says about cuts.
    fn facts_of(&self, line: LineRest<'a>) -> LineFacts
        requires { IsRead self.now.text.now line }
        ensures begins { Tells E.replacement self.now line.entry result.begins
            (λ text options lookup m r ahead. not (is_blank_line r) && ends_all text options lookup
            m r ahead) }
        ensures is_marked { result.lists.is_marked
            ≡ begins_definition (shown_options self.now.options) (row_of line.entry) }
        ensures is_outside { result.lists.is_outside ≡ true → (ahead : List Row)
            → is_outside_of_lists
            (opens_at (shown_options self.now.options) Apart (row_of line.entry) ahead)
            ≡ true }
        ensures is_unmarked { result.lists.is_outside ≡ true
            → begins_definition (shown_options self.now.options) (row_of line.entry) ≡ false }
        ensures is_apart { result.lists.is_apart ≡ true → (list : Option ℕ) (ahead : List Row)
            → may_continue (shown_options self.now.options).definition_list list
            (opens_at (shown_options self.now.options) Apart (row_of line.entry) ahead)
            ≡ false }
        ensures is_decided { result.is_decided
            ≡
            (not
            (nat_le (indent_of (row_of line.entry)) 3 && begins_with_pipe
            (words_of (row_of line.entry))) && nat_lt (row_of line.entry).line_end
            (length self.now.text.now)) }
        ensures is_blank { result.is_blank ≡ is_blank_line (row_of line.entry) }
        ensures is_blind { result.is_blind
            ≡ list_all (λ b. not (looks_ahead b)) (bytes_of (row_of line.entry).columns) }
    {
        let begins = self.begins_apart(line);
        let lists = list_facts(line, self.options);
        let is_decided = self.is_decided(line);
        let is_blank = line.is_blank();
        let is_blind = is_blind(line);
        LineFacts {
            begins,
            is_decided,
            is_blank,
            is_blind,
            lists,
        }
    }

    /// The last settled cut of the text, or `from`. The pass is before the line at the byte offset `from`, and has read none of the lines
    /// before it.
    fn find_cut(&mut self, from: usize) -> Result<usize, AllocError>
        requires starts { StartsAt E.replacement from self.old }
        ensures settled { IsSettledAt (shown_options self.old.options) self.old.text.now from
            → IfOk result (IsSettledAt (shown_options self.old.options) self.old.text.now) }
        ensures boundary { IfOk result (IsCharBoundary self.old.text.now) }
        ensures order { IsSettledAt (shown_options self.old.options) self.old.text.now from
            → IfOk result (λ cut. from ≤ cut) }
    {
        let mut search = CutSearch {
            cut: from,
            is_resolved: true,
            after_item: from != 0,
            undecided: Undecided::Nothing,
        };
        while self.line_end < self.text.len() {
            let line = LineRest::new(self.text.as_bytes(), self.line_end);
            let facts = self.facts_of(line);
            let undecided = search.undecided.after(line, facts.begins, self.options);
            search = search.after(self.line_end, facts, undecided);
            self.feed(line)?;
        }
        Ok(search.cut)
    }
}

/// The last settled cut of `text`, or `from` if no later line is one. `from` is 0, or an offset that an earlier call returned for a beginning
/// of this text. Both are byte offsets of line starts. For any other `from` the result is a character boundary, and nothing else is known.
///
/// A settled cut is a line that begins a block after all open ones, whatever follows the text. So the blocks before it do not change. The
/// document of the text is the document of the bytes before the cut, followed by that of the lines after it. Example: in `a`, a blank
/// line, `- b` and a blank line, the list is a settled cut.
///
/// The search misses some cuts:
///
/// - It finds no cut before a line that begins with a pipe, that no further byte follows, or that may continue a list.
/// - It finds no cut before a definition. If definition lists are read, it finds none before a paragraph after a list.
/// - It finds no cut after a line that may begin metadata whose end may still come.
/// - After a line with a bracket or a pipe it finds no cut up to the next blank line.
///
/// Reads each line after `from` once, as the block pass does. Fails only if memory is refused.
pub fn last_cut(
    alloc: Global,
    text: &str,
    from: usize,
    options: Options,
) -> Result<usize, AllocError>
    requires begins { IsCharBoundary text.now from }
    ensures settled { IsSettledAt (shown_options options) text.now from
        → IfOk result (IsSettledAt (shown_options options) text.now) }
    ensures stays { IsSettledAt (shown_options options) text.now from
        → IfOk result (StaysJoinedAt (shown_options options) text.now) }
    ensures boundary { IfOk result (IsCharBoundary text.now) }
    ensures order { IsSettledAt (shown_options options) text.now from
        → IfOk result (λ cut. from ≤ cut) }
{
    let definitions = RefDefs::new(alloc);
    let footnotes = FootnoteDefs::new(alloc);
    let entities = BasicEntities;
    let mut pass = Pass::starting_at(
        alloc,
        text,
        from,
        definitions,
        footnotes,
        options,
        &entities,
    )?;
    let cut = pass.find_cut(from)?;
    Ok(cut)
}
