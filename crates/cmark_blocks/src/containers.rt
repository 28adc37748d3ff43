//! Containers: their beginnings, the lines that they keep, and their ends (CommonMark 5).

ghost use Rattle.std.specs.Prelude.{◌≡◌, Bool, true, [], List, Option, ℕ, OnOk, unwrap_or, option_map, length, ◌-◌, ◌<◌, ◌∷◌, ◌++◌, ◌&&◌, ◌==◌, if◌then◌else◌, suc, ◌≤◌, IfOk, IfSome};
ghost use Rattle.cmark_grammar.specs.Containers as grammar;
ghost use Rattle.cmark_items.specs.ItemNodes.{list_number};
ghost use Rattle.cmark_values.specs.Shown.{shown_block_quote_kind, shown_options};
ghost use Rattle.cmark_line_rules.specs.Starts.{Shows, inside_of};
ghost use Rattle.cmark_blocks.specs.EmptyLines.{KeepEmptyFrom, keeps_empty};
ghost use Rattle.cmark_blocks.specs.FootnoteRuns.{AreRuns, is_old, KeepAlike};
ghost use Rattle.cmark_blocks.specs.Shown.{shown_siblings, ShowsContainer};
ghost use Rattle.cmark_block_model.specs.BlockPass.{inside_of as stepped_inside, block_quote_begun, item_begun_in, definition_begun_in, after_container};
ghost use Rattle.cmark_block_model.specs.OpenBlocks as model;
ghost use Rattle.cmark_line_rules.specs.Rests.{IsIn, row_of};
ghost use Rattle.cmark_blocks.specs.Entered.{BeginsContainer, DefinesAs, IsStartOf};
ghost use Rattle.cmark_line_rules.specs.Definitions.{EntersDefinition, width_of};

use crate::siblings::Siblings;
use crate::state::{FootnoteRun, OpenContainer, OpenLeaf, Pass};
use bitflags::Flags;
use cmark_items::ItemBody;
use cmark_line_rules::{
    Container, ContainerStart, ItemStart, LineRest, definition_start, reads_definition_lists,
};
use cmark_values::{BlockQuoteKind, EntityLookup, Options};
use std::alloc::AllocError;

/// Whether alerts are read.
fn reads_alerts(options: Options) -> bool
    ensures { result ≡ (shown_options options).gfm }
{
    options.contains(Options::ENABLE_GFM)
}

/// Whether task markers are read.
fn reads_tasklists(options: Options) -> bool
    ensures { result ≡ (shown_options options).tasklists }
{
    options.contains(Options::ENABLE_TASKLISTS)
}

/// Whether this container keeps every empty line, unless the line before was its blank first line. A block quote does not, nor a footnote
/// definition in the old style (CommonMark 5.1 and 5.2; this profile's own).
fn keeps_empty(container: Container) -> bool
    ensures { result ≡ keeps_empty container }
{
    match container {
        Container::BlockQuote => false,
        Container::Item { .. } | Container::Definition { .. } => true,
        Container::Footnote { old } => !old,
    }
}

/// The number of `count` containers up to the innermost one that does not keep every empty line. The last one is `container`, and `strict`
/// is the number for those before it.
fn strict_with(container: Container, strict: usize, count: usize) -> usize
    ensures { result ≡ (if keeps_empty container then strict else count) }
{
    if keeps_empty(container) {
        strict
    } else {
        count
    }
}

/// Whether nothing is left of a line, not even a part of a tab.
fn is_used_up(rest: LineRest<'_>) -> bool
    ensures { result ≡ true → (row_of rest.entry).columns ≡ [] }
{
    if !rest.bytes().is_empty() {
        return false;
    }
    rest.remaining_space() == 0
}

/// The number of these containers up to the innermost one that does not keep every empty line, which is among the first `strict` ones.
/// A container that the search passes has a prefix or a marker in the line that began the container that was closed. So all searches together
/// take time in proportion to the text.
fn strict_count(outer: &Vec<OpenContainer>, strict: usize) -> usize
    requires { KeepEmptyFrom strict outer.now.items }
    ensures { KeepEmptyFrom result outer.now.items }
{
    let mut count = strict.min(outer.len());
    while count > 0 {
        if !keeps_empty(outer[count - 1].container) {
            return count;
        }
        count -= 1;
    }
    count
}

/// Whether this container is a footnote definition in the old style.
fn is_old(container: Container) -> bool
    ensures { result ≡ is_old container }
{
    match container {
        Container::Footnote { old } => old,
        Container::BlockQuote | Container::Item { .. } | Container::Definition { .. } => false,
    }
}

/// Adds the last of `count` containers, a footnote definition in the old style, to the last run, or begins a run. Fails only if memory is
/// refused.
fn add_to_runs(runs: &mut Vec<FootnoteRun>, count: usize) -> Result<(), AllocError>
    requires { 0 < count }
    ensures { (outer : List OpenContainer) (entered : OpenContainer) → suc (length outer) ≡ count
        → is_old entered.container ≡ true → AreRuns outer 0 runs.old.items
        → AreRuns (outer ++ entered ∷ []) 0 runs.new.items }
{
    let known = runs.len();
    if known > 0 && runs[known - 1].end == count - 1 {
        runs[known - 1].end = count;
        return Ok(());
    }
    runs.push(FootnoteRun {
        start: count - 1,
        end: count,
    })?;
    Ok(())
}

/// Takes the container that was closed out of the last run, if it was in it. `count` containers are left.
fn cut_runs(runs: &mut Vec<FootnoteRun>, count: usize)
    ensures { (outer : List OpenContainer) (closed : OpenContainer) → length outer ≡ count
        → AreRuns (outer ++ closed ∷ []) 0 runs.old.items → AreRuns outer 0 runs.new.items }
{
    let known = runs.len();
    if known == 0 || runs[known - 1].end <= count {
        return;
    }
    if runs[known - 1].start < count {
        runs[known - 1].end = count;
    } else {
        runs.pop();
    }
}

impl<'a, E: EntityLookup> Pass<'a, E> {
    ghost use Rattle.cmark_blocks.specs.Steps.{Keeps, Steps, ClosesLast, ClosesAll, BeginsTask};
    ghost use Rattle.cmark_blocks.specs.KeepingContainers.{IsAfter, KeepsEmptyRest, KeepsOf};
    ghost use Rattle.cmark_blocks.specs.declared.state.OpenLeaf.TheVariants as leaf;
    ghost use Rattle.cmark_leaf_nodes.specs.TextColumns.{IsRead};

    /// Begins a container on a line, with no leaf open. Returns the line after its marker, and whether the container is an item. Returns
    /// `None` if nothing of the line is left to begin: it is an alert's tag, or a task marker with its paragraph.
    pub(crate) fn begin_container(
        &mut self,
        start: ContainerStart<'a>,
        rest: LineRest<'a>,
    ) -> Result<Option<(LineRest<'a>, bool)>, AllocError>
        requires line { IsRead self.old.text.now rest }
        requires closed { self.old.leaf ≡ leaf.Closed }
        requires start { IsStartOf self.old.text.now (row_of rest) start }
        ensures runs { IfOk result
            (λ entered. BeginsContainer E.replacement start.entry rest.entry entered self.old
            self.new) }
        ensures inside { IfOk result
            (λ entered. IfSome entered (λ inside. inside.0 ≡ inside_of start.entry)) }
        ensures text { self.new.text ≡ self.old.text }
        ensures leaf { IfOk result
            (λ entered. IfSome entered (λ inside. self.new.leaf ≡ leaf.Closed)) }
        ensures bare { self.new.bare ≡ self.old.bare }
    {
        match start {
            ContainerStart::BlockQuote(inside) => {
                let alert = inside.alert_kind(reads_alerts(self.options));
                self.begin_block_quote(alert, rest.words_begin())?;
                if alert.is_some() {
                    self.leaf = OpenLeaf::AfterTag;
                    return Ok(None);
                }
                Ok(Some((inside, false)))
            }
            ContainerStart::Item(item, inside) => {
                let task = inside.task_marker(reads_tasklists(self.options));
                self.begin_item(item, rest.begin())?;
                if let Some((is_checked, following)) = task {
                    self.begin_task(is_checked, inside.begin(), following)?;
                    return Ok(None);
                }
                Ok(Some((inside, true)))
            }
            ContainerStart::Footnote(footnote, inside) => {
                self.begin_footnote(footnote, rest)?;
                Ok(Some((inside, false)))
            }
        }
    }

    /// Begins a task marker at this byte offset, and a paragraph after its box, whatever its text looks like (GFM 5.3).
    fn begin_task(
        &mut self,
        is_checked: bool,
        start: usize,
        following: LineRest<'a>,
    ) -> Result<(), AllocError>
        requires line { IsRead self.old.text.now following }
        requires closed { self.old.leaf ≡ leaf.Closed }
        ensures runs { OnOk result
            (BeginsTask E.replacement is_checked start following.entry self.old self.new) }
        ensures text { self.new.text ≡ self.old.text }
        ensures bare { self.new.bare ≡ self.old.bare }
    {
        let body = ItemBody::TaskListMarker(is_checked);
        self.builder.add(start, following.begin(), body)?;
        self.begin_paragraph(following)
    }

    /// The width in columns of the definition that a line begins, and the line after its marker. The definition begins after a paragraph,
    /// which is its title, or after another definition (this profile's own).
    #[inline(always)]
    pub(crate) fn definition_begun(&self, rest: LineRest<'a>) -> Option<(usize, LineRest<'a>)>
        ensures width { DefinesAs E.replacement self.now rest.entry (option_map width_of result) }
        ensures inside { IfSome result (EntersDefinition (row_of rest.entry)) }
        ensures placed { (text : List ℕ) → IsIn text rest.entry
            → IfSome result (λ begun. IsIn text begun.1) }
        ensures shorter { IfSome result
            (λ begun. length (row_of begun.1).columns < length (row_of rest.entry).columns) }
    {
        if !reads_definition_lists(self.options) || !self.inner.may_define() {
            return None;
        }
        definition_start(rest, self.options)
    }

    /// Enters a container that begins.
    pub(crate) fn enter(&mut self, container: Container) -> Result<(), AllocError>
        ensures runs { OnOk result
            ((k : grammar.Container) → Shows container k
            → Steps E.replacement self.old self.new (stepped_inside k)) }
        ensures tables { self.new.builder.allocations ≡ self.old.builder.allocations }
        ensures keeps { Keeps self.old self.new }
    {
        self.outer.push(OpenContainer {
            container,
            around: self.inner,
        })?;
        self.strict = strict_with(container, self.strict, self.outer.len());
        self.inner = Siblings::none();
        if is_old(container) {
            add_to_runs(&mut self.footnote_runs, self.outer.len())?;
        }
        Ok(())
    }

    /// Begins a block quote at this byte offset; it is an alert if there is a kind.
    pub(crate) fn begin_block_quote(
        &mut self,
        alert: Option<BlockQuoteKind>,
        start: usize,
    ) -> Result<(), AllocError>
        ensures runs { OnOk result
            (Steps E.replacement self.old self.new
            (block_quote_begun (option_map shown_block_quote_kind alert) start)) }
        ensures keeps { Keeps self.old self.new }
    {
        self.begin_block();
        self.builder.open(start, ItemBody::BlockQuote(alert))?;
        self.enter(Container::BlockQuote)
    }

    /// Begins an item at this byte offset. A task marker after the item's marker is not handled here.
    pub(crate) fn begin_item(&mut self, item: ItemStart, start: usize) -> Result<(), AllocError>
        requires number { list_number item.delimiter (unwrap_or item.number 0) ≡ item.number }
        ensures runs { OnOk result
            ((task : Option Bool)
            → Steps E.replacement self.old self.new
            (item_begun_in item.delimiter item.number item.width task start)) }
        ensures keeps { Keeps self.old self.new }
    {
        self.join_list(item, start)?;
        self.builder.open(start, ItemBody::ListItem(item.width))?;
        self.enter(Container::Item { width: item.width })
    }

    /// Begins a definition of this width at this byte offset, after its title or another definition (this profile's own).
    pub(crate) fn begin_list_definition(
        &mut self,
        width: usize,
        start: usize,
    ) -> Result<(), AllocError>
        ensures runs { OnOk result
            (Steps E.replacement self.old self.new (definition_begun_in width start)) }
        ensures keeps { Keeps self.old self.new }
    {
        self.join_definitions(width, start)?;
        let body = ItemBody::DefinitionListDefinition(width);
        self.builder.open(start, body)?;
        self.enter(Container::Definition { width })
    }

    /// Whether this container is an item whose first line was blank and was the last line.
    pub(crate) fn is_bare(&self, index: usize) -> bool
        requires { index < length self.now.outer.items }
        ensures { result ≡ (self.now.bare && (suc index == length self.now.outer.items)) }
    {
        self.bare && index + 1 == self.outer.len()
    }

    /// Whether nothing is left of this line, and the containers from this index on all keep such a line.
    #[inline(always)]
    fn keeps_rest(&self, index: usize, rest: LineRest<'a>) -> bool
        ensures { result ≡ true → KeepsEmptyRest self.now index rest.entry }
    {
        if index < self.strict || self.bare {
            return false;
        }
        is_used_up(rest)
    }

    /// The index of the first container that may not keep a line as the container at this index does, and the number of the next run.
    /// `run` is the number of the first run that does not end before the container. If the run begins there, the index is its end: all its
    /// containers keep the same lines, and take nothing of them (this profile's own).
    #[inline(always)]
    pub(crate) fn after_kept(&self, index: usize, run: usize) -> (usize, usize)
        requires { index < length self.now.outer.items }
        ensures { KeepAlike self.now.outer.items index result.0 }
    {
        if run < self.footnote_runs.len() && self.footnote_runs[run].start == index {
            return (self.footnote_runs[run].end, run + 1);
        }
        (index + 1, run)
    }

    /// The number of containers that keep the line, from the outermost on, and the rest of it after their prefixes. A rest that is used up
    /// is kept by all containers from `strict` on. A run of footnote definitions in the old style takes one step.
    #[inline(always)]
    pub(crate) fn kept_by(&self, line: LineRest<'a>) -> (usize, LineRest<'a>)
        ensures kept { KeepsOf E.replacement self.now line.entry result.0 result.1 }
        ensures few { result.0 ≤ length self.now.outer.items }
        ensures placed { (text : List ℕ) → IsIn text line.entry → IsIn text result.1 }
        ensures following { IsAfter line.entry result.1 }
    {
        let mut kept = 0;
        let mut run = 0;
        let mut rest = line;
        while kept < self.outer.len() {
            if self.keeps_rest(kept, rest) {
                return (self.outer.len(), rest);
            }
            let bare = self.is_bare(kept);
            let Some(inside) = self.outer[kept].container.keeps(bare, rest) else {
                return (kept, rest);
            };
            rest = inside;
            (kept, run) = self.after_kept(kept, run);
        }
        (kept, rest)
    }

    /// Closes the innermost container at the end of the last line.
    fn close_container(&mut self)
        ensures runs { ClosesLast E.replacement self.old self.new }
        ensures keeps { Keeps self.old self.new }
        ensures fewer { length self.new.outer.items ≡ length self.old.outer.items - 1 }
    {
        self.close_list();
        if let Some(open) = self.outer.pop() {
            self.builder.close(self.line_end);
            self.inner = open.siblings_after(self.inner, self.line_end);
            self.strict = strict_count(&self.outer, self.strict);
            cut_runs(&mut self.footnote_runs, self.outer.len());
        }
    }

    /// Closes the innermost containers until `kept` are left.
    pub(crate) fn close_containers(&mut self, kept: usize)
        ensures runs { ClosesAll E.replacement kept self.old self.new }
        ensures keeps { Keeps self.old self.new }
    {
        while self.outer.len() > kept {
            self.close_container();
        }
    }
}

impl OpenContainer {
    /// The siblings with this container as the last one; it ended at this byte offset with these blocks in it.
    fn siblings_after(self, inside: Siblings, end: usize) -> Siblings
        ensures { (m : model.OpenContainer) → ShowsContainer self m
            → shown_siblings result
            ≡ after_container m.container end (shown_siblings inside) m.around }
    {
        match self.container {
            Container::BlockQuote => self.around,
            Container::Footnote { .. } => Siblings {
                blank: inside.blank,
                ..self.around
            },
            Container::Item { .. } | Container::Definition { .. } => {
                self.around.after_item(inside, end)
            }
        }
    }
}
