//! Link reference definitions (CommonMark 4.7).

ghost use Rattle.std.specs.Prelude.{◌≡◌, ◌≤◌, ℕ, List, false, drop, length, OnOk};
ghost use Rattle.cmark_grammar.specs.LinkDefinitions.{line_ends};
ghost use Rattle.cmark_blocks.specs.Brackets.{lacks_colon, begins_none};
ghost use Rattle.cmark_link_definitions.specs.Shown.{written};
ghost use Rattle.cmark_line_rules.specs.Rests.{IsIn};
ghost use Rattle.cmark_references.specs.Definitions.{at_label, entry_of, first_of};
ghost use Rattle.cmark_values.specs.Labelled.{link_key};

use crate::gathered::Gathered;
use crate::state::{OpenLeaf, Pass};
use cmark_items::Allocations;
use cmark_line_rules::LineRest;
use cmark_link_definitions::{Definition, link_definition, scan_definition};
use cmark_references::LinkDef;
use cmark_values::{EntityLookup, LinkLabel};
use std::alloc::AllocError;
use std::mem;
use std::ops::Range;

/// Whether a line after its indent shows that no definition begins there, whatever lines follow. The label of its bracket ends in the line
/// without a colon after it, or another bracket opens in the label.
fn begins_no_definition(words: &[u8]) -> bool
    ensures { result ≡ begins_none words.now }
{
    match words {
        [b'[', label @ ..] => lacks_colon(label),
        _ => false,
    }
}

/// Whether a label ends in these bytes without a colon after it, or another bracket opens in it.
fn lacks_colon(label: &[u8]) -> bool
    ensures { result ≡ lacks_colon false label.now }
{
    let mut escaped = false;
    let mut rest = label;
    while let Some((first, others)) = rest.split_first() {
        if !escaped && *first == b']' {
            return !matches!(others, [b':', ..]);
        }
        if !escaped && *first == b'[' {
            return true;
        }
        escaped = !escaped && *first == b'\\';
        rest = others;
    }
    false
}

/// The number of line endings after this byte offset of a text.
fn line_ends_after(text: &str, place: usize) -> usize
    requires { place ≤ length text.now }
    ensures { result ≡ line_ends (drop place text.now) }
{
    text.as_bytes()[place..]
        .iter()
        .filter(|byte| **byte == b'\n')
        .count()
}

/// Records a definition in the tables of a document: the first definition of a label stays.
fn keep_first<'a>(
    tables: &mut Allocations<'a>,
    label: LinkLabel,
    definition: LinkDef<'a>,
) -> Result<(), AllocError>
    ensures spelled { OnOk result
        ((folded : List ℕ)
        → entry_of tables.new.references folded
        ≡ first_of (entry_of tables.old.references folded)
        (at_label (link_key label) (label, definition.entry) folded)) }
    ensures others { tables.new ≡ record tables.old { references = tables.new.references } }
{
    tables.refdefs.insert(label, definition)
}

impl<'a, E: EntityLookup> Pass<'a, E> {
    ghost use Rattle.std.specs.Prelude.{false};
    ghost use Rattle.cmark_blocks.specs.declared.state.OpenLeaf.TheVariants as leaf;
    ghost use Rattle.cmark_leaf_nodes.specs.TextColumns.{IsRead};
    ghost use Rattle.cmark_blocks.specs.Steps.{StepsOver, BeginsBracket, FeedsLeaf};
    ghost use Rattle.cmark_blocks.specs.Gathered.{IsGathered, Gathers, Decides};
    ghost use Rattle.cmark_blocks.specs.LinkDefinitions.{definition_kept, definition_begun, StopsAt};

    /// The end of the line that is `more` lines after this one, in the paragraph that this one may begin.
    fn content_end_after(&self, rest: LineRest<'a>, more: usize) -> usize
        requires bare { self.now.bare ≡ false }
        requires within { IsIn self.now.text.now rest }
        ensures { StopsAt E.replacement self.now rest.entry more result }
    {
        let mut last = rest;
        let mut left = more;
        while left > 0 {
            let Some(next) = self.text_ahead(last) else {
                return last.content_end();
            };
            last = next;
            left -= 1;
        }
        last.content_end()
    }

    /// Records a definition with these bytes of the text, unless its label has one: then its parts are not read.
    fn keep_definition(
        &mut self,
        definition: &Definition<'_>,
        span: Range<usize>,
    ) -> Result<(), AllocError>
        ensures runs { OnOk result
            (StepsOver E.replacement self.old self.new
            (λ text options lookup. definition_kept lookup (written definition.now) span.start
            span.end)) }
        ensures text { self.new.text ≡ self.old.text }
        ensures blank_lines { self.new.blank_lines ≡ self.old.blank_lines }
    {
        let known = self.builder.allocations.refdefs.get(definition.label)?;
        if known.is_some() {
            return Ok(());
        }
        let (label, kept) = link_definition(self.alloc, definition, span, self.entities)?;
        let builder = &mut self.builder;
        keep_first(&mut builder.allocations, label, kept)
    }

    /// Begins a definition with these bytes of the text and `more` lines to come.
    fn begin_definition(
        &mut self,
        definition: &Definition<'_>,
        span: Range<usize>,
        more: usize,
    ) -> Result<(), AllocError>
        requires closed { self.old.leaf ≡ leaf.Closed }
        ensures runs { OnOk result
            (StepsOver E.replacement self.old self.new
            (λ text options lookup. definition_begun lookup (written definition.now) span.start
            span.end more)) }
        ensures text { self.new.text ≡ self.old.text }
    {
        self.begin_block();
        self.keep_definition(definition, span)?;
        self.leaf = OpenLeaf::Definition(more);
        Ok(())
    }

    /// Begins, on this line, the link reference definition at the beginning of a paragraph's text, or else a table or that paragraph.
    fn begin_gathered(
        &mut self,
        rest: LineRest<'a>,
        gathered: &Gathered<'a>,
    ) -> Result<(), AllocError>
        requires line { IsRead self.old.text.now rest }
        requires closed { self.old.leaf ≡ leaf.Closed }
        requires bare { self.old.bare ≡ false }
        requires gathered { IsGathered self.old.text.now gathered.now }
        requires holds { Gathers E.replacement self.old rest gathered.now }
        requires decides { Decides E.replacement self.old gathered.now }
        ensures runs { OnOk result (BeginsBracket E.replacement rest.entry self.old self.new) }
        ensures text { self.new.text ≡ self.old.text }
    {
        let paragraph = gathered.text.as_str();
        let Some(definition) = scan_definition(paragraph) else {
            return self.begin_text(rest);
        };
        let following = line_ends_after(paragraph, definition.end);
        let more = gathered.lines.saturating_sub(following);
        let end = self.content_end_after(rest, more);
        self.begin_definition(&definition, rest.words_begin()..end, more)
    }

    /// Begins, on a line whose words begin with a bracket, a link reference definition, or else a table or a paragraph.
    pub(crate) fn begin_bracket(&mut self, rest: LineRest<'a>) -> Result<(), AllocError>
        requires line { IsRead self.old.text.now rest }
        requires closed { self.old.leaf ≡ leaf.Closed }
        requires bare { self.old.bare ≡ false }
        ensures runs { OnOk result (BeginsBracket E.replacement rest.entry self.old self.new) }
        ensures text { self.new.text ≡ self.old.text }
    {
        if begins_no_definition(rest.words()) {
            return self.begin_text(rest);
        }
        let room = mem::replace(&mut self.room, String::new(self.alloc));
        let gathered = self.gather(rest, room)?;
        self.begin_gathered(rest, &gathered)?;
        self.room = gathered.text;
        Ok(())
    }

    /// Feeds a line after the first one of a link reference definition, of which `left` lines are left.
    pub(crate) fn feed_definition(
        &mut self,
        left: usize,
        rest: LineRest<'a>,
    ) -> Result<(), AllocError>
        requires line { IsRead self.old.text.now rest }
        requires is { self.old.leaf ≡ leaf.Definition left }
        requires bare { self.old.bare ≡ false }
        ensures runs { OnOk result (FeedsLeaf E.replacement rest.entry self.old self.new) }
        ensures text { self.new.text ≡ self.old.text }
    {
        if left == 0 {
            return self.begin_anew(rest);
        }
        self.leaf = OpenLeaf::Definition(left - 1);
        Ok(())
    }
}
