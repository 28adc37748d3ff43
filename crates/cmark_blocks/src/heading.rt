//! Headings, and the underlines of paragraphs (CommonMark 4.2 and 4.3).

ghost use Rattle.std.specs.Prelude.{◌≡◌, List, ℕ, Some, OnOk, IfOk, Bool};
ghost use Rattle.cmark_values.specs.Shown.{shown_options, level_number, text_bytes};
ghost use Rattle.cmark_grammar.specs.Characters.{number_sign};
ghost use Rattle.cmark_grammar.specs.Attributes.{attributes_of};
ghost use Rattle.cmark_grammar.specs.BlockDocument.{Heading};
ghost use Rattle.cmark_block_model.specs.Drawing.{Drawing, unbraced};
ghost use Rattle.cmark_builder.specs.Drawn.{Draws};
ghost use Rattle.cmark_items.specs.ItemNodes.{shape, kind_of};
ghost use Rattle.cmark_items.specs.Tables.{defined};
ghost use Rattle.cmark_leaf_nodes.specs.Contents.{AreRead, content_columns as setext_columns};
ghost use Rattle.cmark_leaf_nodes.specs.TextColumns.{IsRead};
ghost use Rattle.cmark_blocks.specs.Setext.{FindsIf};
ghost use Rattle.cmark_grammar.specs.SetextAttributes.{setext_attributes};
ghost use Rattle.cmark_line_rules.specs.declared.line_rest.LineRest.{LineRest};
ghost use Rattle.cmark_grammar.specs.Columns.{bytes_of};
ghost use Rattle.cmark_grammar.specs.Tokens.{attribute_columns, content_columns};
ghost use Rattle.cmark_line_rules.specs.Rests.{row_of};
ghost use Rattle.cmark_grammar.specs.Leaves.{run};
ghost use Rattle.cmark_grammar.specs.Rows.{words_of};
ghost use Rattle.cmark_grammar.specs.Openings.{AtxHeading};

use crate::state::{OpenLeaf, Pass};
use bitflags::Flags;
use cmark_builder::Builder;
use cmark_items::ItemBody;
use cmark_leaf_nodes::{
    SetextAttributes, cut_lines, draw_heading, draw_last_lines, find_attributes,
    find_setext_attributes,
};
use cmark_line_rules::LineRest;
use cmark_values::{CowStr, EntityLookup, HeadingLevel, Options};
use std::alloc::{AllocError, Global};

/// Whether attributes of headings are read.
pub(crate) fn reads_attributes(options: Options) -> bool
    ensures { result ≡ (shown_options options).heading_attributes }
{
    options.contains(Options::ENABLE_HEADING_ATTRIBUTES)
}

/// The body of a heading with these words between the braces of its attributes, which are kept, if there are any.
pub(crate) fn heading_body<'a>(
    builder: &mut Builder<'a>,
    level: HeadingLevel,
    words: CowStr<'a>,
) -> Result<ItemBody, AllocError>
    ensures kind { IfOk result
        (λ body. kind_of builder.new.allocations.texts (shape body)
        ≡ Some (Heading (level_number level) (attributes_of (text_bytes words.entry)))) }
    ensures drawn { OnOk result
        ((text : List ℕ) (d : Drawing) → Draws text builder.old d → Draws text builder.new d) }
    ensures tree { builder.new.tree ≡ builder.old.tree }
    ensures definitions { defined builder.new.allocations ≡ defined builder.old.allocations }
{
    if words.as_str().is_empty() {
        return Ok(ItemBody::Heading(level));
    }
    let index = builder.allocations.allocate_heading(words)?;
    Ok(ItemBody::AttributedHeading(level, index))
}

/// The attributes of a setext heading with these lines, if it has some and they are read. The string `room` is reused for the lines.
fn setext_attributes(
    room: &mut String,
    alloc: Global,
    attributes: bool,
    text: &str,
    before: &[LineRest<'_>],
    last: LineRest<'_>,
) -> Result<Option<SetextAttributes>, AllocError>
    requires before { AreRead text.now before.now }
    requires last { IsRead text.now last }
    ensures { IfOk result (FindsIf attributes before.now last.entry) }
{
    if !attributes {
        return Ok(None);
    }
    find_setext_attributes(room, alloc, text, before, last)
}

/// The body of a setext heading with these attributes, which are removed from its drawn text.
fn setext_body(
    builder: &mut Builder<'_>,
    level: HeadingLevel,
    found: Option<SetextAttributes>,
) -> Result<ItemBody, AllocError>
    ensures kind { IfOk result
        (λ body. (attributes : Bool) (before : List LineRest) (last : LineRest)
        → FindsIf attributes before last found
        → kind_of builder.new.allocations.texts (shape body)
        ≡ Some
        (Heading (level_number level)
        (setext_attributes attributes (setext_columns before last)))) }
    ensures drawn { OnOk result
        ((attributes : Bool) (before : List LineRest) (last : LineRest)
        → FindsIf attributes before last found → (text : List ℕ) (d : Drawing)
        → Draws text builder.old d
        → Draws text builder.new
        (unbraced text attributes (setext_columns before last) d.here d.up)) }
    ensures definitions { defined builder.new.allocations ≡ defined builder.old.allocations }
{
    let Some(SetextAttributes { words, place }) = found else {
        return Ok(ItemBody::Heading(level));
    };
    cut_lines(builder, place)?;
    heading_body(builder, level, CowStr::from_string(words)?)
}

impl<'a, E: EntityLookup> Pass<'a, E> {
    ghost use Rattle.cmark_blocks.specs.Steps.{BeginsLeaf, MakesHeading};
    ghost use Rattle.cmark_blocks.specs.declared.state.OpenLeaf.TheVariants as leaf;

    /// The words between the braces of a heading's attributes; empty if it has no attributes, or they are not read.
    fn attribute_words(&self, attributes: bool, rest: LineRest<'a>) -> &'a str
        requires { IsRead self.now.text.now rest }
        ensures { result.now
            ≡ bytes_of
            (attribute_columns attributes
            (content_columns (run number_sign (words_of (row_of rest.entry))) (row_of rest.entry))) }
    {
        if !attributes {
            return "";
        }
        match find_attributes(rest) {
            Some((from, to)) => &self.text[from..to],
            None => "",
        }
    }

    /// Adds an ATX heading, which is a line of its own (CommonMark 4.2).
    pub(crate) fn begin_heading(
        &mut self,
        level: HeadingLevel,
        rest: LineRest<'a>,
    ) -> Result<(), AllocError>
        requires line { IsRead self.old.text.now rest }
        requires level { level_number level ≡ run number_sign (words_of (row_of rest)) }
        ensures runs { OnOk result
            (BeginsLeaf E.replacement (AtxHeading (level_number level)) 0 rest.entry self.old
            self.new) }
        ensures text { self.new.text ≡ self.old.text }
    {
        let attributes = reads_attributes(self.options);
        let words = self.attribute_words(attributes, rest);
        self.begin_block();
        let body = heading_body(&mut self.builder, level, CowStr::Borrowed(words))?;
        self.builder.open(rest.words_begin(), body)?;
        draw_heading(&mut self.builder, rest, attributes)?;
        self.builder.close(rest.line_end());
        Ok(())
    }

    /// Makes the paragraph a heading, which ends with its underline.
    pub(crate) fn underline(
        &mut self,
        from: usize,
        last: LineRest<'a>,
        level: HeadingLevel,
        rest: LineRest<'a>,
    ) -> Result<(), AllocError>
        requires is { self.old.leaf ≡ leaf.Paragraph from last }
        ensures runs { OnOk result
            (MakesHeading E.replacement (level_number level) from last.entry rest.entry self.old
            self.new) }
        ensures text { self.new.text ≡ self.old.text }
    {
        let found = setext_attributes(
            &mut self.room,
            self.alloc,
            reads_attributes(self.options),
            self.text,
            &self.blank_lines,
            last,
        )?;
        draw_last_lines(&mut self.builder, from, last)?;
        let body = setext_body(&mut self.builder, level, found)?;
        self.builder.close_as(rest.line_end(), body);
        self.release_title();
        self.inner = self.inner.without_title();
        self.blank_lines.clear();
        self.leaf = OpenLeaf::Closed;
        Ok(())
    }
}
