//! Lists and definition lists: their beginnings, their continuation, and their ends (CommonMark 5.3).

ghost use Rattle.std.specs.Prelude.{◌≡◌, not, OnOk, unwrap_or, option_map};
ghost use Rattle.cmark_items.specs.ItemNodes.{is_tight, list_number, shape, Element};
ghost use Rattle.cmark_grammar.specs.Derivation.{list_kind};
ghost use Rattle.cmark_block_model.specs.BlockPass.{title_released, ended, block_begun, list_begun, item_begun, title_made, definition_after};
ghost use Rattle.cmark_blocks.specs.Titles.{text_block_begun};
ghost use Rattle.cmark_blocks.specs.Shown.{shown_list};

use crate::siblings::{DEFINITION_DELIMITER, OpenList, Title};
use crate::state::Pass;
use bitflags::Flags;
use cmark_items::{ItemBody, ListFlags};
use cmark_line_rules::ItemStart;
use cmark_values::EntityLookup;
use std::alloc::AllocError;

/// The flags of a list whose end is known.
fn list_flags(loose: bool) -> ListFlags
    ensures { is_tight result ≡ not loose }
{
    if loose {
        ListFlags::empty()
    } else {
        ListFlags::IS_TIGHT
    }
}

impl OpenList {
    /// The list as an item of the tree.
    fn body(self) -> ItemBody
        ensures { shape result
            ≡ Element
            (list_kind self.delimiter (list_number self.delimiter self.number) (not self.loose)) }
    {
        let flags = list_flags(self.loose);
        if self.delimiter == DEFINITION_DELIMITER {
            ItemBody::DefinitionList(flags)
        } else {
            ItemBody::List(flags, self.delimiter, self.number)
        }
    }
}

impl<'a, E: EntityLookup> Pass<'a, E> {
    ghost use Rattle.cmark_blocks.specs.Steps.{Keeps, LeavesTheRest, Steps};

    /// Moves a paragraph that was drawn in a definition list, and is not a title, after that list, which is closed.
    pub(crate) fn release_title(&mut self)
        ensures runs { Steps E.replacement self.old self.new
            (λ p. record p { drawing = title_released p.inner.title p.drawing }) }
        ensures inner { self.new.inner ≡ self.old.inner }
        ensures outer { self.new.outer ≡ self.old.outer }
        ensures others { LeavesTheRest self.old self.new }
    {
        if let Some(list) = self.inner.list_around() {
            self.builder.release_last(list.end, list.body());
        }
    }

    /// Closes the open list, if any. A paragraph after the last definition of a definition list is not a title.
    pub(crate) fn close_list(&mut self)
        ensures runs { Steps E.replacement self.old self.new
            (λ p. record p { drawing = ended p.inner p.drawing }) }
        ensures outer { self.new.outer ≡ self.old.outer }
        ensures others { LeavesTheRest self.old self.new }
    {
        self.release_title();
        if let Some(list) = self.inner.open_list() {
            self.builder.close_as(list.end, list.body());
        }
    }

    /// Begins a block that is not an item.
    #[inline(always)]
    pub(crate) fn begin_block(&mut self)
        ensures runs { Steps E.replacement self.old self.new block_begun }
        ensures others { LeavesTheRest self.old self.new }
    {
        if self.inner.has_list() {
            self.begin_block_after_list();
            return;
        }
        self.inner.add_block();
    }

    /// Closes the open list, if any, and begins a block that is not an item.
    #[inline(never)]
    fn begin_block_after_list(&mut self)
        ensures runs { Steps E.replacement self.old self.new block_begun }
        ensures others { LeavesTheRest self.old self.new }
    {
        self.close_list();
        self.inner = self.inner.with_block();
    }

    /// Begins a paragraph, which may be a title of the open definition list.
    #[inline(always)]
    pub(crate) fn begin_text_block(&mut self)
        ensures runs { Steps E.replacement self.old self.new text_block_begun }
        ensures others { LeavesTheRest self.old self.new }
    {
        if self.inner.has_list() {
            self.begin_text_after_list();
            return;
        }
        self.inner.add_paragraph();
    }

    /// Begins a paragraph, which may be a title: an open definition list stays open, and any other list is closed.
    #[inline(never)]
    fn begin_text_after_list(&mut self)
        ensures runs { Steps E.replacement self.old self.new text_block_begun }
        ensures others { LeavesTheRest self.old self.new }
    {
        if self.inner.definitions().is_some() {
            self.inner = self.inner.with_paragraph();
            return;
        }
        self.close_list();
        self.inner = self.inner.with_paragraph();
    }

    /// Begins a list at this byte offset with this item.
    fn begin_list(&mut self, item: ItemStart, start: usize) -> Result<(), AllocError>
        requires number { list_number item.delimiter (unwrap_or item.number 0) ≡ item.number }
        ensures runs { OnOk result
            (Steps E.replacement self.old self.new (list_begun item.delimiter item.number start)) }
        ensures keeps { Keeps self.old self.new }
    {
        self.begin_block();
        let number = item.number.unwrap_or(0);
        let list = OpenList {
            delimiter: item.delimiter,
            number,
            loose: false,
            end: start,
        };
        self.builder.open(
            start,
            OpenList {
                loose: true,
                ..list
            }
            .body(),
        )?;
        self.inner = self.inner.with_list(list);
        Ok(())
    }

    /// Continues the open list with this item, if it is of the list's kind; else begins a list at this byte offset.
    pub(crate) fn join_list(&mut self, item: ItemStart, start: usize) -> Result<(), AllocError>
        requires number { list_number item.delimiter (unwrap_or item.number 0) ≡ item.number }
        ensures runs { OnOk result
            (Steps E.replacement self.old self.new
            (λ p. item_begun item.delimiter item.number start p p.inner.list)) }
        ensures keeps { Keeps self.old self.new }
    {
        match self.inner.list_of(item.delimiter) {
            Some(list) => {
                self.inner = self.inner.with_item_of(list);
                Ok(())
            }
            None => { self.begin_list(item, start) }
        }
    }

    /// Makes the paragraph before a definition, which begins at this byte offset, its title, in the definition list that was open before
    /// it, or in a new one around it.
    fn make_title(&mut self, title: Title, start: usize) -> Result<(), AllocError>
        ensures runs { OnOk result
            (Steps E.replacement self.old self.new
            (title_made (option_map shown_list title.list) title.parted start)) }
        ensures keeps { Keeps self.old self.new }
    {
        if title.list.is_some() {
            self.builder.title_last();
            self.inner = self.inner.after_title(title, start);
            return Ok(());
        }
        let around = ItemBody::DefinitionList(list_flags(true));
        self.builder.enclose_title(around)?;
        self.inner = self.inner.after_title(title, start);
        Ok(())
    }

    /// Begins a definition at this byte offset, after its title or another definition.
    pub(crate) fn join_definitions(&mut self, width: usize, start: usize) -> Result<(), AllocError>
        ensures runs { OnOk result
            (Steps E.replacement self.old self.new (λ p. definition_after p.inner.title start p)) }
        ensures keeps { Keeps self.old self.new }
    {
        match self.inner.title() {
            Some(title) => { self.make_title(title, start) }
            None => {
                let item = ItemStart {
                    delimiter: DEFINITION_DELIMITER,
                    number: None,
                    width,
                };
                self.join_list(item, start)
            }
        }
    }
}
