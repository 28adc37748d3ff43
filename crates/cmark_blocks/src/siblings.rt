//! The blocks of a container so far, and the list of the last one, if it is an item (CommonMark 5.3).

ghost use Rattle.std.specs.Prelude.{◌≡◌, ◌||◌, IfSome, None, is_some, option_map, true};
ghost use Rattle.cmark_block_model.specs.BlockPass.{siblings_with_block, siblings_with_paragraph, siblings_with_item, siblings_after_item, definitions_in, place_of};
ghost use Rattle.cmark_grammar.specs.Places.{is_after_title};
ghost use Rattle.cmark_block_model.specs.OpenBlocks.{no_siblings};
ghost use Rattle.cmark_blocks.specs.Titles.{list_around, untitled, with_open, with_title};
ghost use Rattle.cmark_blocks.specs.Shown.{shown_list, shown_siblings, shown_title, list_of};

/// A list that may get further items, or titles and definitions.
#[derive(Clone, Copy)]
pub(crate) struct OpenList {
    /// The number of the first item; 0 for a bullet.
    pub number: u64,
    /// The end of its last item, a byte offset of the text.
    pub end: usize,
    /// The bullet, or the byte after the number; in a definition list the marker of definitions, `:`.
    pub delimiter: u8,
    /// Whether it is known to be loose.
    pub loose: bool,
}

/// The state before a paragraph that a definition may make a title (this profile's own).
#[derive(Clone, Copy)]
pub(crate) struct Title {
    /// The definition list that was open: the paragraph is drawn in it, and it is still open.
    pub list: Option<OpenList>,
    /// Whether a blank line separated two blocks.
    pub parted: bool,
}

/// The last block of a container.
#[derive(Clone, Copy)]
pub(crate) enum LastBlock {
    /// A paragraph, and whether a blank line separated two blocks before it.
    Paragraph { parted: bool },
    /// Another block, or none.
    Other,
}

/// The blocks of a container so far. A text may have an open container for each of its bytes, so an open list and the list around a
/// paragraph, which exclude each other, have one field.
#[derive(Clone, Copy)]
pub(crate) struct Siblings {
    /// The definition list that was open before the last block, if that is a paragraph: the paragraph is drawn in it, and it is still open.
    /// Otherwise the list of the last block, if that is an item or a definition.
    pub list: Option<OpenList>,
    pub last: LastBlock,
    /// Whether there is a block, a blank line, or only blanks after the container's marker.
    pub has_line: bool,
    /// Whether a blank line is at the end. Blanks after the container's marker do not count.
    pub blank: bool,
    /// Whether a blank line comes before a block, other than an item of its list.
    pub parted: bool,
}

/// The marker of definitions, as the character of their list.
pub(crate) const DEFINITION_DELIMITER: u8 = b':';

impl Siblings {
    /// No blocks yet.
    pub(crate) fn none() -> Siblings
        ensures { shown_siblings result ≡ no_siblings }
    {
        Siblings {
            has_line: false,
            blank: false,
            parted: false,
            list: None,
            last: LastBlock::Other,
        }
    }

    /// With another block, which is not an item of an open list.
    pub(crate) fn with_block(self) -> Siblings
        ensures { shown_siblings result ≡ siblings_with_block (shown_siblings self) }
    {
        Siblings {
            has_line: true,
            blank: false,
            parted: self.parted || self.blank,
            list: None,
            last: LastBlock::Other,
        }
    }

    /// With another block, which is not an item, if no list is open.
    #[inline(always)]
    pub(crate) fn add_block(&mut self)
        requires { (shown_siblings self.old).list ≡ None }
        ensures { shown_siblings self.new ≡ siblings_with_block (shown_siblings self.old) }
    {
        self.list = None;
        self.last = LastBlock::Other;
        self.parted = self.parted || self.blank;
        self.has_line = true;
        self.blank = false;
    }

    /// With another block, a paragraph. An open definition list stays open, for the paragraph may be a title in it.
    pub(crate) fn with_paragraph(self) -> Siblings
        ensures { shown_siblings result ≡ siblings_with_paragraph (shown_siblings self) }
    {
        Siblings {
            list: self.definitions(),
            last: LastBlock::Paragraph {
                parted: self.parted,
            },
            ..self.with_block()
        }
    }

    /// With another block, a paragraph, if no list is open.
    #[inline(always)]
    pub(crate) fn add_paragraph(&mut self)
        requires { (shown_siblings self.old).list ≡ None }
        ensures { shown_siblings self.new ≡ siblings_with_paragraph (shown_siblings self.old) }
    {
        let parted = self.parted;
        self.list = None;
        self.last = LastBlock::Paragraph { parted };
        self.parted = parted || self.blank;
        self.has_line = true;
        self.blank = false;
    }

    /// Whether a list is open, or a paragraph is drawn in a definition list.
    #[inline(always)]
    pub(crate) fn has_list(&self) -> bool
        ensures { result
            ≡
            (is_some (shown_siblings self.now).list || is_some
            (list_around (shown_siblings self.now).title)) }
    {
        self.list.is_some()
    }

    /// The open list, if any.
    pub(crate) fn open_list(self) -> Option<OpenList>
        ensures { option_map shown_list result ≡ (shown_siblings self).list }
    {
        match self.last {
            LastBlock::Paragraph { .. } => None,
            LastBlock::Other => self.list,
        }
    }

    /// The state before the last block, if that is a paragraph.
    pub(crate) fn title(self) -> Option<Title>
        ensures { option_map shown_title result ≡ (shown_siblings self).title }
    {
        match self.last {
            LastBlock::Paragraph { parted } => Some(Title {
                list: self.list,
                parted,
            }),
            LastBlock::Other => None,
        }
    }

    /// The open definition list, if any.
    pub(crate) fn definitions(self) -> Option<OpenList>
        ensures { option_map shown_list result ≡ definitions_in (shown_siblings self).list }
    {
        self.list_of(DEFINITION_DELIMITER)
    }

    /// The definition list in which the last block is drawn, if that is a paragraph and such a list was open before it.
    pub(crate) fn list_around(self) -> Option<OpenList>
        ensures { option_map shown_list result ≡ list_around (shown_siblings self).title }
    {
        match self.last {
            LastBlock::Paragraph { .. } => self.list,
            LastBlock::Other => None,
        }
    }

    /// Whether a definition may follow the last block: it is a paragraph, or another definition.
    pub(crate) fn may_define(self) -> bool
        ensures { result ≡ is_after_title (place_of (shown_siblings self)) }
    {
        self.title().is_some() || self.definitions().is_some()
    }

    /// The open list, if it has this character.
    pub(crate) fn list_of(self, delimiter: u8) -> Option<OpenList>
        ensures list { option_map shown_list result ≡ list_of delimiter (shown_siblings self).list }
        ensures open { IfSome result (λ list. is_some (shown_siblings self).list ≡ true) }
    {
        match self.open_list() {
            Some(list) if list.delimiter == delimiter => Some(list),
            _ => None,
        }
    }

    /// With the last block, a paragraph, as the title of a definition that begins at this byte offset. It continues the definition list
    /// that was open before it, or begins one.
    pub(crate) fn after_title(self, title: Title, start: usize) -> Siblings
        ensures { shown_siblings result
            ≡ with_title (option_map shown_list title.list) title.parted start
            (shown_siblings self) }
    {
        let (open, parted) = match title.list {
            Some(list) => (list, title.parted),
            None => {
                let list = OpenList {
                    delimiter: DEFINITION_DELIMITER,
                    number: 0,
                    loose: false,
                    end: start,
                };
                (list, self.parted)
            }
        };
        Siblings {
            blank: false,
            parted,
            list: Some(OpenList {
                loose: open.loose || self.blank,
                ..open
            }),
            last: LastBlock::Other,
            ..self
        }
    }

    /// Without the state before the last block, which became another block than a paragraph.
    pub(crate) fn without_title(self) -> Siblings
        ensures { shown_siblings result ≡ untitled (shown_siblings self) }
    {
        Siblings {
            list: self.open_list(),
            last: LastBlock::Other,
            ..self
        }
    }

    /// With this list as the open one.
    pub(crate) fn with_list(self, list: OpenList) -> Siblings
        ensures { shown_siblings result ≡ with_open (shown_list list) (shown_siblings self) }
    {
        Siblings {
            list: Some(list),
            last: LastBlock::Other,
            ..self
        }
    }

    /// With another item of this list, which is the open one.
    pub(crate) fn with_item_of(self, list: OpenList) -> Siblings
        requires { is_some (shown_siblings self).list ≡ true }
        ensures { shown_siblings result
            ≡ siblings_with_item (shown_list list) (shown_siblings self) }
    {
        Siblings {
            blank: false,
            list: Some(OpenList {
                loose: list.loose || self.blank,
                ..list
            }),
            ..self
        }
    }

    /// With the last item, which ended at this byte offset with these blocks in it.
    pub(crate) fn after_item(self, inside: Siblings, end: usize) -> Siblings
        ensures { shown_siblings result
            ≡ siblings_after_item end (shown_siblings inside) (shown_siblings self) }
    {
        let list = match self.open_list() {
            Some(list) => Some(OpenList {
                loose: list.loose || inside.parted,
                end,
                ..list
            }),
            None => self.list,
        };
        Siblings {
            blank: inside.blank,
            list,
            ..self
        }
    }
}
