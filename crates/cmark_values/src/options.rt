//! Which rules beyond CommonMark are read.

ghost use Rattle.std.specs.Prelude.{⊤, ◌≡◌, ◌&&◌, not, [], ◌∷◌, codes};
ghost use Rattle.cmark_values.specs.Shown.{shown_options};

use bitflags::{Flag, Flags};

/// A set of rules beyond CommonMark. The calls of `bitflags::Flags`, such as `union` and `contains`, make and read it.
#[derive(Clone, Copy, Debug, PartialEq, Eq, PartialOrd, Ord)]
pub struct Options(u32);

impl Options {
    /// Tables (GFM 4.10).
    pub const ENABLE_TABLES: Options = Options(1 << 1);
    /// Footnotes in GitHub's form (this profile's own).
    pub const ENABLE_FOOTNOTES: Options = Options(1 << 2);
    /// Strikethrough (GFM 6.5).
    pub const ENABLE_STRIKETHROUGH: Options = Options(1 << 3);
    /// Task list items (GFM 5.3).
    pub const ENABLE_TASKLISTS: Options = Options(1 << 4);
    /// Typographic quotes, dashes and ellipses (this profile's own).
    pub const ENABLE_SMART_PUNCTUATION: Options = Options(1 << 5);
    /// Attributes of headings (this profile's own).
    pub const ENABLE_HEADING_ATTRIBUTES: Options = Options(1 << 6);
    /// Metadata blocks between lines of `---` (this profile's own).
    pub const ENABLE_YAML_STYLE_METADATA_BLOCKS: Options = Options(1 << 7);
    /// Metadata blocks between lines of `+++` (this profile's own).
    pub const ENABLE_PLUSES_DELIMITED_METADATA_BLOCKS: Options = Options(1 << 8);
    /// Footnotes in the original's older form; it includes the bit of `ENABLE_FOOTNOTES` (this profile's own).
    pub const ENABLE_OLD_FOOTNOTES: Options = Options((1 << 9) | (1 << 2));
    /// Formulas between `$` (this profile's own).
    pub const ENABLE_MATH: Options = Options(1 << 10);
    /// Alerts, block quotes with a tag such as `[!NOTE]` (this profile's own).
    pub const ENABLE_GFM: Options = Options(1 << 11);
    /// Definition lists (this profile's own).
    pub const ENABLE_DEFINITION_LIST: Options = Options(1 << 12);
    /// Superscript between `^` (this profile's own).
    pub const ENABLE_SUPERSCRIPT: Options = Options(1 << 13);
    /// Subscript between `~` (this profile's own).
    pub const ENABLE_SUBSCRIPT: Options = Options(1 << 14);
    /// Links such as `[[page]]` (this profile's own).
    pub const ENABLE_WIKILINKS: Options = Options(1 << 15);
    /// Highlighted text between `==` (this project's own).
    pub const ENABLE_HIGHLIGHT: Options = Options(1 << 16);
    /// Email addresses as autolinks (CommonMark 6.5).
    pub const ENABLE_EMAIL_AUTOLINKS: Options = Options(1 << 17);
    /// The rules that GitHub reads: tables, footnotes, strikethrough, task lists, alerts and email addresses as autolinks.
    pub const GITHUB: Options = Options(
        (1 << 1) | (1 << 2) | (1 << 3) | (1 << 4) | (1 << 11) | (1 << 17),
    );

    /// Whether footnotes are read in GitHub's form: `ENABLE_FOOTNOTES` is set, and the older form is not chosen.
    pub fn has_gfm_footnotes(&self) -> bool
        ensures { let options = shown_options self.now in result
            ≡ (options.footnotes && not options.old_footnotes) }
    {
        self.contains(Options::ENABLE_FOOTNOTES) && !self.contains(Options::ENABLE_OLD_FOOTNOTES)
    }
}

/// The options with their names.
const NAMED: [Flag<Options>; 17] = [
    Flag {
        name: "ENABLE_TABLES",
        value: Options::ENABLE_TABLES,
    },
    Flag {
        name: "ENABLE_FOOTNOTES",
        value: Options::ENABLE_FOOTNOTES,
    },
    Flag {
        name: "ENABLE_STRIKETHROUGH",
        value: Options::ENABLE_STRIKETHROUGH,
    },
    Flag {
        name: "ENABLE_TASKLISTS",
        value: Options::ENABLE_TASKLISTS,
    },
    Flag {
        name: "ENABLE_SMART_PUNCTUATION",
        value: Options::ENABLE_SMART_PUNCTUATION,
    },
    Flag {
        name: "ENABLE_HEADING_ATTRIBUTES",
        value: Options::ENABLE_HEADING_ATTRIBUTES,
    },
    Flag {
        name: "ENABLE_YAML_STYLE_METADATA_BLOCKS",
        value: Options::ENABLE_YAML_STYLE_METADATA_BLOCKS,
    },
    Flag {
        name: "ENABLE_PLUSES_DELIMITED_METADATA_BLOCKS",
        value: Options::ENABLE_PLUSES_DELIMITED_METADATA_BLOCKS,
    },
    Flag {
        name: "ENABLE_OLD_FOOTNOTES",
        value: Options::ENABLE_OLD_FOOTNOTES,
    },
    Flag {
        name: "ENABLE_MATH",
        value: Options::ENABLE_MATH,
    },
    Flag {
        name: "ENABLE_GFM",
        value: Options::ENABLE_GFM,
    },
    Flag {
        name: "ENABLE_DEFINITION_LIST",
        value: Options::ENABLE_DEFINITION_LIST,
    },
    Flag {
        name: "ENABLE_SUPERSCRIPT",
        value: Options::ENABLE_SUPERSCRIPT,
    },
    Flag {
        name: "ENABLE_SUBSCRIPT",
        value: Options::ENABLE_SUBSCRIPT,
    },
    Flag {
        name: "ENABLE_WIKILINKS",
        value: Options::ENABLE_WIKILINKS,
    },
    Flag {
        name: "ENABLE_HIGHLIGHT",
        value: Options::ENABLE_HIGHLIGHT,
    },
    Flag {
        name: "ENABLE_EMAIL_AUTOLINKS",
        value: Options::ENABLE_EMAIL_AUTOLINKS,
    },
];

impl Flags for Options {
    type Bits = u32;

    ghost exact = { ⊤ };

    ghost table = { (codes "ENABLE_TABLES", 2) ∷
        (codes "ENABLE_FOOTNOTES", 4) ∷
        (codes "ENABLE_STRIKETHROUGH", 8) ∷
        (codes "ENABLE_TASKLISTS", 16) ∷
        (codes "ENABLE_SMART_PUNCTUATION", 32) ∷
        (codes "ENABLE_HEADING_ATTRIBUTES", 64) ∷
        (codes "ENABLE_YAML_STYLE_METADATA_BLOCKS", 128) ∷
        (codes "ENABLE_PLUSES_DELIMITED_METADATA_BLOCKS", 256) ∷
        (codes "ENABLE_OLD_FOOTNOTES", 516) ∷
        (codes "ENABLE_MATH", 1024) ∷
        (codes "ENABLE_GFM", 2048) ∷
        (codes "ENABLE_DEFINITION_LIST", 4096) ∷
        (codes "ENABLE_SUPERSCRIPT", 8192) ∷
        (codes "ENABLE_SUBSCRIPT", 16384) ∷
        (codes "ENABLE_WIKILINKS", 32768) ∷
        (codes "ENABLE_HIGHLIGHT", 65536) ∷
        (codes "ENABLE_EMAIL_AUTOLINKS", 131072) ∷
        [] };

    ghost set_of = { λ options. options.0 };

    fn flags<'a>() -> &'a [Flag<Options>] {
        &NAMED
    }

    fn bits(&self) -> u32 {
        self.0
    }

    fn from_bits_retain(bits: u32) -> Options {
        Options(bits)
    }
}
