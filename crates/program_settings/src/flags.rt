//! The flags of the command line, one for each option of the parser.

ghost use Rattle.std.specs.Prelude.{◌≡◌, false, map, option_map, IfOk};
ghost use Rattle.clap.specs.Words.{app_of, first_of, found_of, rows_of, rule_of};
ghost use Rattle.program_settings.specs.Line.{bits_given, flag_rule, is_given, option_bits, shown_flag, with_flag_rules};

use bitflags::Flags;
use clap::{Arg, ArgAction, ArgMatches, Command};
use cmark_values::Options;
use std::alloc::{AllocError, Global};

/// A flag: `--name` sets the bits of `option`.
#[derive(Clone, Copy)]
pub struct LineFlag {
    name: &'static str,
    option: Options,
    help: &'static str,
}

/// All flags, in the order of the help.
pub static FLAGS: [LineFlag; 18] = [
    LineFlag {
        name: "tables",
        option: Options::ENABLE_TABLES,
        help: "Tables",
    },
    LineFlag {
        name: "footnotes",
        option: Options::ENABLE_FOOTNOTES,
        help: "Footnotes as GitHub reads them",
    },
    LineFlag {
        name: "strikethrough",
        option: Options::ENABLE_STRIKETHROUGH,
        help: "Strikethrough: ~a~ and ~~a~~",
    },
    LineFlag {
        name: "tasklists",
        option: Options::ENABLE_TASKLISTS,
        help: "Task list items: - [x] a",
    },
    LineFlag {
        name: "smart-punctuation",
        option: Options::ENABLE_SMART_PUNCTUATION,
        help: "Typographic quotes, dashes and ellipses",
    },
    LineFlag {
        name: "heading-attributes",
        option: Options::ENABLE_HEADING_ATTRIBUTES,
        help: "Attributes of headings: # a {#b .c}",
    },
    LineFlag {
        name: "yaml-metadata",
        option: Options::ENABLE_YAML_STYLE_METADATA_BLOCKS,
        help: "Metadata between lines of ---",
    },
    LineFlag {
        name: "plus-metadata",
        option: Options::ENABLE_PLUSES_DELIMITED_METADATA_BLOCKS,
        help: "Metadata between lines of +++",
    },
    LineFlag {
        name: "old-footnotes",
        option: Options::ENABLE_OLD_FOOTNOTES,
        help: "Footnotes in the older style",
    },
    LineFlag {
        name: "math",
        option: Options::ENABLE_MATH,
        help: "Formulas: $a$ and $$a$$",
    },
    LineFlag {
        name: "gfm",
        option: Options::ENABLE_GFM,
        help: "Alerts alone: > [!NOTE]",
    },
    LineFlag {
        name: "definition-list",
        option: Options::ENABLE_DEFINITION_LIST,
        help: "Definition lists: a title, and definitions after :",
    },
    LineFlag {
        name: "superscript",
        option: Options::ENABLE_SUPERSCRIPT,
        help: "Superscript: ^a^",
    },
    LineFlag {
        name: "subscript",
        option: Options::ENABLE_SUBSCRIPT,
        help: "Subscript: ~a~",
    },
    LineFlag {
        name: "wikilinks",
        option: Options::ENABLE_WIKILINKS,
        help: "Links by name: [[page]]",
    },
    LineFlag {
        name: "highlight",
        option: Options::ENABLE_HIGHLIGHT,
        help: "Highlighted text: ==a==",
    },
    LineFlag {
        name: "email-autolinks",
        option: Options::ENABLE_EMAIL_AUTOLINKS,
        help: "Links by email address: <a@b.c>",
    },
    LineFlag {
        name: "github",
        option: Options::GITHUB,
        help: "What GitHub reads: --tables --footnotes --strikethrough --tasklists --gfm --email-autolinks",
    },
];

/// The command with an argument for each of these flags.
pub fn with_flags<'a>(
    alloc: Global,
    mut command: Command<'a>,
    flags: &[LineFlag],
) -> Result<Command<'a>, AllocError>
    ensures { IfOk result
        (λ c. app_of c ≡ with_flag_rules (app_of command.entry) (map shown_flag flags.now)) }
{
    for flag in flags {
        command = command.arg(flag_arg(alloc, *flag))?;
    }
    Ok(command)
}

/// The argument of a flag, which takes no value.
fn flag_arg<'a>(alloc: Global, flag: LineFlag) -> Arg<'a>
    ensures rule { rule_of result ≡ flag_rule flag.name.now }
    ensures local { result.global ≡ false }
{
    Arg::new(alloc, flag.name)
        .long(flag.name)
        .action(ArgAction::SetTrue)
        .help(flag.help)
}

/// Returns the first value of an argument, as a text.
pub fn text_given<'a>(matches: &ArgMatches<'a>, name: &str) -> Option<&'a str>
    ensures { option_map (λ s. s.now) result ≡ first_of name.now (rows_of (found_of matches.now)) }
{
    matches.get_str(name)
}

/// Returns whether the words had the flag `--name`.
///
/// The value of a flag is the text `true` or `false`. It is compared as a text, since the clauses of `get_flag` leave open
/// its result for any other text.
pub fn has_flag(matches: &ArgMatches<'_>, name: &str) -> bool
    ensures { result ≡ is_given name.now (rows_of (found_of matches.now)) }
{
    matches!(text_given(matches, name), Some("true"))
}

/// Returns the options of the given flags that the words had.
pub fn options_given(matches: &ArgMatches<'_>, flags: &[LineFlag]) -> Options
    ensures { option_bits result
        ≡ bits_given (map shown_flag flags.now) (rows_of (found_of matches.now)) }
{
    let mut options = Options::empty();
    for flag in flags {
        if has_flag(matches, flag.name) {
            options.insert(flag.option);
        }
    }
    options
}
