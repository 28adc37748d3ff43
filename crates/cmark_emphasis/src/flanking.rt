//! Whether a delimiter run can open, and whether it can close, by the characters beside it (CommonMark 6.2).

ghost use Rattle.std.specs.Prelude.{◌≡◌, ◌&&◌, ◌||◌, not};
ghost use Rattle.cmark_values.specs.Shown.{shown_options};
ghost use Rattle.cmark_grammar.specs.Flanking.{is_unicode_white_space, is_unicode_punctuation, is_white_space_there, is_punctuation_there};
ghost use Rattle.cmark_grammar.specs.Flanking as grammar;
ghost use Rattle.ucd_category.specs.GeneralCategory.{general_category_eq};
ghost use Rattle.ucd_category.specs.GeneralCategoryGroup.{in_group};
ghost use Rattle.ucd_category.specs.declared.GeneralCategory.TheVariants as GeneralCategory;
ghost use Rattle.ucd_category.specs.declared.GeneralCategoryGroup.TheVariants as Group;
ghost use Rattle.cmark_emphasis.specs.Ascii as ascii;
ghost use Rattle.cmark_emphasis.specs.Shown.{shown_flanking};

use bitflags::Flags;
use cmark_values::Options;
use ucd_category::{GeneralCategory, GeneralCategoryGroup};

/// Whether a delimiter run can open, and whether it can close.
#[derive(Clone, Copy)]
pub struct Flanking {
    /// It can open.
    pub opens: bool,
    /// It can close.
    pub closes: bool,
}

/// The character on one side of a run. An edge counts as white space.
#[derive(Clone, Copy)]
pub struct Side {
    /// White space, or an edge.
    pub white_space: bool,
    /// Punctuation.
    pub punctuation: bool,
}

/// Whether the character is white space in ASCII.
fn is_ascii_white_space(c: char) -> bool
    ensures { result ≡ ascii.is_ascii_white_space c }
{
    c == ' ' || c == '\t' || c == '\n' || c == '\u{c}' || c == '\r'
}

/// Whether the category is Zs.
fn is_space_separator(category: GeneralCategory) -> bool
    ensures { result ≡ general_category_eq category GeneralCategory.SpaceSeparator }
{
    category == GeneralCategory::SpaceSeparator
}

/// Whether the category is one of those in P or S.
fn is_mark_or_symbol(category: GeneralCategory) -> bool
    ensures { result ≡ (in_group Group.Punctuation category || in_group Group.Symbol category) }
{
    GeneralCategoryGroup::Punctuation.contains(category)
        || GeneralCategoryGroup::Symbol.contains(category)
}

/// Whether the character is Unicode white space (CommonMark 2.1).
fn is_white_space(c: char) -> bool
    ensures { result ≡ is_unicode_white_space c }
{
    if c.is_ascii() {
        return is_ascii_white_space(c);
    }
    is_space_separator(GeneralCategory::for_char(c))
}

/// Whether the character is Unicode punctuation (CommonMark 2.1).
#[tactic(auto, unfolding(cmark_grammar::specs::Flanking::is_unicode_punctuation))]
fn is_punctuation(c: char) -> bool
    ensures { result ≡ is_unicode_punctuation c }
{
    if c.is_ascii() {
        return c.is_ascii_punctuation();
    }
    is_mark_or_symbol(GeneralCategory::for_char(c))
}

/// The properties of a character beside a run; `None` is an edge.
#[inline(always)]
pub fn side_of(neighbor: Option<char>) -> Side
    ensures { result
        ≡
        record { white_space = is_white_space_there neighbor; punctuation = is_punctuation_there neighbor } }
{
    match neighbor {
        None => Side {
            white_space: true,
            punctuation: false,
        },
        Some(c) => Side {
            white_space: is_white_space(c),
            punctuation: is_punctuation(c),
        },
    }
}

/// Whether the side `inner` has no white space, and has punctuation only if the side `outer` has white space or punctuation.
fn flanks(inner: Side, outer: Side) -> bool
    ensures { result
        ≡
        (not inner.white_space &&
        (not inner.punctuation || (outer.white_space || outer.punctuation))) }
{
    !inner.white_space && (!inner.punctuation || outer.white_space || outer.punctuation)
}

/// Whether `run_length` bytes `delimiter` are a delimiter run.
fn is_delimiter_run(options: Options, delimiter: u8, run_length: usize) -> bool
    ensures { result ≡ grammar.is_delimiter_run (shown_options options) delimiter run_length }
{
    match delimiter {
        b'*' | b'_' => run_length > 0,
        b'~' => {
            (options.contains(Options::ENABLE_STRIKETHROUGH)
                || options.contains(Options::ENABLE_SUBSCRIPT))
                && (run_length == 1 || run_length == 2)
        }
        b'^' => options.contains(Options::ENABLE_SUPERSCRIPT) && run_length == 1,
        b'=' => options.contains(Options::ENABLE_HIGHLIGHT) && run_length == 2,
        _ => false,
    }
}

/// Whether this run can also open and close inside a word.
fn is_intraword(options: Options, delimiter: u8, run_length: usize) -> bool
    ensures { result ≡ grammar.is_intraword (shown_options options) delimiter run_length }
{
    delimiter != b'_'
        && (delimiter != b'~' || run_length == 2 || options.contains(Options::ENABLE_SUBSCRIPT))
}

/// Whether `run_length` bytes `delimiter` between these characters can open, and whether they can close (CommonMark 6.2, rules 1 to 8; GFM
/// 6.5). `None` is the edge of a line, leaf or cell. Bytes that are not a delimiter run by the options, such as three tildes, can do
/// neither.
pub fn flanking_of(
    options: Options,
    delimiter: u8,
    run_length: usize,
    before: Option<char>,
    after: Option<char>,
) -> Flanking
    ensures { shown_flanking result
        ≡ grammar.flanking (shown_options options) delimiter run_length before after }
{
    if !is_delimiter_run(options, delimiter, run_length) {
        return Flanking {
            opens: false,
            closes: false,
        };
    }
    let left = side_of(before);
    let right = side_of(after);
    let is_left_flanking = flanks(right, left);
    let is_right_flanking = flanks(left, right);
    let intraword = is_intraword(options, delimiter, run_length);
    Flanking {
        opens: is_left_flanking && (intraword || !is_right_flanking || left.punctuation),
        closes: is_right_flanking && (intraword || !is_left_flanking || right.punctuation),
    }
}
