//! The bytes that may begin a span.

ghost use Rattle.std.specs.Prelude.{◌≡◌, ◌&&◌, ◌||◌, ◌+◌, ◌≤◌, ◌<◌, ℕ, Bool, List, length, drop, take, slice_index};
ghost use Rattle.std.specs.List.{position_or_len};
ghost use Rattle.cmark_search.specs.Sets.{in_rows};
ghost use Rattle.cmark_grammar.specs.Answers.{Lookup};
ghost use Rattle.cmark_grammar.specs.Options.{Options as Extensions};
ghost use Rattle.cmark_inline.specs.PlainStretches.{IsSetOf, StandUpTo};
ghost use Rattle.cmark_values.specs.Shown.{shown_options};

use bitflags::Flags;
use cmark_search::AsciiSet;
use cmark_text::Options;
use std::marker::Model;

/// The rows of the bytes that are always special: line feed, carriage return, `*`, `_`, `&`, backslash, `[`, `]`, `<`, `!` and backtick.
const ALWAYS: [u8; 16] = [64, 4, 0, 0, 0, 0, 4, 0, 0, 0, 5, 32, 40, 33, 0, 32];

/// The rows of `|`.
const PIPE: [u8; 16] = [0, 0, 0, 0, 0, 0, 0, 0, 0, 0, 0, 0, 128, 0, 0, 0];

/// The rows of `~`.
const TILDE: [u8; 16] = [0, 0, 0, 0, 0, 0, 0, 0, 0, 0, 0, 0, 0, 0, 128, 0];

/// The rows of `^`.
const CARET: [u8; 16] = [0, 0, 0, 0, 0, 0, 0, 0, 0, 0, 0, 0, 0, 0, 32, 0];

/// The rows of `=`.
const EQUALS: [u8; 16] = [0, 0, 0, 0, 0, 0, 0, 0, 0, 0, 0, 0, 0, 8, 0, 0];

/// The rows of `$`, `{` and `}`.
const FORMULAS: [u8; 16] = [0, 0, 0, 0, 4, 0, 0, 0, 0, 0, 0, 128, 0, 128, 0, 0];

/// The rows of `.`, `-`, `"` and `'`.
const PUNCTUATION: [u8; 16] = [0, 0, 4, 0, 0, 0, 0, 4, 0, 0, 0, 0, 0, 4, 4, 0];

/// The bytes that may begin a span, an escape, an entity or a line ending (CommonMark 6). A contract sees the rows of the set.
#[derive(Clone, Copy)]
pub struct SpecialBytes {
    set: AsciiSet,
}

impl Model for SpecialBytes {
    ghost Value = { List ℕ };

    ghost view = { λ special. special.set };

    ghost inverse = { λ rows. record { set = rows } };
}

/// Joins `set` and the bytes of `rows` if these are special; otherwise returns `set`.
#[inline(always)]
fn with_rows(set: AsciiSet, are_special: bool, rows: [u8; 16]) -> AsciiSet
    ensures { (byte : ℕ)
        → in_rows result byte ≡ ((are_special && in_rows rows byte) || in_rows set byte) }
{
    if are_special {
        AsciiSet::of_rows(rows).union(&set)
    } else {
        set
    }
}

/// The special bytes for these options. A table of all 256 bytes would cost more than all other work on a short text.
pub fn special_bytes(options: Options) -> SpecialBytes
    ensures { IsSetOf (shown_options options) result }
{
    let smart = with_rows(
        AsciiSet::of_rows([0; 16]),
        options.contains(Options::ENABLE_SMART_PUNCTUATION),
        PUNCTUATION,
    );
    let math = with_rows(smart, options.contains(Options::ENABLE_MATH), FORMULAS);
    let highlight = with_rows(math, options.contains(Options::ENABLE_HIGHLIGHT), EQUALS);
    let superscript = with_rows(
        highlight,
        options.contains(Options::ENABLE_SUPERSCRIPT),
        CARET,
    );
    let tildes = options.contains(Options::ENABLE_STRIKETHROUGH)
        || options.contains(Options::ENABLE_SUBSCRIPT);
    let struck = with_rows(superscript, tildes, TILDE);
    let tables = with_rows(struck, options.contains(Options::ENABLE_TABLES), PIPE);
    SpecialBytes {
        set: AsciiSet::of_rows(ALWAYS).union(&tables),
    }
}

impl SpecialBytes {
    /// The offset of the next special byte from the offset `from` on; the length of `bytes` if there is none. The bytes before it are literal,
    /// except blanks with which a line break begins. `ahead` begins with `bytes` and may continue after them. The further bytes do not change
    /// the result, but let the search examine sixteen bytes at once.
    #[inline(always)]
    pub fn next(&self, bytes: &[u8], ahead: &[u8], from: usize) -> usize
        requires from { from ≤ length bytes.now }
        requires ahead { take (length bytes.now) ahead.now ≡ bytes.now }
        ensures value { result ≡ from + position_or_len (in_rows self.now) (drop from bytes.now) }
        ensures plain { (options : Extensions) (lookup : Lookup) (is_cell : Bool)
            → IsSetOf options self.now → StandUpTo options lookup is_cell bytes.now from result }
        ensures following { from ≤ result }
        ensures within { result ≤ length bytes.now }
        ensures ascii { result < length bytes.now → slice_index bytes.now result < 128 }
    {
        self.set.find_within(ahead, from, bytes.len())
    }
}
