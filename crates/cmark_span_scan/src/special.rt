//! The bytes at which inline parsing stops (CommonMark 6).

ghost use Rattle.std.specs.Prelude.{◌≡◌, ◌≤◌, ◌∷◌, [], not, length};
ghost use Rattle.std.specs.List.{prefix_len, list_any};
ghost use Rattle.std.specs.Str.{IsCharBoundary};
ghost use Rattle.cmark_grammar.specs.Options as options;
ghost use Rattle.cmark_inline_model.specs.SpecialBytes.{is_always_special, is_special};
ghost use Rattle.cmark_values.specs.Shown.{shown_options};
ghost use Rattle.cmark_span_scan.specs.Special.{has_byte, IsTableOf, next_in, Iterates};

use bitflags::Flags;
use cmark_values::Options;

/// The bytes that are special under some options.
const MAY_BE_SPECIAL: &[u8; 22] = b"\n\r*_&\\[]<!`|~^=${}.-\"'";

/// What a callback returns for a special byte.
#[derive(Drop)]
pub enum LoopInstruction<T> {
    /// Continue after the byte and this number of further bytes.
    ContinueAndSkip(usize),
    /// End with this offset and this value.
    BreakAtWith(usize, T),
}

/// Whether a byte is special whatever the options are.
fn is_always_special(byte: u8) -> bool
    ensures { result ≡ is_always_special byte }
{
    matches!(
        byte,
        b'\n' | b'\r' | b'*' | b'_' | b'&' | b'\\' | b'[' | b']' | b'<' | b'!' | b'`'
    )
}

/// Whether a byte is special under these options.
fn is_special(options: Options, byte: u8) -> bool
    ensures { result ≡ is_special (shown_options options) byte }
{
    match byte {
        b'|' => options.contains(Options::ENABLE_TABLES),
        b'~' => {
            options.contains(Options::ENABLE_STRIKETHROUGH)
                || options.contains(Options::ENABLE_SUBSCRIPT)
        }
        b'^' => options.contains(Options::ENABLE_SUPERSCRIPT),
        b'=' => options.contains(Options::ENABLE_HIGHLIGHT),
        b'$' | b'{' | b'}' => options.contains(Options::ENABLE_MATH),
        b'.' | b'-' | b'"' | b'\'' => options.contains(Options::ENABLE_SMART_PUNCTUATION),
        _ => is_always_special(byte),
    }
}

/// The table of special bytes: true at line feed, carriage return, `*`, `_`, `&`, backslash, `[`, `]`, `<`, `!` and backtick. Options add
/// bytes: `|` with tables, `~` with strikethrough or subscript, `^` with superscript, `=` with highlight, `$`, `{` and `}` with math, and
/// `.`, `-` and both quotes with smart punctuation.
pub fn special_bytes(options: Options) -> [bool; 256]
    ensures { IsTableOf (shown_options options) result }
{
    let mut table = [false; 256];
    for byte in MAY_BE_SPECIAL {
        table[*byte as usize] = is_special(options, *byte);
    }
    table
}

/// Whether a byte is in the table.
#[inline]
fn has_byte(table: &[bool; 256], byte: u8) -> bool
    ensures { result ≡ has_byte table.now byte }
{
    table[byte as usize]
}

/// Whether one of four bytes is in the table.
#[inline(always)]
fn has_one(table: &[bool; 256], a: u8, b: u8, c: u8, d: u8) -> bool
    ensures { result ≡ list_any (has_byte table.now) (a ∷ b ∷ c ∷ d ∷ []) }
{
    has_byte(table, a) | has_byte(table, b) | has_byte(table, c) | has_byte(table, d)
}

/// The number of bytes before the first that is in the table; all of them if there is none. Eight bytes are looked at per step as long as
/// eight are left.
fn plain_size(table: &[bool; 256], bytes: &[u8]) -> usize
    ensures value { result ≡ prefix_len (λ b. not (has_byte table.now b)) bytes.now }
    ensures within { result ≤ length bytes.now }
{
    let mut passed = 0;
    let mut rest = bytes;
    while let [a, b, c, d, e, f, g, h, after @ ..] = rest {
        if has_one(table, *a, *b, *c, *d) || has_one(table, *e, *f, *g, *h) {
            break;
        }
        passed += 8;
        rest = after;
    }
    passed + front_size(table, rest)
}

/// Like `plain_size`, byte by byte.
fn front_size(table: &[bool; 256], bytes: &[u8]) -> usize
    ensures value { result ≡ prefix_len (λ b. not (has_byte table.now b)) bytes.now }
    ensures within { result ≤ length bytes.now }
{
    bytes
        .iter()
        .take_while(|byte| !has_byte(table, **byte))
        .count()
}

/// The offset of the first byte from `at` on that is in the table; the length if there is none. With the table of special bytes it is a
/// character boundary.
pub fn next_special(table: &[bool; 256], bytes: &[u8], at: usize) -> usize
    requires { at ≤ length bytes.now }
    ensures value { result ≡ next_in table.now bytes.now at }
    ensures within { result ≤ length bytes.now }
    ensures boundary { (o : options.Options) → IsTableOf o table.now
        → IsCharBoundary bytes.now result }
{
    at + plain_size(table, &bytes[at..])
}

/// Calls the callback for each byte from `ix` on that is in the table, in order, with its offset. `ContinueAndSkip(n)` skips `n` further
/// bytes; `BreakAtWith(end, value)` ends the iteration with that pair. If the callback never ends it, the result is the length and `None`.
pub fn iterate_special_bytes<T, F: FnMut(usize, u8) -> LoopInstruction<Option<T>>>(
    table: &[bool; 256],
    bytes: &[u8],
    ix: usize,
    mut callback: F,
) -> (usize, Option<T>)
    requires start { ix ≤ length bytes.now }
    requires callable { F.IsAlwaysCallable callback }
    ensures { Iterates F.step table.now bytes.now callback ix result.0 result.1 }
{
    let mut at = ix;
    loop {
        let place = next_special(table, bytes, at);
        if place == bytes.len() {
            return (place, None);
        }
        match callback(place, bytes[place]) {
            LoopInstruction::BreakAtWith(end, value) => return (end, value),
            LoopInstruction::ContinueAndSkip(skipped) => {
                at = (place + 1).saturating_add(skipped).min(bytes.len());
            }
        }
    }
}
