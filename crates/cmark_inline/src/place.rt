//! Byte offsets in a leaf's text.

ghost use Rattle.std.specs.Prelude.{◌≡◌, ◌⊎◌, ◌==◌, true, false, ◌<◌, ◌≤◌, ◌+◌, ◌-◌, ℕ, drop, take, reverse, chars, length, slice_index, IfSome, Some, option_map};
ghost use Rattle.std.specs.List.{prefix_len};
ghost use Rattle.std.specs.Str.{IsCharBoundary};
ghost use Rattle.cmark_grammar.specs.Characters.{backtick};
ghost use Rattle.cmark_grammar.specs.Autolinks.{autolink_in};
ghost use Rattle.cmark_grammar.specs.CodeSpans.{backticks};
ghost use Rattle.cmark_grammar.specs.Columns.{is_blank_byte};
ghost use Rattle.cmark_grammar.specs.InlineTokens.{first_of};
ghost use Rattle.cmark_grammar.specs.LabelsOverLines.{piped};
ghost use Rattle.cmark_grammar.specs.Letters.{first_is, starts};
ghost use Rattle.cmark_grammar.specs.LinkDefinitions.{after_leading_blanks};
ghost use Rattle.cmark_grammar.specs.Tokens.{is_punctuation};
ghost use Rattle.cmark_leaf_text.specs.Reads.{IsPart};
ghost use Rattle.cmark_values.specs.Shown.{shown_options};
ghost use Rattle.cmark_inline.specs.Stands.{IsCursor, Moves};
ghost use Rattle.cmark_inline.specs.Tokens.{read_on, shown_autolink};
ghost use Rattle.cmark_inline.specs.declared.state.InlineState.{InlineState};

use crate::step::Cursor;
use bitflags::Flags;
use cmark_scan_bytes::bytes::is_blank;
use cmark_scan_bytes::scan_autolink;
use cmark_text::Options;

// The offset after the bytes from `at` on that equal the byte at `at`.
pub(crate) fn run_end(text: &str, at: usize) -> usize
    requires within { at < length text.now }
    requires ascii { slice_index text.now at < 128 }
    ensures value { result
        ≡ at + prefix_len (λ b. b == slice_index text.now at) (drop at text.now) }
    ensures further { at < result }
    ensures boundary { IsCharBoundary text.now result }
    ensures ascii { (k : ℕ) → at ≤ k → k < result → slice_index text.now k < 128 }
{
    let bytes = text.as_bytes();
    let byte = bytes[at];
    let mut end = at + 1;
    while end < bytes.len() && bytes[end] == byte {
        end += 1;
    }
    end
}

// The offset where the pending blanks directly before the cursor begin; that of the cursor if there are none.
pub(crate) fn before_blanks(text: &str, here: Cursor) -> usize
    requires { IsCursor text.now here }
    ensures blanks { (k : ℕ) → result ≤ k → k < here.at
        → is_blank_byte (slice_index text.now k) ≡ true }
    ensures first { here.pending < result
        → is_blank_byte (slice_index text.now (result - 1)) ≡ false }
    ensures following { here.pending ≤ result }
    ensures before { result ≤ here.at }
    ensures boundary { IsCharBoundary text.now result }
{
    let bytes = text.as_bytes();
    let mut text_end = here.at;
    while text_end > here.pending && is_blank(bytes[text_end - 1]) {
        text_end -= 1;
    }
    text_end
}

// The offset after the blanks at `at`; `at` itself if there are none.
fn after_leading_blanks(text: &str, at: usize) -> usize
    requires { IsCharBoundary text.now at }
    ensures value { drop result text.now ≡ after_leading_blanks (drop at text.now) }
    ensures order { at ≤ result }
    ensures boundary { IsCharBoundary text.now result }
{
    let bytes = text.as_bytes();
    let mut end = at;
    while end < bytes.len() && is_blank(bytes[end]) {
        end += 1;
    }
    end
}

// The offset where the text of the backticks at the cursor begins, if they open no code span. It includes an escaped backtick directly
// before them, if that is pending.
pub(crate) fn text_start(text: &str, here: Cursor) -> usize
    requires here { here.at < length text.now }
    requires cursor { IsCursor text.now here }
    ensures value { (result ≡ here.at)
        ⊎
        ((result ≡ here.pending) × (here.pending + 1 ≡ here.at)
        × (slice_index text.now here.pending ≡ backtick)) }
    ensures escaped { here.pending + 1 ≡ here.at → slice_index text.now here.pending ≡ backtick
        → result ≡ here.pending }
{
    if here.pending < here.at
        && here.at - here.pending == 1
        && text.as_bytes()[here.pending] == b'`'
    {
        return here.pending;
    }
    here.at
}

// The offset after the ASCII byte at `at`.
#[tactic(auto, using(std::proofs::lemmas::Str::lead_after_ascii))]
pub(crate) fn following(text: &str, at: usize) -> usize
    requires place { IsCharBoundary text.now at }
    requires within { at < length text.now }
    requires ascii { slice_index text.now at < 128 }
    ensures value { result ≡ at + 1 }
    ensures part { IsPart text.now at result }
{
    at + 1
}

// The cursor after the ASCII byte at the cursor, which becomes pending text.
#[tactic(auto, using(std::proofs::lemmas::Str::lead_after_ascii))]
pub(crate) fn pass(text: &str, here: Cursor) -> Cursor
    requires cursor { IsCursor text.now here }
    requires here { here.at < length text.now }
    requires ascii { slice_index text.now here.at < 128 }
    ensures cursor { IsCursor text.now result }
    ensures pending { result.pending ≡ here.pending }
    ensures further { here.at < result.at }
    ensures at { result.at ≡ here.at + 1 }
{
    Cursor {
        pending: here.pending,
        at: here.at + 1,
    }
}

// The offset `size` bytes after `at`. Returns `None` if `size` is 0, or if this offset is no character boundary of the text.
pub(crate) fn following_end(text: &str, at: usize, size: usize) -> Option<usize>
    requires { IsCharBoundary text.now at }
    ensures part { IfSome result (IsPart text.now at) }
    ensures value { IfSome result (λ end. end ≡ at + size) }
    ensures found { 0 < size → IsCharBoundary text.now (at + size) → result ≡ Some (at + size) }
{
    if size > text.len() - at {
        return None;
    }
    let end = at + size;
    if end > at && text.is_char_boundary(end) {
        Some(end)
    } else {
        None
    }
}

// Returns `end` if it is after `at` and a character boundary of the text.
pub(crate) fn part_end(text: &str, at: usize, end: usize) -> Option<usize>
    requires { IsCharBoundary text.now at }
    ensures part { IfSome result (IsPart text.now at) }
    ensures same { IfSome result (λ place. place ≡ end) }
    ensures found { at < end → IsCharBoundary text.now end → result ≡ Some end }
{
    if end > at && text.is_char_boundary(end) {
        Some(end)
    } else {
        None
    }
}

// If a later line of the text begins at `at`, the offset after its leading blanks; otherwise `at`.
fn words_from(text: &str, at: usize) -> usize
    requires { IsCharBoundary text.now at }
    ensures value { result ≡ read_on text.now at }
    ensures order { at ≤ result }
    ensures boundary { IsCharBoundary text.now result }
{
    if at == 0 || !matches!(text.as_bytes()[at - 1], b'\n' | b'\r') {
        return at;
    }
    after_leading_blanks(text, at)
}

// If a later line of the text begins at the cursor `next`, the cursor after its leading blanks; otherwise `next`.
#[inline(always)]
pub(crate) fn onto_words(text: &str, next: Cursor) -> Cursor
    requires boundary { IsCharBoundary text.now next.pending }
    requires same { next.pending ≡ next.at }
    ensures order { next.at ≤ result.at }
    ensures pending { result.pending ≡ result.at }
    ensures at { result.at ≡ read_on text.now next.at }
    ensures moves { (from : ℕ) (state : InlineState) → Moves text.now from state next
        → Moves text.now from state result }
{
    let words = words_from(text, next.pending);
    Cursor {
        pending: words,
        at: words,
    }
}

// The offset after the autolink whose `<` is at `at` (CommonMark 6.5); `None` if there is none. With the option for email autolinks, its
// address may be an email address.
#[tactic(auto, using(std::proofs::lemmas::Str::lead_after_ascii))]
pub(crate) fn autolink_end(options: Options, text: &str, at: usize) -> Option<usize>
    requires place { IsCharBoundary text.now at }
    requires within { at < length text.now }
    requires ascii { slice_index text.now at < 128 }
    ensures value { option_map (shown_autolink text.now at) result
        ≡ autolink_in (shown_options options).email_autolinks (drop (at + 1) text.now) }
    ensures whole { IfSome result (IsPart text.now at) }
    ensures inside { IfSome result (λ end. IsPart text.now (at + 1) (end - 1)) }
{
    let emails = options.contains(Options::ENABLE_EMAIL_AUTOLINKS);
    let end = scan_autolink(emails, text, at + 1)?.end;
    if end > at + 2 && text.is_char_boundary(end - 1) {
        Some(end)
    } else {
        None
    }
}

// The character that ends at `at`; `None` at the start of the text.
#[inline]
pub(crate) fn character_before(text: &str, at: usize) -> Option<char>
    requires { IsCharBoundary text.now at }
    ensures { result ≡ first_of (reverse (chars (take at text.now))) }
{
    match text[..at].chars().next_back() {
        None => None,
        Some(character) => Some(character),
    }
}

// The character that begins at `at`; `None` at the end of the text.
#[inline]
pub(crate) fn character_at(text: &str, at: usize) -> Option<char>
    requires { IsCharBoundary text.now at }
    ensures { result ≡ first_of (chars (drop at text.now)) }
{
    text[at..].chars().next()
}

// Whether ASCII punctuation follows the byte at `at`. A backslash at `at` then escapes it (CommonMark 2.4).
pub(crate) fn is_escape(text: &str, at: usize) -> bool
    requires { at < length text.now }
    ensures value { result ≡ first_is is_punctuation (drop (at + 1) text.now) }
    ensures within { result ≡ true → at + 1 < length text.now }
    ensures ascii { result ≡ true → slice_index text.now (at + 1) < 128 }
{
    let bytes = text.as_bytes();
    if at + 1 >= bytes.len() {
        return false;
    }
    bytes[at + 1].is_ascii_punctuation()
}

// Whether `byte`, a byte of ASCII, follows the byte at `at`.
pub(crate) fn is_followed_by(text: &str, at: usize, byte: u8) -> bool
    requires within { at < length text.now }
    ensures within { result ≡ true → at + 1 < length text.now }
    ensures byte { result ≡ true → slice_index text.now (at + 1) ≡ byte }
    ensures value { result ≡ first_is (λ b. b == byte) (drop (at + 1) text.now) }
{
    let bytes = text.as_bytes();
    if at + 1 >= bytes.len() {
        return false;
    }
    bytes[at + 1] == byte
}

// The bytes of the text from `at` on; empty if the text ends before `at`.
#[inline(always)]
fn bytes_from(text: &str, at: usize) -> &[u8]
    ensures { result.now ≡ drop at text.entry.now }
{
    text.as_bytes().get(at..).unwrap_or(&[])
}

// Whether the text has a backslash and then a pipe at `at`.
pub(crate) fn is_pipe_escape(text: &str, at: usize) -> bool
    ensures value { result ≡ starts piped (drop at text.now) }
    ensures within { result ≡ true → at + 1 < length text.now }
    ensures ascii { result ≡ true → slice_index text.now (at + 1) < 128 }
{
    match bytes_from(text, at) {
        [b'\\', b'|', ..] => true,
        _ => false,
    }
}

// Whether the text has a single backtick at `at`.
pub(crate) fn is_lone_backtick(text: &str, at: usize) -> bool
    ensures { result ≡ backticks (drop at text.now) == 1 }
{
    match bytes_from(text, at) {
        [b'`', b'`', ..] => false,
        [b'`', ..] => true,
        _ => false,
    }
}
