//! The spans of a pair of delimiter runs, from the inside (CommonMark 6.2, rules 13 and 14).

ghost use Rattle.std.specs.Prelude.{◌≡◌, ◌∷◌, ◌-◌, ◌<◌, ◌≤◌};
ghost use Rattle.cmark_grammar.specs.Emphasis.{kinds_of, emphasis_kinds, tilde_kinds, equals_kinds};
ghost use Rattle.cmark_grammar.specs.Spans.{span_width};
ghost use Rattle.cmark_emphasis.specs.Shown.{shown_kind};

use crate::span::SpanKind;

/// The innermost span of a pair with `left` bytes `*` or `_` on each side.
fn innermost_emphasis(left: usize) -> SpanKind
    requires { 0 < left }
    ensures kinds { emphasis_kinds left
        ≡ shown_kind result ∷ emphasis_kinds (left - span_width (shown_kind result)) }
    ensures fits { span_width (shown_kind result) ≤ left }
{
    if left == 1 {
        return SpanKind::Emphasis;
    }
    SpanKind::Strong
}

/// The innermost span of a pair with `left` bytes `~` on each side.
fn innermost_tilde(left: usize) -> SpanKind
    requires { 0 < left }
    ensures kinds { tilde_kinds left
        ≡ shown_kind result ∷ tilde_kinds (left - span_width (shown_kind result)) }
    ensures fits { span_width (shown_kind result) ≤ left }
{
    if left == 1 {
        return SpanKind::SingleTilde;
    }
    SpanKind::DoubleTilde
}

/// The innermost span of a pair with `left` bytes `=` on each side; `left` is 2.
fn innermost_equals(left: usize) -> SpanKind
    requires { 0 < left }
    ensures kinds { equals_kinds left
        ≡ shown_kind result ∷ equals_kinds (left - span_width (shown_kind result)) }
    ensures fits { span_width (shown_kind result) ≤ left }
{
    if left == 1 {
        return SpanKind::Emphasis;
    }
    SpanKind::DoubleEquals
}

/// The innermost span of a pair with `left` bytes `delimiter` on each side.
pub fn innermost(delimiter: u8, left: usize) -> SpanKind
    requires { 0 < left }
    ensures kinds { kinds_of delimiter left
        ≡ shown_kind result ∷ kinds_of delimiter (left - span_width (shown_kind result)) }
    ensures fits { span_width (shown_kind result) ≤ left }
{
    if delimiter == b'~' {
        return innermost_tilde(left);
    }
    if delimiter == b'^' {
        return SpanKind::Caret;
    }
    if delimiter == b'=' {
        return innermost_equals(left);
    }
    innermost_emphasis(left)
}
