//! The kinds of spans.

ghost use Rattle.std.specs.Prelude.{◌≡◌, ◌≤◌};
ghost use Rattle.cmark_grammar.specs.Spans.{span_width};
ghost use Rattle.cmark_emphasis.specs.Shown.{shown_kind};

/// The delimiters around a span (CommonMark 6.2, GFM 6.5).
#[derive(Clone, Copy, PartialEq, Eq)]
pub enum SpanKind {
    /// One `*` or `_` on each side.
    Emphasis,
    /// Two `*` or `_` on each side.
    Strong,
    /// One `~` on each side.
    SingleTilde,
    /// Two `~` on each side.
    DoubleTilde,
    /// One `^` on each side.
    Caret,
    /// Two `=` on each side.
    DoubleEquals,
}

impl SpanKind {
    /// The number of bytes that open this span, which is also the number of bytes that close it.
    pub fn width(self) -> usize
        ensures value { result ≡ span_width (shown_kind self) }
        ensures least { 1 ≤ result }
        ensures most { result ≤ 2 }
    {
        match self {
            SpanKind::Strong | SpanKind::DoubleTilde | SpanKind::DoubleEquals => 2,
            SpanKind::Emphasis | SpanKind::SingleTilde | SpanKind::Caret => 1,
        }
    }
}
