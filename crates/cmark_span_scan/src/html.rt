//! Inline HTML (CommonMark 6.6).

ghost use Rattle.std.specs.Prelude.{◌≡◌, ℕ, ◌+◌, ◌<◌, ◌≤◌, true, length, drop, IfSome, MatchOption, option_map};
ghost use Rattle.std.specs.Str.{IsCharBoundary};
ghost use Rattle.cmark_grammar.specs.InlineHtml.{after_inline_html, after_markup};
ghost use Rattle.cmark_grammar.specs.Letters.{starts};
ghost use Rattle.cmark_scan_bytes.specs.Guards.{AreMarks, may_pass};

use cmark_scan_bytes::{
    HtmlFind, HtmlScanGuard, scan_inline_html_comment, scan_inline_html_processing, scan_tag,
};

/// Whether the bytes begin with `prefix`.
fn starts(bytes: &[u8], prefix: &[u8]) -> bool
    ensures value { result ≡ starts prefix.now bytes.now }
    ensures within { result ≡ true → length prefix.now ≤ length bytes.now }
{
    bytes.starts_with(prefix)
}

/// The end of the inline HTML that begins at the offset `at` of the text (CommonMark 6.6): an open or a closing tag, a comment, a
/// processing instruction, a declaration or a CDATA section.
pub fn inline_html(text: &str, at: usize) -> Option<usize>
    requires { IsCharBoundary text.now at }
    ensures value { option_map (λ end. drop end text.now) result
        ≡ after_inline_html (drop at text.now) }
    ensures further { IfSome result (λ end. at < end) }
    ensures ends { IfSome result (λ end. IsCharBoundary text.now end) }
{
    let bytes = text.as_bytes();
    let rest = &bytes[at..];
    if starts(rest, b"<!") {
        return scan_inline_html_comment(bytes, at + 2, &mut HtmlScanGuard::default()).end;
    }
    if starts(rest, b"<?") {
        return scan_inline_html_processing(bytes, at + 2, &mut HtmlScanGuard::default()).end;
    }
    let following = scan_tag(rest)?;
    Some(bytes.len() - following.len())
}

/// The search for a comment, processing instruction, declaration or CDATA section whose `<` is at the offset `at` of the text (CommonMark
/// 6.6). If the first two bytes open no such construct, no byte is passed. `guard` has the marks of this text.
pub fn inline_markup(text: &str, at: usize, guard: &mut HtmlScanGuard) -> HtmlFind
    requires place { IsCharBoundary text.now at }
    requires marks { AreMarks text.now (at + 2) guard.old }
    ensures value { option_map (λ end. drop end text.now) result.end
        ≡ after_markup (drop at text.now) }
    ensures passed { IfSome result.end (λ end. at + 2 + result.passed ≡ end) }
    ensures ends { IfSome result.end (λ end. IsCharBoundary text.now end) }
    ensures marks { (later : ℕ) → at + 2 ≤ later → AreMarks text.now later guard.new }
    ensures few { result.passed ≤ length text.now }
    ensures pays { MatchOption result.end
        (result.passed + may_pass (length text.now) (length text.now) guard.new ≤ 7 + may_pass
        (length text.now) (length text.now) guard.old) (λ end. guard.new ≡ guard.old) }
{
    let bytes = text.as_bytes();
    let rest = &bytes[at..];
    if starts(rest, b"<!") {
        return scan_inline_html_comment(bytes, at + 2, guard);
    }
    if starts(rest, b"<?") {
        return scan_inline_html_processing(bytes, at + 2, guard);
    }
    HtmlFind {
        end: None,
        passed: 0,
    }
}
