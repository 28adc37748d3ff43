//! Searches for the ends of comments, declarations, CDATA sections and processing instructions (CommonMark 6.6).

ghost use Rattle.std.specs.Prelude.{◌≡◌, ℕ, ◌+◌, ◌-◌, ◌≤◌, length, drop, Some, None, IfSome, MatchOption, option_copied, option_map};
ghost use Rattle.std.specs.Str.{IsUtf8, IsCharBoundary};
ghost use Rattle.cmark_grammar.specs.InlineHtml.{after_comment, opened_in, find_with, comment_find, processing_find};
ghost use Rattle.cmark_scan_bytes.specs.Guards.{AreMarks, AreWithin, OpensWith, ReachesWithin, closed_by, guarded, kind_in, mark_of, marked, may_pass};
ghost use Rattle.cmark_scan_bytes.specs.Shown.{shown_find};
ghost use Rattle.cmark_scan_bytes.specs.declared.inline_html.MarkupKind.TheVariants as kind;

use crate::bytes::is_letter;
use crate::find::{after_first_of, after_start_of};

/// The result of a search for the end of a piece of inline HTML.
#[derive(Clone, Copy)]
pub struct HtmlFind {
    /// The byte offset after the first closer. `None` if there is no closer, or nothing opens here.
    pub end: Option<usize>,
    /// The number of bytes that the search passed from its place on. It is up to `end`, or all bytes if there is no closer. If nothing
    /// opens, or if a mark shows that there is no closer, it is at most seven.
    pub passed: usize,
}

/// The markup that `<!` or `<?` opens.
#[derive(Clone, Copy)]
enum MarkupKind {
    Comment,
    Processing,
    Declaration,
    Cdata,
}

/// The marks that searches in one text share, one for each kind. If the mark of a kind is beyond the place of a search, no closer of
/// that kind follows that place.
#[derive(Clone, Copy, Default)]
pub struct HtmlScanGuard {
    /// The mark of CDATA sections.
    pub cdata: usize,
    /// The mark of processing instructions.
    pub processing: usize,
    /// The mark of declarations.
    pub declaration: usize,
    /// The mark of comments.
    pub comment: usize,
}

/// The bytes after a comment, if `bytes` follow its `<!--` and it is closed.
fn after_comment(bytes: &[u8]) -> Option<&[u8]>
    ensures value { option_copied result ≡ after_comment bytes.now }
    ensures within { IfSome result (λ rest. length rest.now ≤ length bytes.now) }
{
    if let Some(rest) = after_start_of(b">", bytes) {
        return Some(rest);
    }
    if let Some(rest) = after_start_of(b"->", bytes) {
        return Some(rest);
    }
    after_first_of(b"-->", bytes)
}

/// The result of a search from a place of the bytes: `opened` is the markup there, if any, and the bytes after its closer, if any.
fn find_with(bytes: &[u8], ix: usize, opened: Option<Option<&[u8]>>) -> HtmlFind
    requires place { ix ≤ length bytes.now }
    requires within { IfSome opened
        (λ closed. IfSome closed (λ rest. length rest.now ≤ length bytes.now - ix)) }
    ensures value { shown_find result
        ≡ find_with bytes.now ix (option_map option_copied opened.entry) }
    ensures reaches { ReachesWithin bytes.now ix result }
{
    let left = bytes.len() - ix;
    match opened {
        Some(Some(rest)) => HtmlFind {
            end: Some(bytes.len() - rest.len()),
            passed: left - rest.len(),
        },
        Some(None) => HtmlFind {
            end: None,
            passed: left,
        },
        None => HtmlFind {
            end: None,
            passed: left.min(7),
        },
    }
}

/// The kind of markup that `<!` opens, if any, with the bytes after its opening.
fn opening(bytes: &[u8]) -> Option<(MarkupKind, &[u8])>
    ensures kind { option_map (λ o. o.0) result ≡ kind_in bytes.entry.now }
    ensures opens { IfSome result (λ o. OpensWith o.0 bytes.entry.now o.1.now) }
    ensures value { opened_in bytes.entry.now ≡ option_map (λ o. closed_by o.0 o.1.now) result }
    ensures within { IfSome result (λ o. length o.1.now ≤ length bytes.entry.now) }
{
    if let Some(rest) = after_start_of(b"--", bytes) {
        return Some((MarkupKind::Comment, rest));
    }
    if let [first, rest @ ..] = bytes {
        if is_letter(*first) {
            return Some((MarkupKind::Declaration, rest));
        }
    }
    let rest = after_start_of(b"[CDATA[", bytes)?;
    Some((MarkupKind::Cdata, rest))
}

/// The bytes after the closer, if `bytes` follow the opening of markup of this kind and it is closed.
fn after_closer(kind: MarkupKind, bytes: &[u8]) -> Option<&[u8]>
    ensures value { option_copied result ≡ closed_by kind bytes.entry.now }
    ensures within { IfSome result (λ rest. length rest.now ≤ length bytes.entry.now) }
{
    match kind {
        MarkupKind::Comment => after_comment(bytes),
        MarkupKind::Processing => after_first_of(b"?>", bytes),
        MarkupKind::Declaration => after_first_of(b">", bytes),
        MarkupKind::Cdata => after_first_of(b"]]>", bytes),
    }
}

impl HtmlScanGuard {
    /// The mark of a kind.
    fn mark(&self, kind: MarkupKind) -> usize
        ensures { result ≡ mark_of self.now kind }
    {
        match kind {
            MarkupKind::Comment => self.comment,
            MarkupKind::Processing => self.processing,
            MarkupKind::Declaration => self.declaration,
            MarkupKind::Cdata => self.cdata,
        }
    }

    /// Moves the mark of a kind.
    fn set(&mut self, kind: MarkupKind, place: usize)
        ensures { self.new ≡ marked kind place self.old }
    {
        match kind {
            MarkupKind::Comment => self.comment = place,
            MarkupKind::Processing => self.processing = place,
            MarkupKind::Declaration => self.declaration = place,
            MarkupKind::Cdata => self.cdata = place,
        }
    }

    /// Searches for the end of markup of this kind, which opens at a place of the bytes; `inside` are the bytes after its opening.
    fn find(&mut self, kind: MarkupKind, bytes: &[u8], ix: usize, inside: &[u8]) -> HtmlFind
        requires place { ix ≤ length bytes.now }
        requires opens { OpensWith kind (drop ix bytes.now) inside.now }
        requires inside { length inside.now ≤ length bytes.now - ix }
        requires marks { AreMarks bytes.now ix self.old }
        ensures value { shown_find result
            ≡ guarded self.old (Some kind) bytes.now ix
            (find_with bytes.now ix (Some (closed_by kind inside.now))) }
        ensures end { result.end ≡ (find_with bytes.now ix (Some (closed_by kind inside.now))).end }
        ensures reaches { ReachesWithin bytes.now ix result }
        ensures marks { (later : ℕ) → ix ≤ later → AreMarks bytes.now later self.new }
        ensures bound { AreWithin (length bytes.now) self.old
            → AreWithin (length bytes.now) self.new }
        ensures pays { (width : ℕ) → length bytes.now - ix ≤ width
            → MatchOption result.end
            (result.passed + may_pass width (length bytes.now) self.new ≤ 7 + may_pass width
            (length bytes.now) self.old) (λ end. self.new ≡ self.old) }
    {
        if ix < self.mark(kind) {
            return find_with(bytes, ix, None);
        }
        let closed = after_closer(kind, inside);
        if closed.is_none() {
            self.set(kind, bytes.len());
        }
        find_with(bytes, ix, Some(closed))
    }
}

/// The end of the comment, declaration or CDATA section whose `<!` ends at byte offset `ix` (CommonMark 6.6). A comment is closed at once
/// by `>` or `->`, else by the first `-->`. A declaration begins with a letter and is closed by the first `>`. A CDATA section is closed by
/// the first `]]>`. If nothing opens, or if the mark of its kind is beyond `ix`, `end` is `None` and `passed` counts at most the next seven
/// bytes. If there is no closer, the mark is set to the end of the bytes.
pub fn scan_inline_html_comment(bytes: &[u8], ix: usize, guard: &mut HtmlScanGuard) -> HtmlFind
    requires place { ix ≤ length bytes.now }
    requires marks { AreMarks bytes.now ix guard.old }
    ensures value { shown_find result
        ≡ guarded guard.old (kind_in (drop ix bytes.now)) bytes.now ix (comment_find bytes.now ix) }
    ensures end { result.end ≡ (comment_find bytes.now ix).end }
    ensures reaches { ReachesWithin bytes.now ix result }
    ensures boundary { IsUtf8 bytes.now → IfSome result.end (IsCharBoundary bytes.now) }
    ensures marks { (later : ℕ) → ix ≤ later → AreMarks bytes.now later guard.new }
    ensures bound { AreWithin (length bytes.now) guard.old
        → AreWithin (length bytes.now) guard.new }
    ensures pays { (width : ℕ) → length bytes.now - ix ≤ width
        → MatchOption result.end
        (result.passed + may_pass width (length bytes.now) guard.new ≤ 7 + may_pass width
        (length bytes.now) guard.old) (λ end. guard.new ≡ guard.old) }
{
    match opening(&bytes[ix..]) {
        Some((kind, inside)) => guard.find(kind, bytes, ix, inside),
        None => find_with(bytes, ix, None),
    }
}

/// The end of the processing instruction whose `<?` ends at byte offset `ix`: after the first `?>` (CommonMark 6.6). If its mark is beyond
/// `ix`, `end` is `None` and `passed` counts at most the next seven bytes. If there is no closer, the mark is set to the end of the bytes.
pub fn scan_inline_html_processing(bytes: &[u8], ix: usize, guard: &mut HtmlScanGuard) -> HtmlFind
    requires place { ix ≤ length bytes.now }
    requires marks { AreMarks bytes.now ix guard.old }
    ensures value { shown_find result
        ≡ guarded guard.old (Some kind.Processing) bytes.now ix (processing_find bytes.now ix) }
    ensures end { result.end ≡ (processing_find bytes.now ix).end }
    ensures reaches { ReachesWithin bytes.now ix result }
    ensures boundary { IsUtf8 bytes.now → IfSome result.end (IsCharBoundary bytes.now) }
    ensures marks { (later : ℕ) → ix ≤ later → AreMarks bytes.now later guard.new }
    ensures bound { AreWithin (length bytes.now) guard.old
        → AreWithin (length bytes.now) guard.new }
    ensures pays { (width : ℕ) → length bytes.now - ix ≤ width
        → MatchOption result.end
        (result.passed + may_pass width (length bytes.now) guard.new ≤ 7 + may_pass width
        (length bytes.now) guard.old) (λ end. guard.new ≡ guard.old) }
{
    guard.find(MarkupKind::Processing, bytes, ix, &bytes[ix..])
}
