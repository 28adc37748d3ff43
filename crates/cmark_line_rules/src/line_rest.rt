//! The rest of a line (CommonMark 2.1 and 2.2).
#![tactic(auto, unfolding(crate::specs::Rests::row_of))]

ghost use Rattle.std.specs.Prelude.{◌≡◌, ◌≤◌, drop, length};
ghost use Rattle.cmark_scan_lines.specs.LineStart.{row_from};

mod prefixes;

use crate::interrupt::begins_with_letter;
use cmark_scan_bytes::bytes::ending_len;
use cmark_scan_lines::LineStart;

/// The rest of a line after the prefixes of the containers around it. Places are byte offsets of the text. Columns are those of the whole
/// line, in which a tab reaches to the next tab stop, four columns apart.
#[derive(Clone, Copy)]
pub struct LineRest<'a> {
    /// The byte offset at which the whole line begins.
    start: usize,
    /// The byte offset at which the next line begins.
    line_end: usize,
    /// The line without its ending, after the prefixes that were taken.
    front: LineStart<'a>,
    ghost ends: { (row_from start line_end front).content_end ≤ line_end },
}

impl<'a> LineRest<'a> {
    ghost use Rattle.std.specs.Prelude.{◌≡◌, ◌<◌, ◌∷◌, ℕ, List, None, IfSome, true, false, min};
    ghost use Rattle.std.specs.Str.{IsCharBoundary, IsUtf8};
    ghost use Rattle.cmark_grammar.specs.Columns.{bytes_of};
    ghost use Rattle.cmark_grammar.specs.Letters.{is_letter, first_is};
    ghost use Rattle.cmark_grammar.specs.Lines.{lines};
    ghost use Rattle.cmark_grammar.specs.Rows.{row_at, rows_from, without, is_blank_line, is_whole_line, indent_of, words_of, begin_of, start_of};
    ghost use Rattle.cmark_scan_lines.specs.LineStart.{cut_columns};
    ghost use Rattle.cmark_line_rules.specs.Rests.{row_of, no_row, IsIn};

    /// The whole line of the text that begins at byte offset `start`. At the text's end it is an empty line without an ending.
    #[inline(always)]
    pub fn new(text: &'a [u8], start: usize) -> LineRest<'a>
        requires { start ≤ length text.now }
        ensures line { (line : List ℕ) (more : List (List ℕ))
            → lines (drop start text.entry.now) ≡ line ∷ more → row_of result ≡ row_at start line }
        ensures further { start < length text.entry.now
            → rows_from start (lines (drop start text.entry.now))
            ≡ row_of result ∷ rows_from (row_of result).line_end
            (lines (drop (row_of result).line_end text.entry.now)) }
        ensures none { start ≡ length text.entry.now → row_of result ≡ no_row start }
        ensures ahead { start < length text.entry.now → start < (row_of result).line_end }
        ensures within { (row_of result).line_end ≤ length text.entry.now }
        ensures placed { IsUtf8 text.entry.now → IsCharBoundary text.entry.now start
            → IsIn text.entry.now result }
    {
        let bytes = &text[start..];
        let front = LineStart::new(bytes);
        let len = front.remaining_bytes().len();
        LineRest {
            start,
            line_end: start + len + ending_len(&bytes[len..]),
            front,
        }
    }

    /// This line with another rest.
    #[inline]
    fn with_front(self, front: LineStart<'a>) -> LineRest<'a>
        requires { (row_from self.start self.line_end front).content_end
            ≡ (row_of self).content_end }
        ensures { row_of result ≡ row_from self.entry.start self.entry.line_end front.entry }
    {
        let LineRest {
            start,
            line_end,
            ..
        } = self;
        LineRest {
            start,
            line_end,
            front,
        }
    }

    /// The byte offset at which the rest begins. If a prefix took a part of a tab, it is the offset after the tab.
    #[inline]
    pub fn begin(&self) -> usize
        ensures place { result ≡ begin_of (row_of self.now) }
        ensures boundary { (text : List ℕ) → IsIn text self.now → IsCharBoundary text result }
    {
        self.start + self.front.bytes_scanned()
    }

    /// Whether nothing was taken from the line, and no container without a prefix keeps it, so that it is in no container.
    #[inline]
    pub fn is_whole(&self) -> bool
        ensures { result ≡ is_whole_line (row_of self.now) }
    {
        self.begin() == self.start && !self.front.is_held()
    }

    /// The byte offset after the spaces and tabs at the beginning: the offset of the words.
    #[inline]
    pub fn words_begin(&self) -> usize
        ensures place { result ≡ start_of (row_of self.now) }
        ensures order { begin_of (row_of self.now) ≤ result }
        ensures boundary { (text : List ℕ) → IsIn text self.now → IsCharBoundary text result }
    {
        self.after_indent().begin()
    }

    /// The byte offset at which the line's ending begins; the text's end, if the last line has no ending.
    #[inline]
    pub fn content_end(&self) -> usize
        ensures place { result ≡ (row_of self.now).content_end }
        ensures order { start_of (row_of self.now) ≤ result }
        ensures boundary { (text : List ℕ) → IsIn text self.now → IsCharBoundary text result }
    {
        self.begin() + self.bytes().len()
    }

    /// The byte offset at which the next line begins.
    #[inline]
    pub fn line_end(&self) -> usize
        ensures place { result ≡ (row_of self.now).line_end }
        ensures order { (row_of self.now).content_end ≤ result }
        ensures boundary { (text : List ℕ) → IsIn text self.now → IsCharBoundary text result }
        ensures within { (text : List ℕ) → IsIn text self.now → result ≤ length text }
    {
        self.line_end
    }

    /// The number of columns of spaces and tabs at the beginning, at most `n`.
    #[inline]
    pub fn indent_upto(&self, n: usize) -> usize
        ensures { result ≡ min n (indent_of (row_of self.now)) }
    {
        let mut ahead = self.front;
        ahead.scan_space_upto(n)
    }

    /// Whether the line consists only of spaces and tabs.
    #[inline]
    pub fn is_blank(&self) -> bool
        ensures { result ≡ is_blank_line (row_of self.now) }
    {
        let mut ahead = self.front;
        ahead.scan_all_space();
        ahead.is_at_eol()
    }

    /// The bytes after the spaces and tabs at the beginning, up to the line's ending.
    #[inline]
    pub fn words(&self) -> &'a [u8]
        ensures { result.now ≡ words_of (row_of self.now) }
    {
        let mut ahead = self.front;
        ahead.scan_all_space();
        ahead.remaining_bytes()
    }

    /// The indent in columns, at most 4, and the words, if the line is not blank. The spaces and tabs at the beginning are passed once.
    #[inline(always)]
    pub(crate) fn indent_and_words(&self) -> Option<(usize, &'a [u8])>
        ensures blank { result ≡ None → is_blank_line (row_of self.now) ≡ true }
        ensures some { IfSome result (λ found. is_blank_line (row_of self.now) ≡ false) }
        ensures indent { IfSome result (λ found. found.0 ≡ min 4 (indent_of (row_of self.now))) }
        ensures words { IfSome result (λ found. found.1.now ≡ words_of (row_of self.now)) }
    {
        let mut following = self.front;
        let indent = following.scan_space_upto(4);
        following.scan_all_space();
        if following.is_at_eol() {
            return None;
        }
        Some((indent, following.remaining_bytes()))
    }

    /// The words, if the line is not indented: then they are all that is left of it, and no blank has to be passed.
    #[inline(always)]
    pub(crate) fn words_without_indent(&self) -> Option<&'a [u8]>
        ensures indented { result ≡ None → 0 < indent_of (row_of self.now) }
        ensures words { IfSome result
            (λ words. (indent_of (row_of self.now) ≡ 0) × (words.now ≡ words_of (row_of self.now))) }
    {
        if self.indent_upto(1) > 0 {
            return None;
        }
        Some(self.bytes())
    }

    /// Whether the words begin with an ASCII letter, as most lines of prose do. Such a line neither interrupts a paragraph nor underlines
    /// one.
    #[inline]
    pub fn begins_with_letter(&self) -> bool
        ensures { result ≡ first_is is_letter (words_of (row_of self.now)) }
    {
        begins_with_letter(self.words())
    }

    /// The bytes up to the line's ending, without a tab of which a prefix took a part.
    #[inline]
    pub fn bytes(&self) -> &'a [u8]
        ensures { result.now ≡ bytes_of (row_of self.now).columns }
    {
        self.front.remaining_bytes()
    }

    /// The number of columns at the beginning that are left of a tab of which a prefix took a part, 0 to 3. They count as spaces.
    #[inline]
    pub fn remaining_space(&self) -> usize
        ensures { result ≡ cut_columns (row_of self.now).columns }
    {
        self.front.remaining_space()
    }

    /// The line without the spaces and tabs at the beginning, at most `n` columns of them.
    #[inline]
    pub fn without_indent_upto(self, n: usize) -> LineRest<'a>
        ensures row { row_of result
            ≡ without (min n (indent_of (row_of self.entry))) (row_of self.entry) }
        ensures placed { (text : List ℕ) → IsIn text self.entry → IsIn text result }
    {
        let mut front = self.front;
        front.scan_space_upto(n);
        self.with_front(front)
    }

    /// The line without the spaces and tabs at the beginning.
    #[inline]
    pub fn after_indent(self) -> LineRest<'a>
        ensures row { row_of result ≡ without (indent_of (row_of self.entry)) (row_of self.entry) }
        ensures placed { (text : List ℕ) → IsIn text self.entry → IsIn text result }
    {
        let mut front = self.front;
        front.scan_all_space();
        self.with_front(front)
    }
}
