//! The beginning of a line, from which the prefixes of containers are taken (CommonMark 2.2 and 5).

ghost use Rattle.std.specs.Prelude.{◌≡◌, ◌+◌, ◌-◌, ◌%◌, ◌<◌, ◌≤◌, false, length, take, slice_index};
ghost use Rattle.cmark_grammar.specs.Characters.{tab};
ghost use Rattle.cmark_grammar.specs.Columns.{is_blank_byte};
ghost use Rattle.cmark_grammar.specs.Lines.{content};
ghost use Rattle.cmark_scan_lines.specs.Places.{column_after};

mod markers;

use crate::leaf::{break_stop, is_break_character, is_break_of};
use cmark_search::find_line_end;

/// A line, from which some columns at the beginning were taken. A tab is the columns up to the next tab stop; tab stops are four columns
/// apart. Tabs are never expanded, and a part of a tab may be taken.
#[derive(Clone, Copy)]
pub struct LineStart<'a> {
    /// The line without its ending.
    bytes: &'a [u8],
    /// The number of its bytes that were taken; columns may be left of the last one, if it is a tab.
    taken: usize,
    /// The byte offset after the last tab that was taken, or 0: a tab stop.
    after_tab: usize,
    /// The number of columns that are left of the tab that was taken last.
    pending: usize,
    /// The byte offset of a byte that is not a blank, or the line's length: the last search for a thematic break stopped there.
    break_stop: usize,
    /// 1 if a container without a prefix keeps the line (this profile's own), else 0. It is a whole word, because a line is moved word by
    /// word.
    held: usize,
    ghost plain: { content bytes.now ≡ bytes.now },
    ghost inside: { taken ≤ length bytes.now },
    ghost following: { after_tab ≤ taken },
    ghost aligned: { (taken - after_tab) % 4 ≡ column_after 0 (take taken bytes.now) % 4 },
    ghost stop: { break_stop < length bytes.now → is_blank_byte (slice_index bytes.now break_stop) ≡ false },
    ghost cut: { 0 < pending → column_after 0 (take (taken - 1) bytes.now) + pending < column_after 0 (take taken bytes.now) },
}

impl<'a> LineStart<'a> {
    ghost use Rattle.std.specs.Prelude.{ℕ, ◌≢◌, ◌==◌, ◌&&◌, ◌||◌, IsTrue, nat_le, min, true, false, drop, slice_index, MatchOption};
    ghost use Rattle.cmark_grammar.specs.Columns.{indent, bytes_of};
    ghost use Rattle.cmark_grammar.specs.Containers.{begins_with};
    ghost use Rattle.cmark_grammar.specs.Footnotes.{columns_over};
    ghost use Rattle.cmark_grammar.specs.Rows.{without, hold, indent_of, words_of, is_bare, begin_of};
    ghost use Rattle.cmark_grammar.specs.Leaves.{all_pass, is_parted, is_break_of, is_thematic_break};
    ghost use Rattle.cmark_scan_lines.specs.LineMarkers.{is_flush};
    ghost use Rattle.cmark_scan_lines.specs.LeafLines.{is_break_character};
    ghost use Rattle.cmark_scan_lines.specs.LineStart.{columns_taken, columns_from, row_from, line_of, cut_columns, knows_stop};

    /// The line at the beginning of the bytes: up to the first LF or CR, or all bytes. Nothing is taken from it yet.
    #[inline(always)]
    pub fn new(bytes: &'a [u8]) -> LineStart<'a>
        ensures { (at line_end : ℕ)
            → row_from at line_end result ≡ line_of at line_end bytes.entry.now }
    {
        let len = content_len(bytes);
        LineStart {
            bytes: &bytes[..len],
            taken: 0,
            after_tab: 0,
            pending: 0,
            break_stop: len,
            held: 0,
        }
    }

    /// The next byte, if there is one.
    #[inline]
    fn next_byte(&self) -> Option<u8>
        ensures { MatchOption result (self.now.taken ≡ length self.now.bytes.now)
            (λ byte. (self.now.taken < length self.now.bytes.now)
            × (byte ≡ slice_index self.now.bytes.now self.now.taken)) }
    {
        if self.taken < self.bytes.len() {
            Some(self.bytes[self.taken])
        } else {
            None
        }
    }

    /// The bytes that are left; empty if columns of a tab are left.
    #[inline]
    fn ahead(&self) -> &'a [u8]
        ensures words { (at line_end : ℕ) → is_flush (row_from at line_end self.now) ≡ true
            → words_of (row_from at line_end self.now) ≡ result.now }
        ensures blank { (at line_end : ℕ) → is_flush (row_from at line_end self.now) ≡ false
            → is_parted result.now ≡ true }
        ensures whole { 0 < length result.now → self.now.pending ≡ 0 }
        ensures rest { 0 < length result.now → result.now ≡ drop self.now.taken self.now.bytes.now }
    {
        if self.pending == 0 {
            &self.bytes[self.taken..]
        } else {
            &self.bytes[self.bytes.len()..]
        }
    }

    /// Whether an earlier search has found a later byte that stops a thematic break of this character.
    #[inline]
    fn has_stop(&self, character: u8) -> bool
        ensures known { result ≡ knows_stop character self.now }
        ensures none { IsTrue result
            → is_break_of character (drop self.now.taken self.now.bytes.now) ≡ false }
    {
        self.taken <= self.break_stop
            && self.break_stop < self.bytes.len()
            && self.bytes[self.break_stop] != character
    }

    /// Whether the rest of the line is a thematic break (CommonMark 4.1), if its first byte is not a blank.
    ///
    /// A search that fails records the byte at which it stopped. In `- - - x` the search at the first `-` reads up to `x`; at the next two
    /// the recorded stop decides. A new search begins at the last stop or after it. So each byte is read only a few times, however many
    /// markers the line has.
    fn is_break(&mut self) -> bool
        requires { is_blank_byte (slice_index (drop self.old.taken self.old.bytes.now) 0) ≡ false }
        ensures found { result ≡ is_thematic_break (drop self.old.taken self.old.bytes.now) }
        ensures learns { (character : ℕ)
            → slice_index (drop self.old.taken self.old.bytes.now) 0 ≡ character
            → is_break_character character ≡ true
            → all_pass (λ b. (b == character) || is_blank_byte b)
            (drop self.old.taken self.old.bytes.now) ≡ false
            → knows_stop character self.new ≡ true }
        ensures stays { IsTrue result → self.new ≡ self.old }
        ensures rest { (at line_end : ℕ)
            → row_from at line_end self.new ≡ row_from at line_end self.old }
        ensures line { self.new.bytes ≡ self.old.bytes }
        ensures taken { self.new.taken ≡ self.old.taken }
        ensures pending { self.new.pending ≡ self.old.pending }
    {
        let rest = &self.bytes[self.taken..];
        let Some(character) = self.next_byte() else {
            return false;
        };
        if !is_break_character(character) || self.has_stop(character) {
            return false;
        }
        let Some(size) = break_stop(rest, character) else {
            return is_break_of(rest, character);
        };
        self.break_stop = self.taken + size;
        false
    }

    /// Takes `n` bytes, which contain no tab.
    #[inline]
    fn take_bytes(&mut self, n: usize)
        requires whole { self.old.pending ≡ 0 }
        requires within { n ≤ length (drop self.old.taken self.old.bytes.now) }
        requires plain { (k : ℕ) → k < n
            → slice_index (drop self.old.taken self.old.bytes.now) k ≢ tab }
        ensures line { self.new.bytes ≡ self.old.bytes }
        ensures rest { (at line_end : ℕ)
            → row_from at line_end self.new ≡ without n (row_from at line_end self.old) }
        ensures whole { self.new.pending ≡ 0 }
        ensures taken { self.new.taken ≡ self.old.taken + n }
    {
        self.taken += n;
    }

    /// Takes the next byte, with all columns of it.
    #[inline]
    fn take_byte(&mut self)
        requires whole { self.old.pending ≡ 0 }
        requires within { self.old.taken < length self.old.bytes.now }
        ensures line { self.new.bytes ≡ self.old.bytes }
        ensures held { self.new.held ≡ self.old.held }
        ensures whole { self.new.pending ≡ 0 }
        ensures taken { self.new.taken ≡ self.old.taken + 1 }
    {
        let following = self.taken + 1;
        let is_tab = self.bytes[self.taken] == b'\t';
        self.taken = following;
        if is_tab {
            self.after_tab = following;
        }
    }

    /// Takes `n` bytes. Tabs may be among them, but the last byte is not a tab.
    fn take_marker(&mut self, n: usize)
        requires whole { self.old.pending ≡ 0 }
        requires some { 0 < n }
        requires within { n ≤ length (drop self.old.taken self.old.bytes.now) }
        requires last { slice_index (drop self.old.taken self.old.bytes.now) (n - 1) ≢ tab }
        ensures line { self.new.bytes ≡ self.old.bytes }
        ensures whole { self.new.pending ≡ 0 }
        ensures rest { (at line_end : ℕ)
            → row_from at line_end self.new
            ≡ without (columns_over n (columns_from at self.old)) (row_from at line_end self.old) }
    {
        let stop = self.taken + n;
        while self.taken < stop {
            self.take_byte();
        }
    }

    /// Whether the line continues with this byte, which is not a blank, and no column of a tab is left.
    #[inline]
    fn goes_on_with(&self, byte: u8) -> bool
        requires { is_blank_byte byte ≡ false }
        ensures found { (at line_end : ℕ)
            → result
            ≡
            (is_flush (row_from at line_end self.now) && begins_with byte
            (words_of (row_from at line_end self.now))) }
        ensures whole { IsTrue result → self.now.pending ≡ 0 }
        ensures some { IsTrue result → 1 ≤ length (drop self.now.taken self.now.bytes.now) }
        ensures first { IsTrue result
            → slice_index (drop self.now.taken self.now.bytes.now) 0 ≡ byte }
    {
        match self.ahead() {
            [first, ..] => *first == byte,
            [] => false,
        }
    }

    /// Takes the byte at the beginning, if it is a blank, and returns its number of columns, or 0.
    #[inline]
    fn take_blank(&mut self) -> usize
        requires { self.old.pending ≡ 0 }
        ensures line { self.new.bytes ≡ self.old.bytes }
        ensures held { self.new.held ≡ self.old.held }
        ensures whole { self.new.pending ≡ 0 }
        ensures small { result ≤ 4 }
        ensures one { 0 < result → self.new.taken ≡ self.old.taken + 1 }
        ensures wide { 0 < result
            → column_after 0 (take self.old.taken self.old.bytes.now) + result
            ≡ column_after 0 (take self.new.taken self.new.bytes.now) }
        ensures taken { columns_taken self.new ≡ columns_taken self.old + result }
        ensures blank { (at : ℕ) → result ≤ indent (columns_from at self.old) }
        ensures none { (at : ℕ) → result ≡ 0 → indent (columns_from at self.old) ≡ 0 }
    {
        match self.next_byte() {
            Some(b' ') => {
                self.taken += 1;
                1
            }
            Some(b'\t') => {
                let width = 4 - (self.taken - self.after_tab) % 4;
                self.taken += 1;
                self.after_tab = self.taken;
                width
            }
            _ => 0,
        }
    }

    /// Takes up to `n` columns of spaces and tabs, and returns their number. A tab in the line's first column has four columns:
    /// `scan_space_upto(1)` takes the first, and three are left as spaces.
    #[inline]
    pub fn scan_space_upto(&mut self, n: usize) -> usize
        ensures count { (at : ℕ) → result ≡ min n (indent (columns_from at self.old)) }
        ensures rest { (at line_end : ℕ)
            → row_from at line_end self.new ≡ without result (row_from at line_end self.old) }
    {
        let mut count = self.pending.min(n);
        self.pending -= count;
        while count < n {
            let width = self.take_blank();
            if width == 0 {
                break;
            }
            let part = width.min(n - count);
            self.pending = width - part;
            count += part;
        }
        count
    }

    /// Takes up to `n` columns of spaces and tabs, and returns whether there were `n`. If there are fewer, they are taken too.
    #[inline]
    pub fn scan_space(&mut self, n: usize) -> bool
        ensures enough { (at line_end : ℕ)
            → result ≡ nat_le n (indent_of (row_from at line_end self.old)) }
        ensures rest { (at line_end : ℕ)
            → row_from at line_end self.new
            ≡ without (min n (indent_of (row_from at line_end self.old)))
            (row_from at line_end self.old) }
    {
        self.scan_space_upto(n) == n
    }

    /// Takes all spaces and tabs at the beginning.
    #[inline]
    pub fn scan_all_space(&mut self)
        ensures { (at line_end : ℕ)
            → row_from at line_end self.new
            ≡ without (indent_of (row_from at line_end self.old)) (row_from at line_end self.old) }
    {
        self.pending = 0;
        while self.take_blank() > 0 {}
    }

    /// Records that a container without a prefix keeps the line (this profile's own). Nothing is taken.
    #[inline]
    pub fn hold(&mut self)
        ensures { (at line_end : ℕ)
            → row_from at line_end self.new ≡ hold (row_from at line_end self.old) }
    {
        self.held = 1;
    }

    /// Whether a container without a prefix keeps the line (this profile's own).
    #[inline]
    pub fn is_held(&self) -> bool
        ensures { (at line_end : ℕ) → result ≡ (row_from at line_end self.now).held }
    {
        self.held != 0
    }

    /// The number of columns that are left of a partly taken tab, 0 to 3.
    #[inline]
    pub fn remaining_space(&self) -> usize
        ensures { (at : ℕ) → result ≡ cut_columns (columns_from at self.now) }
    {
        self.pending
    }

    /// Whether nothing is left of the line, not even blanks.
    #[inline]
    pub fn is_at_eol(&self) -> bool
        ensures { (at : ℕ) → result ≡ is_bare (columns_from at self.now) }
    {
        self.pending == 0 && self.taken == self.bytes.len()
    }

    /// The bytes that are left, after those that were taken.
    #[inline]
    pub fn remaining_bytes(&self) -> &'a [u8]
        ensures { (at : ℕ) → bytes_of (columns_from at self.now) ≡ result.now }
    {
        let LineStart { bytes, taken, .. } = *self;
        &bytes[taken..]
    }

    /// The number of bytes of the line that were taken; a partly taken tab counts.
    #[inline]
    pub fn bytes_scanned(&self) -> usize
        ensures { (at line_end : ℕ) → begin_of (row_from at line_end self.now) ≡ at + result }
    {
        self.taken
    }
}

/// The number of bytes before the first LF or CR, or of all bytes. For an empty line, of which texts have many, it looks only at the first
/// byte.
#[inline(always)]
fn content_len(bytes: &[u8]) -> usize
    ensures content { take result bytes.now ≡ content bytes.now }
    ensures within { result ≤ length bytes.now }
{
    match bytes {
        [b'\n', ..] => 0,
        _ => find_line_end(bytes).unwrap_or(bytes.len()),
    }
}
