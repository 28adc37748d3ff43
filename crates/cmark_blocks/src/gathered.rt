//! The text of a paragraph, read line by line (CommonMark 4.7).

ghost use Rattle.std.specs.Prelude.{◌≡◌, ◌≤◌, true, length, string_bytes, IfOk};
ghost use Rattle.cmark_grammar.specs.Columns.{bytes_of};
ghost use Rattle.cmark_grammar.specs.LinkDefinitions.{line_end_of};
ghost use Rattle.cmark_grammar.specs.Rows.{words_of};
ghost use Rattle.cmark_line_rules.specs.Rests.{row_of};
ghost use Rattle.cmark_leaf_nodes.specs.TextColumns.{IsRead};

use crate::state::Pass;
use cmark_line_rules::LineRest;
use cmark_link_definitions::is_settled;
use cmark_values::EntityLookup;
use std::alloc::AllocError;

/// The beginning of a paragraph's text: the first line after its indent, and some more lines after the prefixes of the open containers,
/// with the line ends between them.
#[derive(Drop)]
pub(crate) struct Gathered<'a> {
    pub text: String,
    /// The number of lines after the first.
    pub lines: usize,
    /// The last line.
    pub last: LineRest<'a>,
}

/// A string for a paragraph's text has room for at least this many bytes, so that it grows only for long definitions.
const BYTES_AT_ONCE: usize = 256;

/// The words of a line of this text.
pub(crate) fn words_in<'a>(text: &'a str, rest: LineRest<'a>) -> &'a str
    requires { IsRead text.now rest }
    ensures { result.now ≡ words_of (row_of rest.entry) }
{
    &text[rest.words_begin()..rest.content_end()]
}

/// The bytes of a line of this text, up to its ending.
fn bytes_in<'a>(text: &'a str, rest: LineRest<'a>) -> &'a str
    requires { IsRead text.now rest }
    ensures { result.now ≡ bytes_of (row_of rest.entry).columns }
{
    &text[rest.begin()..rest.content_end()]
}

/// The line end between this line and the next: CR LF if it has two bytes, or else LF.
fn line_end_of(rest: LineRest<'_>) -> &'static str
    ensures { result.now ≡ line_end_of (row_of rest.entry) }
{
    if rest.line_end() - rest.content_end() >= 2 {
        "\r\n"
    } else {
        "\n"
    }
}

impl<'a, E: EntityLookup> Pass<'a, E> {
    ghost use Rattle.std.specs.Prelude.{false};
    ghost use Rattle.cmark_leaf_nodes.specs.TextColumns.{IsRead};
    ghost use Rattle.cmark_blocks.specs.Gathered.{IsGathered, Gathers, GathersMore, Decides};

    /// The first line, in the string `room`, which is reused.
    fn gather_first(&self, rest: LineRest<'a>, room: String) -> Result<Gathered<'a>, AllocError>
        requires line { IsRead self.now.text.now rest }
        ensures gathered { IfOk result (IsGathered self.now.text.now) }
        ensures holds { IfOk result (Gathers E.replacement self.now rest.entry) }
    {
        let mut text = room;
        text.clear();
        text.reserve(BYTES_AT_ONCE)?;
        text.push_str(words_in(self.text, rest))?;
        Ok(Gathered {
            text,
            lines: 0,
            last: rest,
        })
    }

    /// Adds a line, if there is one that continues the paragraph. Returns whether there is.
    fn gather_line(&self, gathered: &mut Gathered<'a>) -> Result<bool, AllocError>
        requires bare { self.now.bare ≡ false }
        requires gathered { IsGathered self.now.text.now gathered.old }
        ensures gathered { IfOk result (λ more. IsGathered self.now.text.now gathered.new) }
        ensures line { IfOk result
            (λ more. GathersMore E.replacement self.now gathered.old more gathered.new) }
    {
        let Some(rest) = self.text_ahead(gathered.last) else {
            return Ok(false);
        };
        gathered.text.push_str(line_end_of(gathered.last))?;
        gathered.text.push_str(bytes_in(self.text, rest))?;
        gathered.lines += 1;
        gathered.last = rest;
        Ok(true)
    }

    /// Adds a line, and further ones until the text has `size` bytes. Returns whether the paragraph may have more lines.
    fn gather_lines(&self, gathered: &mut Gathered<'a>, size: usize) -> Result<bool, AllocError>
        requires bare { self.now.bare ≡ false }
        requires gathered { IsGathered self.now.text.now gathered.old }
        ensures gathered { IfOk result (λ more. IsGathered self.now.text.now gathered.new) }
        ensures lines { IfOk result
            (λ more. GathersMore E.replacement self.now gathered.old more gathered.new) }
        ensures long { IfOk result
            (λ more. more ≡ true → size ≤ length (string_bytes gathered.new.text)) }
    {
        if !self.gather_line(gathered)? {
            return Ok(false);
        }
        while gathered.text.len() < size {
            if !self.gather_line(gathered)? {
                return Ok(false);
            }
        }
        Ok(true)
    }

    /// The text of the paragraph that this line may begin, as far as it is needed to decide whether it begins with a link reference
    /// definition. The text is searched only when it is twice as long as at the last search, so that it is read only a few times, however
    /// many lines it has. The string `room` is reused for it.
    pub(crate) fn gather(
        &self,
        rest: LineRest<'a>,
        room: String,
    ) -> Result<Gathered<'a>, AllocError>
        requires line { IsRead self.now.text.now rest }
        requires bare { self.now.bare ≡ false }
        ensures gathered { IfOk result (IsGathered self.now.text.now) }
        ensures holds { IfOk result (Gathers E.replacement self.now rest.entry) }
        ensures decides { IfOk result (Decides E.replacement self.now) }
    {
        let mut gathered = self.gather_first(rest, room)?;
        if !self.gather_line(&mut gathered)? {
            return Ok(gathered);
        }
        while !is_settled(gathered.text.as_str()) {
            let size = gathered.text.len().saturating_mul(2);
            if !self.gather_lines(&mut gathered, size)? {
                return Ok(gathered);
            }
        }
        Ok(gathered)
    }
}
