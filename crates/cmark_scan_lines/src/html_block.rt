//! HTML blocks: the kind that a line begins, and whether a line contains the end of one (CommonMark 4.6).

ghost use Rattle.std.specs.Prelude.{◌≡◌, ◌<◌, ◌≤◌, ◌==◌, ◌∷◌, length, drop, map, take_while, option_map, bytes_eq, false};
ghost use Rattle.std.specs.List.{prefix_len};
ghost use Rattle.cmark_grammar.specs.Characters.{less_than_sign};
ghost use Rattle.cmark_grammar.specs.HtmlBlocks.{lower, is_alphanumeric, is_among, first_is, raw_names, block_names, after_slash, begins_raw, begins_block, is_lone_tag, kind_after, html_kind, holds, holds_end};
ghost use Rattle.cmark_grammar.specs.Tags.{is_name_byte};
ghost use Rattle.cmark_scan_lines.specs.HtmlLines.{kind_number, names_from, ends_name, ends_block_name, begins_declaration, ends_raw, closes_raw};

use crate::bytes::{are_blank, is_alphanumeric, is_parted, lower, starts, starts_lower};
use cmark_scan_bytes::bytes::is_letter;
use cmark_scan_bytes::scan_tag;
use memchr::{memchr, memmem};

/// The kind of an HTML block, by its beginning.
#[derive(Clone, Copy, PartialEq, Eq)]
pub enum HtmlKind {
    /// Kind 1: `<pre`, `<script`, `<style` or `<textarea`.
    Raw,
    /// Kind 2: `<!--`.
    Comment,
    /// Kind 3: `<?`.
    Processing,
    /// Kind 4: `<!` and a letter.
    Declaration,
    /// Kind 5: `<![CDATA[`.
    Cdata,
    /// Kind 6: a tag with a block's name.
    Block,
    /// Kind 7: a complete tag of another name, alone on its line.
    Tag,
}

/// The kind of the HTML block that the line begins, if it begins one. The line is passed without its indent and its ending.
pub fn html_kind(line: &[u8]) -> Option<HtmlKind>
    ensures { option_map kind_number result ≡ html_kind line.now }
{
    match line {
        [b'<', following @ ..] => kind_after(line, following),
        _ => None,
    }
}

/// The kind of the HTML block that begins with `line`, which is `<` and then `following`.
fn kind_after(line: &[u8], following: &[u8]) -> Option<HtmlKind>
    requires { line.now ≡ less_than_sign ∷ following.now }
    ensures { option_map kind_number result ≡ kind_after following.now }
{
    let size = count_alphanumeric(following);
    if begins_raw(following, size) {
        Some(HtmlKind::Raw)
    } else if starts(following, b"!--") {
        Some(HtmlKind::Comment)
    } else if starts(following, b"?") {
        Some(HtmlKind::Processing)
    } else if starts(following, b"![CDATA[") {
        Some(HtmlKind::Cdata)
    } else if begins_declaration(following) {
        Some(HtmlKind::Declaration)
    } else if begins_block_tag(following, size) {
        Some(HtmlKind::Block)
    } else if scan_html_type_7(line) {
        Some(HtmlKind::Tag)
    } else {
        None
    }
}

/// Whether a declaration begins after `<`: with `!` and a letter.
#[inline]
fn begins_declaration(following: &[u8]) -> bool
    ensures { result ≡ begins_declaration following.now }
{
    match following {
        [b'!', first, ..] => is_letter(*first),
        _ => false,
    }
}

/// The bytes after a slash, if they begin with one.
#[inline]
fn after_slash(bytes: &[u8]) -> &[u8]
    ensures { result.now ≡ after_slash bytes.now }
{
    match bytes {
        [b'/', rest @ ..] => rest,
        _ => bytes,
    }
}

/// Whether, after `<`, a tag begins whose content is taken literally: such a name in any case, and then a blank, `>` or the line's end. The
/// bytes begin with `size` letters and digits.
fn begins_raw(following: &[u8], size: usize) -> bool
    requires count { size ≡ prefix_len is_alphanumeric following.now }
    requires within { size ≤ length following.now }
    ensures { result ≡ begins_raw (map lower following.now) }
{
    is_raw_name(&following[..size]) && ends_name(&following[size..])
}

/// Whether, after `<`, an open or closing tag with a block's name begins. The bytes begin with `size` letters and digits.
fn begins_block_tag(following: &[u8], size: usize) -> bool
    requires count { size ≡ prefix_len is_alphanumeric following.now }
    requires within { size ≤ length following.now }
    ensures { result ≡ begins_block (map lower (after_slash following.now)) }
{
    match following {
        [b'/', rest @ ..] => begins_block(rest, count_alphanumeric(rest)),
        _ => begins_block(following, size),
    }
}

/// Whether, after `<` or `</`, a tag with a block's name begins: such a name in any case, and then a blank, `>`, `/>` or the line's end.
/// The bytes begin with `size` letters and digits.
fn begins_block(following: &[u8], size: usize) -> bool
    requires count { size ≡ prefix_len is_alphanumeric following.now }
    requires within { size ≤ length following.now }
    ensures { result ≡ begins_block (map lower following.now) }
{
    is_html_tag(&following[..size]) && ends_block_name(&following[size..])
}

/// The number of letters and digits at the beginning.
#[inline]
fn count_alphanumeric(bytes: &[u8]) -> usize
    ensures value { result ≡ prefix_len is_alphanumeric bytes.now }
    ensures within { result ≤ length bytes.now }
{
    bytes
        .iter()
        .take_while(|byte| is_alphanumeric(**byte))
        .count()
}

/// Whether a name may end here: before a blank, `>` or the line's end.
#[inline]
fn ends_name(rest: &[u8]) -> bool
    ensures { result ≡ ends_name rest.now }
{
    is_parted(rest) || first_is(rest, b'>')
}

/// Whether a block's name may end here: before a blank, `>`, `/>` or the line's end.
#[inline]
fn ends_block_name(rest: &[u8]) -> bool
    ensures { result ≡ ends_block_name rest.now }
{
    is_parted(rest) || first_is(rest, b'>') || starts(rest, b"/>")
}

/// Whether the bytes begin with this one.
#[inline]
fn first_is(bytes: &[u8], byte: u8) -> bool
    ensures { result ≡ first_is (λ b. b == byte) bytes.now }
{
    match bytes {
        [first, ..] => *first == byte,
        [] => false,
    }
}

/// Whether the line is one complete open or closing tag and then only blanks (CommonMark 6.6), and the content of its name is not taken
/// literally. The line begins with `<`.
fn scan_html_type_7(line: &[u8]) -> bool
    requires { 0 < length line.now }
    ensures { line.now ≡ less_than_sign ∷ drop 1 line.now → result ≡ is_lone_tag (drop 1 line.now) }
{
    match scan_tag(line) {
        Some(rest) => are_blank(rest) && !is_raw_name(tag_name(after_slash(&line[1..]))),
        None => false,
    }
}

/// The name of a tag: the letters, digits and hyphens at the beginning.
fn tag_name(bytes: &[u8]) -> &[u8]
    ensures { result.now ≡ take_while is_name_byte bytes.now }
{
    &bytes[..count_name(bytes)]
}

/// The number of letters, digits and hyphens at the beginning.
#[inline]
fn count_name(bytes: &[u8]) -> usize
    ensures value { result ≡ prefix_len is_name_byte bytes.now }
    ensures within { result ≤ length bytes.now }
{
    bytes.iter().take_while(|byte| is_name_byte(**byte)).count()
}

/// Whether a byte may be part of a tag's name.
#[inline]
fn is_name_byte(byte: u8) -> bool
    ensures { result ≡ is_name_byte byte }
{
    is_alphanumeric(byte) || byte == b'-'
}

/// Whether this is the name of a block (CommonMark 4.6), in any case.
fn is_html_tag(name: &[u8]) -> bool
    ensures { result ≡ is_among (map lower name.now) block_names }
{
    match name {
        [first, ..] => is_one_of(name, names_from(lower(*first))),
        [] => false,
    }
}

/// Whether this is a name whose content is taken literally, in any case.
fn is_raw_name(name: &[u8]) -> bool
    ensures { result ≡ is_among (map lower name.now) raw_names }
{
    is_word(name, b"pre")
        || is_word(name, b"script")
        || is_word(name, b"style")
        || is_word(name, b"textarea")
}

/// Whether the name is this word in any case. The word has no capital letters.
#[inline]
fn is_word(name: &[u8], word: &[u8]) -> bool
    ensures { result ≡ bytes_eq (map lower name.now) word.now }
{
    name.len() == word.len() && starts_lower(name, word)
}

/// The names of blocks that begin with this letter.
fn names_from(first: u8) -> &'static [&'static [u8]]
    ensures { map (λ word. word.now) result.now ≡ names_from first }
{
    match first {
        b'a' => &[b"address", b"article", b"aside"],
        b'b' => &[b"base", b"basefont", b"blockquote", b"body"],
        b'c' => &[b"caption", b"center", b"col", b"colgroup"],
        b'd' => &[b"dd", b"details", b"dialog", b"dir", b"div", b"dl", b"dt"],
        b'f' => &[
            b"fieldset",
            b"figcaption",
            b"figure",
            b"footer",
            b"form",
            b"frame",
            b"frameset",
        ],
        b'h' => &[
            b"h1", b"h2", b"h3", b"h4", b"h5", b"h6", b"head", b"header", b"hr", b"html",
        ],
        b'i' => &[b"iframe"],
        b'l' => &[b"legend", b"li", b"link"],
        b'm' => &[b"main", b"menu", b"menuitem"],
        b'n' => &[b"nav", b"noframes"],
        b'o' => &[b"ol", b"optgroup", b"option"],
        b'p' => &[b"p", b"param"],
        b's' => &[b"search", b"section", b"summary"],
        b't' => &[
            b"table", b"tbody", b"td", b"tfoot", b"th", b"thead", b"title", b"tr", b"track",
        ],
        b'u' => &[b"ul"],
        _ => &[],
    }
}

/// Whether the name is among these words, in any case.
fn is_one_of(name: &[u8], words: &[&[u8]]) -> bool
    ensures { result ≡ is_among (map lower name.now) (map (λ word. word.now) words.now) }
{
    for word in words {
        if is_word(name, word) {
            return true;
        }
    }
    false
}

/// Whether the line contains the end of a block of this kind (CommonMark 4.6): a closing tag of kind 1, `-->`, `?>`, `>` or `]]>`. No line
/// contains an end of the last two kinds, which end before a blank line.
pub fn holds_end(line: &[u8], kind: HtmlKind) -> bool
    ensures held { kind_number kind ≤ 5 → result ≡ holds_end (kind_number kind) line.now }
    ensures none { 6 ≤ kind_number kind → result ≡ false }
{
    match kind {
        HtmlKind::Raw => ends_raw(line),
        HtmlKind::Comment => holds(line, b"-->"),
        HtmlKind::Processing => holds(line, b"?>"),
        HtmlKind::Declaration => holds(line, b">"),
        HtmlKind::Cdata => holds(line, b"]]>"),
        HtmlKind::Block | HtmlKind::Tag => false,
    }
}

/// Whether the line contains this word.
fn holds(line: &[u8], word: &[u8]) -> bool
    requires { 0 < length word.now }
    ensures { result ≡ holds word.now line.now }
{
    memmem::find(line, word).is_some()
}

/// Whether the line contains a closing tag of kind 1, in any case.
fn ends_raw(line: &[u8]) -> bool
    ensures { result ≡ ends_raw (map lower line.now) }
{
    let mut rest = line;
    while let Some(at) = memchr(b'<', rest) {
        let found = &rest[at..];
        if closes_raw(found) {
            return true;
        }
        rest = &found[1..];
    }
    false
}

/// Whether the bytes begin with a closing tag of kind 1, in any case.
fn closes_raw(bytes: &[u8]) -> bool
    ensures { result ≡ closes_raw (map lower bytes.now) }
{
    starts_lower(bytes, b"</pre>")
        || starts_lower(bytes, b"</script>")
        || starts_lower(bytes, b"</style>")
        || starts_lower(bytes, b"</textarea>")
}
