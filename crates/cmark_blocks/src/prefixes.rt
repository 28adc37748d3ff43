//! The prefixes of the open containers at the beginning of a line (CommonMark 5).

ghost use Rattle.std.specs.Prelude.{◌≡◌, ◌+◌, ℕ, [], Bool, Option, None, false, option_map};
ghost use Rattle.cmark_grammar.specs.Containers.{BlockQuote, Item as ListItem, Footnote, keeps};
ghost use Rattle.cmark_grammar.specs.Rows.{begin_of};
ghost use Rattle.cmark_values.specs.Shown.{shown_options};
ghost use Rattle.cmark_tree.specs.Zip.{Zip};
ghost use Rattle.cmark_tree.specs.Tree.{Holds, IsTree};
ghost use Rattle.cmark_scan_lines.specs.LineStart.{row_from, line_of};
ghost use Rattle.cmark_blocks.specs.Prefixes.{shown_container, container_in, containers_of, kept};

use bitflags::Flags;
use cmark_items::{Item, ItemBody};
use cmark_line_rules::Container;
use cmark_scan_lines::LineStart;
use cmark_tree::Tree;
use cmark_values::Options;

/// Whether these options ask for footnotes in the old style.
fn reads_old_footnotes(options: Options) -> bool
    ensures { result ≡ (shown_options options).old_footnotes }
{
    options.contains(Options::ENABLE_OLD_FOOTNOTES)
}

/// The container that a node with this body is, if it is one.
fn container_of(body: ItemBody, options: Options) -> Option<Container>
    ensures { option_map shown_container result ≡ container_in (shown_options options) body }
{
    match body {
        ItemBody::BlockQuote(_) => Some(Container::BlockQuote),
        ItemBody::ListItem(width) => Some(Container::Item { width }),
        ItemBody::DefinitionListDefinition(width) => Some(Container::Definition { width }),
        ItemBody::FootnoteDefinition(_) => Some(Container::Footnote {
            old: reads_old_footnotes(options),
        }),
        _ => None,
    }
}

/// The line after a block quote's prefix, if it has one (CommonMark 5.1).
fn after_block_quote<'a>(line: LineStart<'a>) -> Option<LineStart<'a>>
    ensures { (at line_end : ℕ)
        → option_map (row_from at line_end) result
        ≡ keeps (BlockQuote None) false (row_from at line_end line.entry) }
{
    let mut following = line;
    following.scan_space_upto(3);
    if following.scan_blockquote_marker() {
        Some(following)
    } else {
        None
    }
}

/// The line after `width` columns of spaces and tabs, or after fewer if nothing follows them (CommonMark 5.2).
fn after_width<'a>(line: LineStart<'a>, width: usize) -> Option<LineStart<'a>>
    ensures { (at line_end delimiter : ℕ) (number : Option ℕ) (task : Option Bool)
        → option_map (row_from at line_end) result
        ≡ keeps (ListItem delimiter number width task) false (row_from at line_end line.entry) }
{
    let mut following = line;
    if !following.scan_space(width) && !following.is_at_eol() {
        return None;
    }
    Some(following)
}

/// The line after a footnote definition's prefix, if it keeps the line. In the old style it is the whole line, marked as held (this
/// profile's own).
fn after_footnote<'a>(line: LineStart<'a>, old: bool) -> Option<LineStart<'a>>
    ensures { (at line_end : ℕ)
        → option_map (row_from at line_end) result
        ≡ keeps (Footnote [] old 0) false (row_from at line_end line.entry) }
{
    if !old {
        return after_width(line, 4);
    }
    let mut ahead = line;
    ahead.scan_all_space();
    if ahead.is_at_eol() {
        return None;
    }
    let mut following = line;
    following.hold();
    Some(following)
}

/// The line after this container's prefix, if the container keeps the line.
fn after_prefix<'a>(container: Container, line: LineStart<'a>) -> Option<LineStart<'a>>
    ensures { (at line_end : ℕ)
        → option_map (row_from at line_end) result
        ≡ keeps (shown_container container) false (row_from at line_end line.entry) }
{
    match container {
        Container::BlockQuote => after_block_quote(line),
        Container::Item { width } => after_width(line, width),
        Container::Definition { width } => after_width(line, width),
        Container::Footnote { old } => after_footnote(line, old),
    }
}

/// The number of open containers, from the outermost on, that a line continues (CommonMark 5). The open containers are the block quotes,
/// the list items, the definitions of definition lists and the footnote definitions on the tree's path; its other nodes are ignored. `line`
/// moves past the prefixes of those containers: if a container's prefix is missing, it is after the prefixes before that. Nothing else
/// changes.
///
/// A blank line directly after an item whose first line was blank counts as kept, though it ends the item: the tree does not contain which
/// lines an item has. `options` decide how footnote definitions are read.
pub fn scan_containers(tree: &Tree<Item>, line: &mut LineStart<'_>, options: Options) -> usize
    requires { IsTree tree.now }
    ensures count { (z : Zip Item) → Holds tree.now z → (at line_end : ℕ)
        → result
        ≡
        (kept (containers_of (shown_options options) z.up) (row_from at line_end line.old)).count }
    ensures rest { (z : Zip Item) → Holds tree.now z → (at line_end : ℕ)
        → row_from at line_end line.new
        ≡ (kept (containers_of (shown_options options) z.up) (row_from at line_end line.old)).rest }
{
    let mut count = 0;
    for ix in tree.walk_spine() {
        let Some(container) = container_of(tree.item(*ix).body, options) else {
            continue;
        };
        let Some(following) = after_prefix(container, *line) else {
            return count;
        };
        *line = following;
        count += 1;
    }
    count
}

/// The number of prefix bytes of the open containers at the beginning of the line in `bytes`, which ends before the first LF or CR.
/// `scan_containers` passes these bytes. A tab that belongs to a prefix in part is counted.
pub fn skip_container_prefixes(tree: &Tree<Item>, bytes: &[u8], options: Options) -> usize
    requires { IsTree tree.now }
    ensures { (z : Zip Item) → Holds tree.now z → (at line_end : ℕ)
        → begin_of
        (kept (containers_of (shown_options options) z.up) (line_of at line_end bytes.now)).rest
        ≡ at + result }
{
    let mut line = LineStart::new(bytes);
    scan_containers(tree, &mut line, options);
    line.bytes_scanned()
}
