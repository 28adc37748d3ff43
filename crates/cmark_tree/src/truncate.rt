//! Siblings cut off at the end of their text.

ghost use Rattle.std.specs.Prelude.{◌≡◌, ◌<◌, true, List, [], ◌∷◌, Some, None, if◌then◌else◌};
ghost use Rattle.cmark_tree.specs.Forest.{Forest, join};
ghost use Rattle.cmark_tree.specs.Arena.{Entry, Placed, IsForest};
ghost use Rattle.cmark_tree.specs.Zip.{Zip, Level, plug};
ghost use Rattle.cmark_tree.specs.Nodes.{node_at, HasNumber};
ghost use Rattle.cmark_tree.specs.Tree.{Holds, entry_at, parent_of, spine_of};
ghost use Rattle.cmark_tree.specs.Truncating.{Spans, shortened, IsCut, last_place, at_last, siblings_truncated};
ghost use Rattle.cmark_tree.specs.Building.{Opened, Is, IsPlaced};
ghost use Rattle.cmark_tree.specs.Cut.{ending_before, reaching_start};
ghost use Rattle.cmark_tree.specs.Truncated.{CanTruncate, HasParent, CanEnd, HasChildren, IsChildren, IsShortened};

use crate::nodes::Nodes;
use crate::tree::Tree;
use crate::tree_index::TreeIndex;

/// An item with a range of bytes, whose first byte a backslash may escape.
pub trait TreeSpan: Drop {
    ghost spans: { Spans Self };

    /// The start of the range, a byte offset.
    fn start(&self) -> usize
        ensures { result ≡ spans.start self.now };

    /// The end of the range, a byte offset.
    fn end(&self) -> usize
        ensures { result ≡ spans.end self.now };

    /// Whether a backslash before the first byte escapes it.
    fn escaped(&self) -> bool
        ensures { result ≡ spans.escaped self.now };

    /// Sets the range.
    fn set_range(&mut self, start: usize, end: usize)
        ensures { self.new ≡ spans.ranged self.old start end };
}

// Shortens an item that does not end before `to`. Returns whether any of it is left.
fn shorten<T: TreeSpan>(item: &mut T, to: usize) -> bool
    requires { T.spans.start item.old ≡ to → T.spans.escaped item.old ≡ true → 0 < to }
    ensures { shortened T.spans to item.old ≡ (if result then Some item.new else None) }
{
    if item.end() == to {
        return true;
    }
    let start = item.start();
    if start < to {
        item.set_range(start, to);
        return true;
    }
    if start == to && item.escaped() {
        item.set_range(to - 1, to);
        return true;
    }
    false
}

// The last sibling that ends before the place, and the sibling after it; 0 is no node.
#[derive(Clone, Copy)]
struct Cut {
    kept: usize,
    at: usize,
}

// The place at which the siblings from `head` on are cut.
fn cut_place<T: TreeSpan>(nodes: &Nodes<T>, head: usize, to: usize) -> Cut
    requires { HasChildren nodes.now head }
    ensures { (f : Forest (Placed T)) → IsChildren nodes.now f head
        → IsCut T.spans to f result.kept result.at }
{
    let mut cut = Cut { kept: 0, at: head };
    for _step in 0..nodes.count() {
        if cut.at == 0 {
            return cut;
        }
        if nodes.item(cut.at).end() >= to {
            return cut;
        }
        cut = Cut {
            kept: cut.at,
            at: nodes.next(cut.at),
        };
    }
    cut
}

// Shortens the item of a node that does not end before `to`. Returns whether any of it is left.
fn shorten_at<T: TreeSpan>(nodes: &mut Nodes<T>, at: usize, to: usize) -> bool
    requires number { HasNumber nodes.old at }
    requires inside { (e : Entry T) → node_at nodes.old at ≡ Some e → T.spans.start e.item ≡ to
        → T.spans.escaped e.item ≡ true → 0 < to }
    ensures { (e : Entry T) → node_at nodes.old at ≡ Some e
        → IsShortened T.spans to nodes.old nodes.new at e.item result }
{
    let item = nodes.item_mut(at);
    shorten(item, to)
}

// The start of a node's range; `None` for the number 0.
fn start_at<T: TreeSpan>(nodes: &Nodes<T>, at: usize) -> Option<usize>
    requires { (at ≡ 0 → ⊥) → HasNumber nodes.now at }
    ensures none { at ≡ 0 → result ≡ None }
    ensures some { (at ≡ 0 → ⊥) → (e : Entry T) → node_at nodes.now at ≡ Some e
        → result ≡ Some (T.spans.start e.item) }
{
    if at == 0 {
        return None;
    }
    Some(nodes.item(at).start())
}

impl<T: TreeSpan> Tree<T> {
    /// Cuts the parent's children off at byte `end`. The children that end before it stay. The next child is shortened to end there, and
    /// the later ones are removed. A child that begins at `end` is removed too, unless a backslash escapes its first byte: then it becomes
    /// that backslash. The last remaining child is the focus.
    pub fn truncate_siblings(&mut self, end: usize)
        requires { CanTruncate T.spans self.old }
        ensures { (z : Zip T) → Holds self.old z → HasParent z.up
            → Holds self.new (siblings_truncated T.spans end z) }
    {
        let Some(parent) = self.peek_up() else {
            return;
        };
        let cut = cut_place(&self.nodes, self.nodes.child(parent.ix), end);
        if cut.at == 0 {
            self.end_siblings(parent, cut.kept);
        } else if shorten_at(&mut self.nodes, cut.at, end) {
            self.end_siblings(parent, cut.at);
        } else {
            self.end_siblings(parent, cut.kept);
        }
    }

    /// Cuts off the children of the innermost open node, from the first that does not end before byte `end`. Returns the start of that
    /// child, or `None` if each child ends before `end`. The last remaining child is the focus. If no node is open nothing changes.
    pub fn cut_siblings(&mut self, end: usize) -> Option<usize>
        requires { IsPlaced self.old }
        ensures kept { (here : Forest T) (v : Opened T) (up : List (Opened T))
            → Is self.old here (v ∷ up) → Is self.new (ending_before T.spans end here) (v ∷ up) }
        ensures start { (here : Forest T) (v : Opened T) (up : List (Opened T))
            → Is self.old here (v ∷ up) → result ≡ reaching_start T.spans end here }
        ensures unopened { (here : Forest T) → Is self.old here []
            → (self.new ≡ self.old) × (result ≡ None) }
        ensures placed { IsPlaced self.new }
    {
        let parent = self.peek_up()?;
        let cut = cut_place(&self.nodes, self.nodes.child(parent.ix), end);
        let start = start_at(&self.nodes, cut.at);
        self.end_siblings(parent, cut.kept);
        start
    }

    // The parent's children end with this one, which is the focus; if it is 0, there are none.
    fn end_siblings(&mut self, parent: TreeIndex, last: usize)
        requires { CanEnd self.old parent last }
        ensures { (done rest : Forest (Placed T)) (up : List (Level T))
            → IsForest (entry_at self.old) self.old.first (plug up (join done rest))
            → self.old.spine.items ≡ spine_of up → parent_of up ≡ Some parent
            → last_place done ≡ last → Holds self.new (at_last done up) }
    {
        if last == 0 {
            self.nodes.set_child(parent.ix, 0);
        } else {
            self.nodes.set_next(last, 0);
        }
        self.cur = last;
    }
}
