//! An ordered forest, stored in vectors, with a path down into it and a focus.
//!
//! Nodes are numbered from 1 in the order in which they are made, and no node is ever freed. The contracts use a `Zip`: the siblings before
//! the focus, those from the focus on, and the nodes above. `Holds tree z` means that the links of the tree form that forest, that no node
//! is reached twice, and that the path and the focus are those of `z`. Each call is a step of `z`.

ghost use Rattle.std.specs.Prelude.{◌⊎◌, List, [], ◌∷◌, ◌++◌, ◌≡◌, ◌<◌, suc, Some, length, IfOk, OnOk, OnErr};
ghost use Rattle.std.specs.Borrow.{sem};
ghost use Rattle.std.specs.Slice.Iter.{iter_rest};
ghost use Rattle.cmark_tree.specs.Lending.{LendsItemAt};
ghost use Rattle.cmark_tree.specs.Forest.{Forest, Nil, Node, join, one};
ghost use Rattle.cmark_tree.specs.Building.{Opened, Is, IsPlaced, closed};
ghost use Rattle.cmark_tree.specs.Arena.{Entry, Placed};
ghost use Rattle.cmark_tree.specs.Truncated.{IsChildren, IsAmong};
ghost use Rattle.cmark_tree.specs.Truncating.{last_place};
ghost use Rattle.cmark_tree.specs.Zip.{Zip, nothing, CanAppend, appended, HasFocus, pushed, popped, Sibling, past, at_first, next_relinked, child_relinked};
ghost use Rattle.cmark_tree.specs.Nodes.{IsGrown, IsChanged, with_next, with_child};
ghost use Rattle.cmark_tree.specs.Tree.{entry_at, HasNode, tree_len, place_of, index_at, focus_of, parent_of, spine_of, Holds, IsOpen, IsAtNode, IsAtSibling, KeepsNodes, KeepsPath, IsUnchanged, CanLink, CanLinkNext, CanLinkChild};

use crate::nodes::Nodes;
use crate::tree_index::TreeIndex;
use std::alloc::{AllocError, Global};
use std::slice::Iter;

/// An ordered forest with a path and a focus. The focus is a current sibling, if there is one; the current siblings are inside the nodes of
/// the path.
///
/// A builder calls `open`, `add` and `close`; a walk calls `cur`, `push`, `next_sibling` and `pop`:
///
/// ```text
/// tree.open(list)?;        // list
/// tree.add(item)?;         //   item      the focus
/// tree.close();            // list is the focus again
/// ```
// A link is the number of a node, and 0 is no node. With links of 32 bits, a node with an item of 32 bytes takes 40 bytes.
#[derive(Drop)]
pub struct Tree<T> {
    pub(crate) nodes: Nodes<T>,
    pub(crate) spine: Vec<TreeIndex>,
    pub(crate) first: usize,
    pub(crate) cur: usize,
}

// A full path makes room for this many nodes, so that it grows once, except in deep texts. To make a piece of memory larger takes five times
// the instructions of asking for it.
const DEPTH_AT_ONCE: usize = 16;

// The node that a link leads to.
fn index_of(link: usize) -> Option<TreeIndex>
    ensures { result ≡ index_at link }
{
    if link == 0 {
        None
    } else {
        Some(TreeIndex { ix: link })
    }
}

fn link_of(ix: Option<TreeIndex>) -> usize
    ensures { result ≡ place_of ix }
{
    match ix {
        Some(ix) => ix.ix,
        None => 0,
    }
}

// Adds a node to the end of a path.
fn lengthen(path: &mut Vec<TreeIndex>, last: TreeIndex) -> Result<(), AllocError>
    ensures ok { OnOk result (path.new.items ≡ path.old.items ++ (last ∷ [])) }
    ensures err { OnErr result (path.new.items ≡ path.old.items) }
{
    if path.len() >= path.capacity() {
        path.reserve(DEPTH_AT_ONCE)?;
    }
    path.push_reserved(last);
    Ok(())
}

// The sibling before `last`, in the row of siblings that begins with `head`; 0 if there is none.
fn sibling_before<T: Drop>(nodes: &Nodes<T>, head: usize, last: usize) -> usize
    requires { IsAmong nodes.now head last }
    ensures { (done : Forest (Placed T)) (p : Placed T) (inside after : Forest (Placed T))
        → IsChildren nodes.now (join done (Node p inside after)) head → p.ix ≡ last
        → last_place done ≡ result }
{
    let mut before = 0;
    let mut at = head;
    for _step in 0..nodes.count() {
        if at == last {
            return before;
        }
        before = at;
        at = nodes.next(at);
    }
    before
}

impl<T: Drop> Tree<T> {
    /// An empty forest. With its first node it makes room for at least `capacity` nodes, so that it asks for memory once if it has no more.
    pub fn with_capacity(alloc: Global, capacity: usize) -> Result<Tree<T>, AllocError>
        ensures empty { IfOk result (λ t. Holds t nothing) }
        ensures none { IfOk result (λ t. tree_len t ≡ 0) }
    {
        let nodes = Nodes::with_capacity(alloc, capacity)?;
        Ok(Tree {
            nodes,
            spine: Vec::new(alloc),
            first: 0,
            cur: 0,
        })
    }

    /// Adds a node after the focus; with no focus, as the parent's first child, or as the first tree. The new node becomes the focus. There
    /// may be no node at that place yet. Returns the number of the new node. If memory is refused nothing changes.
    #[inline(always)]
    pub fn append(&mut self, item: T) -> Result<TreeIndex, AllocError>
        requires { IsOpen self.old }
        ensures ok { IfOk result
            (λ i. (z : Zip T) → Holds self.old z → CanAppend z
            → Holds self.new (appended i.ix item z)) }
        ensures new { IfOk result (λ i. i.ix ≡ suc (tree_len self.old)) }
        ensures len { OnOk result (tree_len self.new ≡ suc (tree_len self.old)) }
        ensures err { OnErr result (IsUnchanged self.old self.new) }
    {
        let ix = self.nodes.push(item)?;
        if self.cur != 0 {
            self.nodes.set_next(self.cur, ix);
        } else if let Some(parent) = self.peek_up() {
            self.nodes.set_child(parent.ix, ix);
        } else {
            self.first = ix;
        }
        self.cur = ix;
        Ok(TreeIndex { ix })
    }

    /// Moves down to the focus's first child, or to no focus if it has no child. If memory is refused nothing changes.
    pub fn push(&mut self) -> Result<(), AllocError>
        requires { IsAtNode self.old }
        ensures ok { OnOk result
            ((z : Zip T) → Holds self.old z → HasFocus z → Holds self.new (pushed z)) }
        ensures nodes { KeepsNodes self.old self.new }
        ensures err { OnErr result (IsUnchanged self.old self.new) }
    {
        lengthen(&mut self.spine, TreeIndex { ix: self.cur })?;
        self.cur = self.nodes.child(self.cur);
        Ok(())
    }

    /// Moves up to the parent, which becomes the focus, and returns it; with no parent nothing changes.
    pub fn pop(&mut self) -> Option<TreeIndex>
        ensures result { (z : Zip T) → Holds self.old z → result ≡ parent_of z.up }
        ensures popped { (z : Zip T) → Holds self.old z → Holds self.new (popped z) }
        ensures nodes { KeepsNodes self.old self.new }
    {
        let ix = self.spine.pop()?;
        self.cur = ix.ix;
        Some(ix)
    }

    /// The focus.
    pub fn cur(&self) -> Option<TreeIndex>
        ensures { (z : Zip T) → Holds self.now z → result ≡ focus_of z.right }
    {
        index_of(self.cur)
    }

    /// The parent of the focus.
    pub fn peek_up(&self) -> Option<TreeIndex>
        ensures { (z : Zip T) → Holds self.now z → result ≡ parent_of z.up }
    {
        self.spine.last().copied()
    }

    /// Moves to the sibling after `ix` and returns it; after the last sibling there is no focus. `ix` is the focus or a sibling of the
    /// focus.
    pub fn next_sibling(&mut self, ix: TreeIndex) -> Option<TreeIndex>
        requires { IsAtSibling self.old ix.ix }
        ensures past { (z : Zip T) (s : Sibling z ix.ix) → Holds self.old z
            → Holds self.new (past z ix.ix s) }
        ensures result { (z : Zip T) (s : Sibling z ix.ix) → Holds self.old z
            → result ≡ focus_of s.after }
        ensures nodes { KeepsNodes self.old self.new }
    {
        let next = self.nodes.next(ix.ix);
        self.cur = next;
        index_of(next)
    }

    /// Moves to the first tree, with no parent.
    pub fn reset(&mut self)
        ensures first { (z : Zip T) → Holds self.old z → Holds self.new (at_first z) }
        ensures nodes { KeepsNodes self.old self.new }
    {
        self.spine.clear();
        self.cur = self.first;
    }

    /// The parents, the outermost first.
    pub fn walk_spine(&self) -> Iter<'_, TreeIndex>
        ensures { (z : Zip T) → Holds self.now z → iter_rest result ≡ spine_of z.up }
    {
        self.spine.iter()
    }

    /// The number of parents.
    pub fn spine_len(&self) -> usize
        ensures { (z : Zip T) → Holds self.now z → result ≡ length z.up }
    {
        self.spine.len()
    }

    /// Adds a node after the focus and opens it: later nodes are inside it.
    ///
    /// If memory is refused, either the tree is unchanged, or the node is there, closed, and is the focus.
    #[inline(always)]
    pub fn open(&mut self, item: T) -> Result<(), AllocError>
        requires { IsPlaced self.old }
        ensures ok { OnOk result
            ((here : Forest T) (up : List (Opened T)) → Is self.old here up
            → Is self.new Nil (record { left = here; item = item } ∷ up)) }
        ensures err { OnErr result
            ((here : Forest T) (up : List (Opened T)) → Is self.old here up
            → Is self.new here up ⊎ Is self.new (join here (one item Nil)) up) }
    {
        self.append(item)?;
        self.push()?;
        Ok(())
    }

    /// Adds a node without children after the focus; it becomes the focus. If memory is refused the tree is unchanged.
    pub fn add(&mut self, item: T) -> Result<TreeIndex, AllocError>
        requires { IsPlaced self.old }
        ensures ok { OnOk result
            ((here : Forest T) (up : List (Opened T)) → Is self.old here up
            → Is self.new (join here (one item Nil)) up) }
        ensures new { IfOk result (λ i. i.ix ≡ suc (tree_len self.old)) }
        ensures err { OnErr result (IsUnchanged self.old self.new) }
    {
        let ix = self.append(item)?;
        Ok(ix)
    }

    /// Closes the innermost open node, which then is the focus.
    pub fn close(&mut self)
        ensures { (here : Forest T) (v : Opened T) (up : List (Opened T))
            → Is self.old here (v ∷ up) → Is self.new (closed v here) up }
    {
        self.pop();
    }

    /// Puts a new node around the last sibling. The new node takes the sibling's place and is open; the sibling becomes its only child and
    /// stays the focus. With no current sibling nothing changes.
    ///
    /// If memory is refused, either the tree is unchanged, or the new node is around the sibling, closed, and is the focus.
    pub fn enclose(&mut self, item: T) -> Result<(), AllocError>
        requires { IsPlaced self.old }
        ensures ok { OnOk result
            ((here : Forest T) (x : T) (inside : Forest T) (up : List (Opened T))
            → Is self.old (join here (one x inside)) up
            → Is self.new (one x inside) (record { left = here; item = item } ∷ up)) }
        ensures none { (up : List (Opened T)) → Is self.old Nil up → Is self.new Nil up }
        ensures err { OnErr result
            ((here : Forest T) (x : T) (inside : Forest T) (up : List (Opened T))
            → Is self.old (join here (one x inside)) up
            → Is self.new (join here (one x inside)) up
            ⊎ Is self.new (join here (one item (one x inside))) up) }
    {
        if self.cur == 0 {
            return Ok(());
        }
        let inner = self.nodes.move_to_new(self.cur, item)?;
        self.nodes.set_child(self.cur, inner);
        self.push()
    }

    /// Closes the innermost open node. Its last child, if there is one, is moved after that node and becomes the focus. The time is
    /// proportional to the number of children. With no open node nothing changes.
    pub fn release(&mut self)
        requires { IsPlaced self.old }
        ensures released { (here : Forest T) (x : T) (inside : Forest T) (v : Opened T)
            (up : List (Opened T)) → Is self.old (join here (one x inside)) (v ∷ up)
            → Is self.new (join (closed v here) (one x inside)) up }
        ensures none { (v : Opened T) (up : List (Opened T)) → Is self.old Nil (v ∷ up)
            → Is self.new (closed v Nil) up }
        ensures top { (here : Forest T) → Is self.old here [] → Is self.new here [] }
    {
        let Some(parent) = self.peek_up() else {
            return;
        };
        if self.cur == 0 {
            self.close();
            return;
        }
        let before = sibling_before(&self.nodes, self.nodes.child(parent.ix), self.cur);
        self.nodes.end_children(parent.ix, before);
        self.spine.pop();
        self.nodes.set_next(parent.ix, self.cur);
    }

    /// Makes a node that no link leads to, so that `set_next` or `set_child` can link it. If memory is refused nothing changes.
    pub fn create_node(&mut self, item: T) -> Result<TreeIndex, AllocError>
        ensures new { IfOk result (λ i. IsGrown self.old.nodes self.new.nodes i.ix item) }
        ensures forest { (z : Zip T) → Holds self.old z → Holds self.new z }
        ensures err { OnErr result (IsUnchanged self.old self.new) }
    {
        let new = self.nodes.push(item)?;
        Ok(TreeIndex { ix: new })
    }

    /// The item of a node.
    pub fn item(&self, ix: TreeIndex) -> &T
        requires { HasNode self.now ix.ix }
        ensures { (e : Entry T) → entry_at self.now ix.ix ≡ Some e → result.now ≡ e.item }
    {
        self.nodes.item(ix.ix)
    }

    /// The item of a node, for writing.
    pub fn item_mut(&mut self, ix: TreeIndex) -> &mut T
        requires { HasNode self.old ix.ix }
        ensures* lends { sem 𝓛 (LendsItemAt T.row self.entry ix.ix result) }
        ensures value { (e : Entry T) → entry_at self.old ix.ix ≡ Some e → result.now ≡ e.item }
    {
        self.nodes.item_mut(ix.ix)
    }

    /// The sibling after a node.
    pub fn next(&self, ix: TreeIndex) -> Option<TreeIndex>
        requires { HasNode self.now ix.ix }
        ensures { (e : Entry T) → entry_at self.now ix.ix ≡ Some e → result ≡ index_at e.next }
    {
        index_of(self.nodes.next(ix.ix))
    }

    /// The first child of a node.
    pub fn child(&self, ix: TreeIndex) -> Option<TreeIndex>
        requires { HasNode self.now ix.ix }
        ensures { (e : Entry T) → entry_at self.now ix.ix ≡ Some e → result ≡ index_at e.child }
    {
        index_of(self.nodes.child(ix.ix))
    }

    /// Sets the sibling after a node. The node is the focus, or comes after it, or is inside the focus or a later sibling. The old next
    /// siblings are removed from the forest, and remain nodes. No other link may lead to `to`, except from removed nodes, and the node may
    /// not be inside `to`.
    pub fn set_next(&mut self, ix: TreeIndex, to: Option<TreeIndex>)
        requires { CanLinkNext self.old ix.ix (place_of to) }
        ensures forest { (z : Zip T) (g : Forest (Placed T))
            → CanLink self.old z ix.ix (place_of to) g (next_relinked ix.ix g z)
            → Holds self.new (next_relinked ix.ix g z) }
        ensures nodes { IsChanged self.old.nodes self.new.nodes ix.ix (with_next (place_of to)) }
        ensures path { KeepsPath self.old self.new }
    {
        self.nodes.set_next(ix.ix, link_of(to));
    }

    /// Sets the first child of a node, under the conditions of `set_next`.
    pub fn set_child(&mut self, ix: TreeIndex, to: Option<TreeIndex>)
        requires { CanLinkChild self.old ix.ix (place_of to) }
        ensures forest { (z : Zip T) (g : Forest (Placed T))
            → CanLink self.old z ix.ix (place_of to) g (child_relinked ix.ix g z)
            → Holds self.new (child_relinked ix.ix g z) }
        ensures nodes { IsChanged self.old.nodes self.new.nodes ix.ix (with_child (place_of to)) }
        ensures path { KeepsPath self.old self.new }
    {
        self.nodes.set_child(ix.ix, link_of(to));
    }
}
