//! The nodes of a tree that is being made, one row for each.
ghost use Rattle.std.specs.Prelude.{◌≡◌, ◌<◌, ◌++◌, [], ◌∷◌, length, slice_index};
ghost use Rattle.ice_tree.specs.Making.{one_child_more};

use arrayvec::ArrayVec;
use ice_defs::{Node, NodeKind};

/// The nodes in preorder, each with its values and with the number of its children so far.
#[derive(Drop)]
pub(crate) struct Rows {
    pub(crate) nodes: ArrayVec<Node, 200>,
    pub(crate) lo: ArrayVec<i64, 200>,
    pub(crate) hi: ArrayVec<i64, 200>,
    pub(crate) children: ArrayVec<u16, 200>,
}

impl Rows {
    /// No row yet.
    pub(crate) fn new() -> Rows
        ensures nodes { result.nodes.items ≡ [] }
        ensures lo { result.lo.items ≡ [] }
        ensures hi { result.hi.items ≡ [] }
        ensures children { result.children.items ≡ [] }
    {
        Rows {
            nodes: ArrayVec::new(),
            lo: ArrayVec::new(),
            hi: ArrayVec::new(),
            children: ArrayVec::new(),
        }
    }

    /// One more node below the parent; the first node has none.
    pub(crate) fn push(&mut self, kind: NodeKind, parent: u16, lo: i64, hi: i64)
        requires nodes { length self.old.nodes.items < 200 }
        requires lo { length self.old.lo.items ≡ length self.old.nodes.items }
        requires hi { length self.old.hi.items ≡ length self.old.nodes.items }
        requires children { length self.old.children.items ≡ length self.old.nodes.items }
        requires parent { 0 < length self.old.nodes.items → parent < length self.old.nodes.items }
        requires few { slice_index self.old.children.items parent < 200 }
        ensures nodes { self.new.nodes.items
            ≡ self.old.nodes.items ++ record { kind = kind; parent = parent } ∷ [] }
        ensures lo { self.new.lo.items ≡ self.old.lo.items ++ lo ∷ [] }
        ensures hi { self.new.hi.items ≡ self.old.hi.items ++ hi ∷ [] }
        ensures children { self.new.children.items ≡ one_child_more self.old.children.items parent }
    {
        if !self.children.is_empty() {
            self.children[parent as usize] += 1;
        }
        self.nodes.push(Node { kind, parent });
        self.lo.push(lo);
        self.hi.push(hi);
        self.children.push(0);
    }
}
