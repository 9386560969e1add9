//! What the marks of a tree leave open.
ghost use Rattle.std.specs.Prelude.{◌≡◌, ◌<◌, ◌≤◌, length};

use ice_best::{Fixing, Mark};
use ice_tree::Tree;

/// What is known of a node.
#[derive(Clone, Copy)]
pub struct Open {
    /// So many more of its children must be inside where it is, beside the forced ones ..
    pub need: u16,
    /// .. and so many may be.
    pub room: u16,
    /// So many of its other children may be inside at all.
    pub offered: u16,
    /// The last node below it, or the node itself.
    pub last: u16,
    /// Whether it must be inside: it is marked so, or has such a child.
    pub is_forced: bool,
    /// Whether it may be inside.
    pub is_live: bool,
    /// Whether the choices above it can reach it.
    pub is_reached: bool,
    /// Whether nothing is open below it, so that it brings the same nodes along each time.
    pub is_whole: bool,
}

impl Open {
    /// Of a node that may not be inside.
    const CLOSED: Open = Open {
        need: 0,
        room: 0,
        offered: 0,
        last: 0,
        is_forced: false,
        is_live: false,
        is_reached: false,
        is_whole: false,
    };

    /// Whether none of its other children may be inside.
    fn takes_none(&self) -> bool {
        self.offered == 0 || self.room == 0
    }

    /// Whether all of its other children that may be inside must be.
    fn takes_all(&self) -> bool {
        self.offered == self.need
    }

    /// Whether a child that is reached comes along with the node.
    pub fn brings(&self, child: &Open) -> bool {
        child.is_forced || self.takes_all()
    }
}

/// What the marks of a tree leave open, node by node.
#[derive(Drop)]
pub struct Openness {
    nodes: [Open; 200],
}

/// The mark of a node, where one node may have another one.
pub(crate) fn mark_of(mark: Mark, node: u16, trial: Option<(u16, Mark)>) -> Mark {
    match trial {
        Some((other, tried)) if other == node => tried,
        _ => mark,
    }
}

impl Openness {
    /// That of no tree yet.
    pub fn new() -> Openness {
        Openness {
            nodes: [Open::CLOSED; 200],
        }
    }

    /// Makes it that of a tree under these marks, where one node may have another mark.
    pub fn fill(&mut self, tree: &Tree, fixing: &Fixing, trial: Option<(u16, Mark)>)
        requires { length fixing.now ≡ length tree.now }
    {
        self.take_marks(tree, fixing, trial);
        self.nodes[0].is_reached = self.nodes[0].is_live;
        for node in 0..tree.nodes() {
            self.reach(tree, node);
        }
        for node in (0..tree.nodes()).rev() {
            self.close(tree, node);
        }
    }

    /// Only whether each node must be inside and whether it may be, under these marks. All else
    /// means nothing then.
    pub fn take_marks(&mut self, tree: &Tree, fixing: &Fixing, trial: Option<(u16, Mark)>)
        requires { length fixing.now ≡ length tree.now }
    {
        for node in (0..tree.nodes()).rev() {
            self.force(tree, mark_of(fixing.get(node), node, trial), node);
        }
    }

    /// Whether a node must be inside and whether it may be, by its mark and its children.
    fn force(&mut self, tree: &Tree, mark: Mark, node: u16)
        requires few { length tree.now ≤ 200 }
        requires node { node < length tree.now }
    {
        let (least, most) = tree.kind(node).interval();
        let mut open = Open::CLOSED;
        open.last = node;
        open.is_forced = mark == Mark::Must;
        open.is_live = mark != Mark::Never;
        let mut taken: u16 = 0;
        for &number in tree.children(node) {
            let child = self.nodes[usize::from(number)];
            open.last = child.last;
            if child.is_forced {
                open.is_forced = true;
                open.is_live = open.is_live && child.is_live;
                taken = taken.saturating_add(1);
            } else if child.is_live {
                open.offered = open.offered.saturating_add(1);
            }
        }
        let all = taken.saturating_add(open.offered);
        open.is_live = open.is_live && taken <= most && least <= all;
        open.need = least.saturating_sub(taken);
        open.room = most.saturating_sub(taken);
        self.nodes[usize::from(node)] = open;
    }

    /// Which children of a node are reached.
    fn reach(&mut self, tree: &Tree, node: u16)
        requires few { length tree.now ≤ 200 }
        requires node { node < length tree.now }
    {
        let open = self.nodes[usize::from(node)];
        if !open.is_reached {
            return;
        }
        for &number in tree.children(node) {
            let child = &mut self.nodes[usize::from(number)];
            child.is_reached = child.is_forced || child.is_live && !open.takes_none();
        }
    }

    /// Whether a node brings the same nodes along each time, by its children.
    fn close(&mut self, tree: &Tree, node: u16)
        requires few { length tree.now ≤ 200 }
        requires node { node < length tree.now }
    {
        let open = self.nodes[usize::from(node)];
        let mut is_whole = open.takes_none() || open.takes_all();
        for &number in tree.children(node) {
            let child = &self.nodes[usize::from(number)];
            is_whole = is_whole && (child.is_whole || !child.is_reached);
        }
        self.nodes[usize::from(node)].is_whole = is_whole;
    }

    /// What is known of the node.
    pub fn of(&self, node: u16) -> Open
        requires { node < 200 }
    {
        self.nodes[usize::from(node)]
    }

    /// Whether the node is reached and comes along with its parent, each time the same.
    pub(crate) fn is_bound(&self, tree: &Tree, node: u16) -> bool
        requires few { length tree.now ≤ 200 }
        requires node { node < length tree.now }
    {
        node > 0 && self.nodes[usize::from(tree.parent(node))].is_whole
    }
}
