//! What the marks of a tree decide.
ghost use Rattle.std.specs.Prelude.{◌≡◌, ◌<◌, ◌≤◌, length};

use ice_best::{Fixing, Mark};
use ice_relaxation::Openness;
use ice_tree::Tree;

/// What the marks of a tree decide, node by node.
#[derive(Drop)]
pub struct Decided {
    open: Openness,
    /// Whether some set that meets the marks has a node ..
    may_be_in: [bool; 200],
    /// .. and whether some has it not.
    may_be_out: [bool; 200],
}

impl Decided {
    /// That of no tree yet.
    pub fn new() -> Decided {
        Decided {
            open: Openness::new(),
            may_be_in: [true; 200],
            may_be_out: [true; 200],
        }
    }

    /// Makes it that of a tree under these marks.
    pub fn fill(&mut self, tree: &Tree, fixing: &Fixing)
        requires { length fixing.now ≡ length tree.now }
    {
        self.open.take_marks(tree, fixing, None);
        let root = self.open.of(0);
        self.may_be_in[0] = root.is_live;
        self.may_be_out[0] = !root.is_forced;
        for node in 0..tree.nodes() {
            self.reach(tree, node);
        }
    }

    /// Which children of a node may be inside, and which outside.
    fn reach(&mut self, tree: &Tree, node: u16)
        requires few { length tree.now ≤ 200 }
        requires node { node < length tree.now }
    {
        let open = self.open.of(node);
        let may_be_in = self.may_be_in[usize::from(node)];
        let may_be_out = self.may_be_out[usize::from(node)];
        for &number in tree.children(node) {
            let child = self.open.of(number);
            let has_room = child.is_forced || open.room > 0;
            let can_spare = !child.is_live || open.need < open.offered;
            self.may_be_in[usize::from(number)] = child.is_live && may_be_in && has_room;
            self.may_be_out[usize::from(number)] = !child.is_forced && (may_be_out || can_spare);
        }
    }

    /// Whether some set of the tree meets the marks.
    pub fn is_open(&self) -> bool {
        self.may_be_in[0] || self.may_be_out[0]
    }

    /// The mark that a free node has as good as: `Never` where no set that meets the marks has it,
    /// `Must` where each of them has.
    pub fn mark_of(&self, node: u16) -> Mark {
        if node >= 200 || !self.may_be_in[usize::from(node)] {
            Mark::Never
        } else if self.may_be_out[usize::from(node)] {
            Mark::Free
        } else {
            Mark::Must
        }
    }
}
