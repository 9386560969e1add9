//! Sets of the nodes of one tree.

/// A set of nodes of one tree: a bit for each, in words of 64.
#[derive(Clone, Copy)]
pub struct Nodes {
    words: [u64; 4],
}

impl Nodes {
    /// The set with none.
    pub const NONE: Nodes = Nodes { words: [0; 4] };

    /// Whether the node is inside.
    pub fn has(&self, node: u8) -> bool {
        (self.words[usize::from(node / 64)] >> (node % 64)) & 1 == 1
    }

    /// Puts a node in.
    pub fn insert(&mut self, node: u8) {
        self.words[usize::from(node / 64)] |= 1 << (node % 64);
    }

    /// Puts all nodes of another set in.
    pub(crate) fn insert_all(&mut self, others: &Nodes) {
        for word in 0..4 {
            self.words[word] |= others.words[word];
        }
    }

    /// Takes the first node out. None where there is none.
    pub fn take_first(&mut self) -> Option<u8> {
        for word in 0..4_u8 {
            let bits = self.words[usize::from(word)];
            if bits != 0 {
                self.words[usize::from(word)] = bits & bits.wrapping_sub(1);
                return Some(word * 64 + (bits.trailing_zeros() % 64) as u8);
            }
        }
        None
    }

    /// The nodes that are in both.
    pub fn common(&self, others: &Nodes) -> Nodes {
        let mut common = *self;
        for word in 0..4 {
            common.words[word] &= others.words[word];
        }
        common
    }

    /// Whether it has the same nodes as another one.
    pub(crate) fn is(&self, other: &Nodes) -> bool {
        self.words[0] == other.words[0]
            && self.words[1] == other.words[1]
            && self.words[2] == other.words[2]
            && self.words[3] == other.words[3]
    }

    /// Whether it has all nodes of one set, and none of another.
    pub(crate) fn meets(&self, must: &Nodes, never: &Nodes) -> bool {
        let mut faults = 0;
        for word in 0..4 {
            faults |= must.words[word] & !self.words[word];
            faults |= never.words[word] & self.words[word];
        }
        faults == 0
    }

    /// A number that is seldom the same for two sets.
    pub(crate) fn hash(&self) -> u64 {
        let mut hash: u64 = 0;
        for word in 0..4 {
            hash = (hash ^ self.words[word]).wrapping_mul(0x9e37_79b9_7f4a_7c15);
            hash ^= hash >> 29;
        }
        hash
    }
}
