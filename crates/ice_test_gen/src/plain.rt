//! What a generated exchange is, reckoned by plain code from its description alone.
ghost use Rattle.std.specs.Prelude.{◌<◌};

use ice_defs::NodeKind;
use std::alloc::{AllocError, Global};

/// A node with its parent, its bounds and its true value.
#[derive(Clone, Copy, Debug, PartialEq, Eq)]
pub(crate) struct PlainNode {
    pub(crate) kind: NodeKind,
    pub(crate) parent: u16,
    pub(crate) lo: i64,
    pub(crate) hi: i64,
    pub(crate) truth: i64,
}

/// A node that is worth nothing by itself.
fn worthless(kind: NodeKind, parent: u16) -> PlainNode {
    PlainNode {
        kind,
        parent,
        lo: 0,
        hi: 0,
        truth: 0,
    }
}

/// The numbers that are drawn, from the upper 31 bits of a linear congruential generator.
#[derive(Drop)]
pub(crate) struct Draws {
    state: u64,
}

impl Draws {
    /// The draws of a number.
    pub(crate) fn new(number: u32) -> Draws {
        Draws {
            state: u64::from(number),
        }
    }

    /// The next number below this one.
    pub(crate) fn below(&mut self, bound: u16) -> u16
        requires { 0 < bound }
        ensures { result < bound }
    {
        let product = self.state.wrapping_mul(6364136223846793005);
        self.state = product.wrapping_add(1442695040888963407);
        ((self.state >> 33) % u64::from(bound)) as u16
    }

    /// A node of this worth, with a lower and an upper value around it.
    fn valued(&mut self, kind: NodeKind, truth: i64) -> PlainNode {
        let lo = truth.saturating_sub(i64::from(self.below(10)));
        let hi = truth.saturating_add(i64::from(self.below(10)));
        PlainNode {
            kind,
            parent: 0,
            lo,
            hi,
            truth,
        }
    }

    /// The tree of a seller: any of the three goods that it owns, at a cost of 5 to 24.
    pub(crate) fn seller(&mut self, alloc: Global, number: u8) -> Result<Vec<PlainNode>, AllocError>
        requires { number < 4 }
    {
        let mut nodes = Vec::new(alloc);
        nodes.push(worthless(NodeKind::Choose { least: 0, most: 3 }, 0))?;
        for sale in 0..3 {
            let good = 3 * number + sale;
            let cost = 5 + i64::from(self.below(20));
            nodes.push(self.valued(NodeKind::Sell { good, units: 1 }, -cost))?;
        }
        Ok(nodes)
    }

    /// What a package of so many goods is worth: 10 to 39 for each.
    fn worth(&mut self, goods: u8) -> i64 {
        let mut worth: i64 = 0;
        for _good in 0..goods {
            worth = worth.saturating_add(10 + i64::from(self.below(30)));
        }
        worth
    }

    /// The tree of a buyer: at most one of three packages, of two, three and four goods that lie
    /// five apart.
    pub(crate) fn buyer(&mut self, alloc: Global) -> Result<Vec<PlainNode>, AllocError> {
        let mut nodes = Vec::new(alloc);
        nodes.push(worthless(NodeKind::Choose { least: 0, most: 1 }, 0))?;
        for (package, goods) in [(1, 2), (4, 3), (8, 4)] {
            let first = self.below(12);
            let worth = self.worth(goods);
            let all = u16::from(goods);
            let kind = NodeKind::Choose {
                least: all,
                most: all,
            };
            nodes.push(self.valued(kind, worth))?;
            for place in 0..u16::from(goods) {
                let good = ((first + 5 * place) % 12) as u8;
                nodes.push(worthless(NodeKind::Buy { good, units: 1 }, package))?;
            }
        }
        Ok(nodes)
    }
}
