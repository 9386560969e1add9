//! All the working memory of bounds and logs.
ghost use Rattle.std.specs.Prelude.{◌≡◌, ◌<◌, ◌≤◌, length, map, replicate, IfOk, [], vec_capacity};
ghost use Rattle.ice_defs.specs.declared.Mark.TheVariants.{Free};
ghost use Rattle.ice_defs.specs.Trade.{is_exact};

use crate::room::Room;
use ice_best::Fixings;
use ice_tree::Tree;
use std::alloc::{AllocError, Global};

/// The working memory of bounds and logs. `marks` is the side that `bound_here` looks at; `sides`
/// has pairs of a bidder and a node, and room for 2,000 of them. What they hold between other calls
/// does not matter. `room` knows which goods are exact.
pub struct Desk {
    /// The side that `bound_here` looks at.
    pub marks: Fixings,
    /// The sides that a log has left open, each by the bidder and the node at which it was split.
    pub sides: Vec<(u8, u16)>,
    /// Room for the multipliers and the nets of a tree.
    pub room: Room,
    ghost roomy: { 2000 ≤ vec_capacity sides },
}

// By hand, so that each exit that drops one has one call to prove, and not all its parts.
impl Drop for Desk {
    fn drop(self) {
        let Desk {
            marks: _,
            sides: _,
            room: _,
        } = self;
    }
}

impl Desk {
    /// A desk for these trees, with one truth value for each good, at most 32: whether it is exact.
    /// Takes all the memory that bounds and logs of these trees need.
    pub fn new(alloc: Global, trees: &[Tree], exact: &[bool]) -> Result<Desk, AllocError>
        requires { length exact.now ≤ 32 }
        ensures exact { IfOk result (λ desk. desk.room ≡ exact.now) }
        ensures marks { IfOk result (λ desk. desk.marks
            ≡ map (λ t. replicate (length t) Free) trees.now) }
        ensures sides { IfOk result (λ desk. desk.sides.items ≡ []) }
    {
        Ok(Desk {
            marks: Fixings::free(alloc, trees)?,
            sides: Vec::with_capacity(alloc, 2000)?,
            room: Room::new(exact),
        })
    }

    /// Whether the good is exact.
    pub fn is_exact(&self, good: u8) -> bool
        requires { good < length self.now.room }
        ensures { result ≡ is_exact self.now.room good }
    {
        self.room.is_exact(good)
    }
}
