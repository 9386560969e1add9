//! The sets of a pool.
use ice_tree::NodeSet;
use std::marker::Model;

/// A bidder and a satisfied set of it.
#[derive(Debug, Drop)]
pub struct PoolMember {
    /// The bidder's number.
    pub bidder: u8,
    /// The set.
    pub set: NodeSet,
}

impl Model for PoolMember {
    ghost use Rattle.ice_defs.specs.PricingRun.{Member};

    ghost Value = { Member };

    ghost view = { λ m. record { bidder = m.bidder; set = m.set } };
}
