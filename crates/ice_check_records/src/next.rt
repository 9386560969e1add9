//! What a checker awaits behind the section of the exchange.
use ice_defs::Group;

/// What comes next in a journal whose exchange is complete.
#[derive(Clone, Copy)]
pub(crate) enum Next {
    /// The head of this group.
    Head(Group),
    /// A set of this group.
    Set(Group),
    /// A step of this group's log.
    Step(Group),
    /// The amount of the regret.
    Amount,
    /// A record of the offer: its prices, their certificates, and the round.
    Offer,
    /// The cut and the surplus.
    Threshold,
    /// The payment of this bidder.
    Payment(u8),
    /// The end.
    End,
    /// No more record.
    Nothing,
}
