//! The settlement whose offer is tested.
ghost use Rattle.std.specs.Prelude.{◌<◌};

use ice_trade::Exchange;
use ice_tree::AllWeights;

/// A settlement: its exchange, the weighted values of its bounds, in hundredths, and its number.
#[derive(Drop)]
pub(crate) struct Settlement<'a> {
    pub(crate) exchange: &'a Exchange,
    pub(crate) weights: &'a AllWeights,
    pub(crate) number: u8,
    ghost few: { number < 250 },
}
