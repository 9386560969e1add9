//! Best sets at prices over long denominators.
ghost use Rattle.std.specs.Prelude.{◌≡◌, ◌<◌, length, IfOk};
ghost use Rattle.ice_defs.specs.Set.{IsSmall};
ghost use Rattle.ice_defs.specs.Trade.{tree_of};

use crate::numbers::{product, sum};
use crate::work::GivenUp;
use ice_best::{Fixing, Scratch, best};
use ice_pricing::Provisional;
use ice_tree::{NodeKind, NodeSet, Tree, Weights};

/// Prices in hundredths over a denominator.
#[derive(Clone, Copy)]
pub(crate) struct LongPrices<'a> {
    pub(crate) den: i128,
    pub(crate) nums: &'a [i128],
}

/// A best set at prices, and by how much its net beats that of the bidder's own set, times the
/// prices' denominator.
#[derive(Drop)]
pub(crate) struct Excess {
    pub(crate) set: NodeSet,
    pub(crate) amount: i128,
}

/// The greatest size of a node's net at prices over a long denominator: 2^90.
const GREATEST_NET: i128 = 1_237_940_039_285_380_274_899_124_224;

/// A number that is at most 2^90 in size.
fn small(number: i128) -> Result<i128, GivenUp>
    ensures { IfOk result IsSmall }
{
    if number > GREATEST_NET || number < -GREATEST_NET {
        return Err(GivenUp::Wide);
    }
    Ok(number)
}

impl LongPrices<'_> {
    /// What the units of a node cost.
    fn cost(&self, kind: NodeKind) -> Result<i128, GivenUp> {
        let (good, units) = match kind {
            NodeKind::Choose { .. } => return Ok(0),
            NodeKind::Buy { good, units } => (good, i128::from(units)),
            NodeKind::Sell { good, units } => (good, -i128::from(units)),
        };
        let price = self.nums.get(usize::from(good)).copied().unwrap_or(0);
        product(price, units)
    }

    /// What a node nets: its weight times the denominator, less what its units cost.
    fn net(&self, kind: NodeKind, weight: i128) -> Result<i128, GivenUp>
        ensures { IfOk result IsSmall }
    {
        let worth = product(self.den, weight)?;
        small(sum(worth, self.cost(kind)?.wrapping_neg())?)
    }

    /// The nets of a tree's nodes.
    fn nets(&self, tree: &Tree, weights: &Weights) -> Result<Weights, GivenUp>
        requires { length weights.now ≡ length tree.now }
        ensures { IfOk result (λ made. length made ≡ length tree.now) }
    {
        let mut nets = Weights::zero(tree.nodes());
        for node in 0..tree.nodes() {
            nets.put(node, self.net(tree.kind(node), weights.get(node))?);
        }
        Ok(nets)
    }

    /// The best set of a bidder, and its excess.
    pub(crate) fn excess(
        &self,
        trade: &Provisional<'_>,
        bidder: u8,
        scratch: &mut Scratch,
    ) -> Result<Excess, GivenUp>
        requires { bidder < length trade.now.trees }
        ensures { IfOk result (λ e. length e.set ≡ length (tree_of trade.now.trees bidder)) }
    {
        let tree = trade.tree(bidder);
        let nets = self.nets(tree, trade.weights(bidder))?;
        let nodes = tree.nodes();
        let mut set = NodeSet::empty(nodes);
        let value = best(tree, &nets, &Fixing::free(nodes), scratch, &mut set).unwrap_or(0);
        let own = tree.value(trade.own(bidder), &nets);
        Ok(Excess {
            set,
            amount: sum(value, own.wrapping_neg())?,
        })
    }
}
