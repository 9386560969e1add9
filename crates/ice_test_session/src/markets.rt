//! Worked exchanges, in line form.
ghost use Rattle.std.specs.Prelude.{IfOk};
ghost use Rattle.ice_defs.specs.Exchange.{trees_of};
ghost use Rattle.ice_defs.specs.Conditions.{AreWeightsOf, AreFixingsOf};

use ice_best::Fixings;
use ice_section::read_exchange_lines;
use ice_trade::Exchange;
use ice_tree::AllWeights;
use std::alloc::{AllocError, Global};
use std::test::Fail;

/// Buyers of two of three goods each, where one unit of each is sold: only one of them can be
/// served.
pub(crate) const PAIRS: &str = "ice 1 exchange\nsettings 50 0 100 1 5 200\ngood A\ngood B\ngood C\n\
    bidder p 0 0 0\nnode choose 2 2 2 10 10\nnode buy 0 1 0 0\nnode buy 1 1 0 0\n\
    bidder q 0 0 0\nnode choose 2 2 2 10 10\nnode buy 1 1 0 0\nnode buy 2 1 0 0\n\
    bidder r 0 0 0\nnode choose 2 2 2 10 10\nnode buy 2 1 0 0\nnode buy 0 1 0 0\n\
    bidder f 1 1 1\nnode choose 0 3 3 0 0\nnode sell 0 1 0 0\nnode sell 1 1 0 0\nnode sell 2 1 0 0\n\
    end exchange\n";

/// Twelve buyers of a unit of one good each, which nobody sells.
pub(crate) const BUYERS: &str = "ice 1 exchange\nsettings 50 0 100 1 5 200\n\
    good G0\ngood G1\ngood G2\ngood G3\ngood G4\ngood G5\ngood G6\ngood G7\ngood G8\ngood G9\ngood G10\ngood G11\n\
    bidder b0 0 0 0 0 0 0 0 0 0 0 0 0\nnode buy 0 1 5 5\nbidder b1 0 0 0 0 0 0 0 0 0 0 0 0\nnode buy 1 1 5 5\n\
    bidder b2 0 0 0 0 0 0 0 0 0 0 0 0\nnode buy 2 1 5 5\nbidder b3 0 0 0 0 0 0 0 0 0 0 0 0\nnode buy 3 1 5 5\n\
    bidder b4 0 0 0 0 0 0 0 0 0 0 0 0\nnode buy 4 1 5 5\nbidder b5 0 0 0 0 0 0 0 0 0 0 0 0\nnode buy 5 1 5 5\n\
    bidder b6 0 0 0 0 0 0 0 0 0 0 0 0\nnode buy 6 1 5 5\nbidder b7 0 0 0 0 0 0 0 0 0 0 0 0\nnode buy 7 1 5 5\n\
    bidder b8 0 0 0 0 0 0 0 0 0 0 0 0\nnode buy 8 1 5 5\nbidder b9 0 0 0 0 0 0 0 0 0 0 0 0\nnode buy 9 1 5 5\n\
    bidder b10 0 0 0 0 0 0 0 0 0 0 0 0\nnode buy 10 1 5 5\nbidder b11 0 0 0 0 0 0 0 0 0 0 0 0\nnode buy 11 1 5 5\n\
    end exchange\n";

/// A seller of two units and a buyer of one.
pub(crate) const TWO_FOR_ONE: &str = "ice 1 exchange\nsettings 50 0 100 1 5 200\ngood A\n\
    bidder s 2\nnode sell 0 2 -2 -2\nbidder b 0\nnode buy 0 1 10 10\nend exchange\n";

/// The same, where as much has to be bought as is sold.
pub(crate) const EXACT_TWO_FOR_ONE: &str = "ice 1 exchange\nsettings 50 0 100 1 5 200\nexact A\n\
    bidder s 2\nnode sell 0 2 -2 -2\nbidder b 0\nnode buy 0 1 10 10\nend exchange\n";

/// A seller and a buyer who may agree, and don't at their lower values.
pub(crate) const MAYBE: &str = "ice 1 exchange\nsettings 50 4 100 1 5 200\ngood A\n\
    bidder s 1\nnode sell 0 1 -15 -8\nbidder b 0\nnode buy 0 1 10 12\nend exchange\n";

/// A buyer of one of two goods, whose common node has the wide interval.
pub(crate) const SHARED_NODE: &str = "ice 1 exchange\nsettings 50 0 100 1 5 200\ngood A\ngood B\n\
    bidder b 0 0\nnode choose 1 1 2 50 90\nnode buy 0 1 0 0\nnode buy 1 1 3 5\n\
    bidder s 1 1\nnode choose 0 2 2 0 0\nnode sell 0 1 -1 -1\nnode sell 1 1 -1 -1\nend exchange\n";

/// Three bidders with a unit each, any two of which may trade, and none of which is needed.
pub(crate) const EMPTY_CORE: &str = "ice 1 exchange\nsettings 50 0 100 1 5 200\ngood A\n\
    bidder x 1\nnode choose 1 1 2 0 0\nnode buy 0 1 10 10\nnode sell 0 1 0 0\n\
    bidder y 1\nnode choose 1 1 2 0 0\nnode buy 0 1 10 10\nnode sell 0 1 0 0\n\
    bidder z 1\nnode choose 1 1 2 0 0\nnode buy 0 1 10 10\nnode sell 0 1 0 0\nend exchange\n";

/// The exchange that the lines describe.
pub(crate) fn exchange(alloc: Global, lines: &str) -> Result<Exchange, Fail> {
    match read_exchange_lines(alloc, lines.as_bytes()) {
        Ok(exchange) => Ok(exchange),
        Err(_) => Err("no exchange")?,
    }
}

/// The lower values as weights.
pub(crate) fn lower(alloc: Global, exchange: &Exchange) -> Result<AllWeights, AllocError>
    ensures { IfOk result (AreWeightsOf (trees_of exchange.now)) }
{
    let mut weights = AllWeights::new(alloc, exchange.trees())?;
    weights.fill_lower(exchange.bounds());
    Ok(weights)
}

/// Every node free.
pub(crate) fn free(alloc: Global, exchange: &Exchange) -> Result<Fixings, AllocError>
    ensures { IfOk result (AreFixingsOf (trees_of exchange.now)) }
{
    let marks = Fixings::free(alloc, exchange.trees())?;
    Ok(marks)
}
