//! The verdict on a bid, and what it changes.
ghost use Rattle.std.specs.Prelude.{◌≡◌, ◌<◌, ◌∷◌, ◌++◌, [], IfOk, List, if◌then◌else◌, IsTrue, Some, length};
ghost use Rattle.ice_defs.specs.Trade.{tree_of, set_of};
ghost use Rattle.ice_defs.specs.Bounds.{bounds_of};
ghost use Rattle.ice_defs.specs.Exchange.{trees_of};
ghost use Rattle.ice_defs.specs.Judging.{IsJudged};
ghost use Rattle.ice_defs.specs.Lawful.{AreBounds};
ghost use Rattle.ice_defs.specs.Round.{Judged, IsNextVerdict, stated_bounds, is_acceptance, has_tree_length};
ghost use Rattle.ice_rules.specs.Verdicts.{verdict_of};
ghost use Rattle.ice_verdicts.specs.Judges.{IsRoundOf, bidders_in, bidder_named, with_taken, IsVerdictOf, IsVerdictIn, round_after, IsAfter};

use crate::judge::Judge;
use ice_rules::{Refusal, Scratch, Standing, Verdict, judge};
use ice_terms::Bid;
use ice_trade::Exchange;
use ice_tree::{Bounds, Tree};

/// A bidder's bounds.
fn bounds_of(bounds: &[Bounds], bidder: u8) -> &Bounds
    requires { bidder < length bounds.now }
    ensures { result.now ≡ bounds_of bounds.now bidder }
{
    &bounds[bidder as usize]
}

/// By how much a bidder's loss is to fall.
fn improve_of(exchange: &Exchange) -> i64
    ensures { result ≡ exchange.now.settings.improve }
{
    exchange.settings().improve
}

/// The number of the bid's bidder.
fn bidder_of(exchange: &Exchange, bid: &Bid) -> Option<u8>
    ensures { result ≡ bidder_named exchange.now bid.now.name }
{
    exchange.find_bidder(bid.bidder().text())
}

/// Whether there is one lower and one upper value for each node.
fn counts_nodes(tree: &Tree, bid: &Bid) -> bool
    ensures { result ≡ has_tree_length tree.now bid.now }
{
    let nodes = tree.nodes() as usize;
    bid.lo().len() == nodes && bid.hi().len() == nodes
}

impl Judge {
    /// The bounds that a bid of a bidder makes, which has a value of each kind for each node, or
    /// why they are refused.
    fn judge_values(&self, exchange: &Exchange, bidder: u8, bid: &Bid) -> Result<Bounds, Refusal>
        requires round { IsRoundOf exchange.now self.now }
        requires bidder { bidder < length exchange.now.bidders }
        requires nodes { IsTrue (has_tree_length (tree_of (trees_of exchange.now) bidder) bid.now) }
        // What comes of it
        ensures judged { IsJudged (tree_of (trees_of exchange.now) bidder) self.now.prices
            exchange.now.settings.improve (set_of self.now.sets bidder)
            (bounds_of self.now.bounds bidder) (stated_bounds bid.now) (verdict_of result) }
        // On acceptance
        ensures accepted { IfOk result (λ new. new ≡ stated_bounds bid.now) }
        ensures bounds { IfOk result (AreBounds (length (tree_of (trees_of exchange.now) bidder))) }
    {
        let at = Standing {
            tree: exchange.tree(bidder),
            bounds: bounds_of(self.bounds(), bidder),
            set: self.sets().of(bidder),
            prices: self.prices(),
        };
        let improve = improve_of(exchange);
        judge(&at, bid.lo(), bid.hi(), improve, &mut Scratch::new())
    }

    /// The verdict on a bid of a bidder, whose bounds it takes over where they are accepted.
    fn submit_of(&mut self, exchange: &Exchange, bidder: u8, bid: &Bid) -> Verdict
        requires round { IsRoundOf exchange.now self.old }
        requires bidder { bidder < length exchange.now.bidders }
        ensures verdict { IsVerdictOf exchange.now self.old (Some bidder) bid.now result }
        ensures taken { self.new ≡ (if is_acceptance result
            then with_taken self.old (Some bidder) bid.now else self.old) }
        ensures round { IsRoundOf exchange.now self.new }
    {
        if self.is_marked(bidder) {
            return Verdict::Repeated;
        }
        if !counts_nodes(exchange.tree(bidder), bid) {
            return Verdict::WrongCount;
        }
        match self.judge_values(exchange, bidder, bid) {
            Ok(bounds) => {
                self.mark(bidder, bounds);
                Verdict::Accepted
            }
            Err(refusal) => refusal.verdict(),
        }
    }

    /// The verdict on a bid. The first that holds: `UnknownBidder` where no bidder has its name;
    /// `Repeated` where a bid of the bidder was accepted in this round; `WrongCount` where its
    /// values don't count the nodes of the bidder's tree; and else the verdict on new bounds,
    /// judged against the bounds, sets and prices at the start of the round.
    ///
    /// An accepted bid gives the bidder its next bounds and a mark, and changes nothing else. Any
    /// other one changes nothing. It takes no memory.
    pub fn submit(&mut self, exchange: &Exchange, bid: &Bid) -> Verdict
        requires round { IsRoundOf exchange.now self.old }
        // What comes of it
        ensures verdict { IsVerdictIn exchange.now self.old bid.now result }
        ensures next { (judged : List Judged) → IsAfter exchange.now judged self.old
            → IsNextVerdict self.old.prices exchange.now.settings.improve
            (bidders_in exchange.now self.old) judged bid.now result }
        // What it leaves
        ensures changed { self.new ≡ round_after exchange.now self.old (record {
          submission = bid.now;
          verdict = result;
        }) }
        ensures after { (judged : List Judged) → IsAfter exchange.now judged self.old
            → IsAfter exchange.now (judged ++ record {
              submission = bid.now;
              verdict = result;
            } ∷ []) self.new }
        ensures round { IsRoundOf exchange.now self.new }
    {
        let _bidders = exchange.bidders();
        match bidder_of(exchange, bid) {
            Some(bidder) => self.submit_of(exchange, bidder, bid),
            None => Verdict::UnknownBidder,
        }
    }
}
