//! The tests of certificates.
ghost use Rattle.std.specs.Prelude.{◌≤◌, ◌<◌, ◌+◌, ◌^◌, IsTrue, IfSome, IfNone, unsigned_abs};
ghost use Rattle.std.specs.List.{AllByRecursion};
ghost use Rattle.ice_defs.specs.Rows.{IsRow, PassesAccuracy, PassesBalance};
ghost use Rattle.ice_row_laws.specs.Sums.{AreSums, IsWithRow};
ghost use Rattle.ice_pricing.specs.Priced.{IsLimited};

use crate::certificate::{Certificate, CertificateRow};
use crate::provisional::Provisional;
use ice_certificate::RowSums;
use ice_terms::Prices;

impl CertificateRow {
    /// Whether the row names a bidder of the trade, has a weight from 1 on, and a satisfied set of
    /// that bidder.
    fn is_of(&self, trade: &Provisional<'_>) -> bool
        ensures yes { let t = trade.now in IsTrue result → IsRow t.trees t.weights t.sets self.now }
        ensures no { let t = trade.now in IsRow t.trees t.weights t.sets self.now → IsTrue result }
    {
        if self.bidder >= trade.bidders() || self.weight == 0 {
            return false;
        }
        let tree = trade.tree(self.bidder);
        if self.set.len() != tree.nodes() {
            return false;
        }
        tree.is_satisfied(&self.set).is_ok()
    }

    /// Adds the row to sums of rows.
    pub fn add_to(&self, trade: &Provisional<'_>, sums: &mut RowSums)
        requires row { let t = trade.now in IsRow t.trees t.weights t.sets self.now }
        requires few { sums.old.weight + self.now.weight ≤ 2 ^ 40 }
        ensures { let t = trade.now in
            IsWithRow t.trees t.weights t.sets t.goods self.now sums.old sums.new }
    {
        let bidder = self.bidder;
        let _goods = trade.goods();
        sums.add(
            trade.tree(bidder),
            trade.weights(bidder),
            trade.own(bidder),
            self.weight,
            &self.set,
        );
    }
}

impl Certificate {
    /// The sums of the rows. None exactly where one of them is no row of the trade.
    pub fn sums(&self, trade: &Provisional<'_>) -> Option<RowSums>
        requires { IsLimited self.now }
        ensures sums { let t = trade.now in
            IfSome result (λ s. AllByRecursion (IsRow t.trees t.weights t.sets) self.now.rows
            × AreSums t.trees t.weights t.sets t.goods self.now.rows s) }
        ensures none { let t = trade.now in
            IfNone result (¬ AllByRecursion (IsRow t.trees t.weights t.sets) self.now.rows) }
    {
        let mut sums = RowSums::new();
        for row in &self.rows {
            if !row.is_of(trade) {
                return None;
            }
            row.add_to(trade, &mut sums);
        }
        Some(sums)
    }

    /// Whether the rows show that no prices within the cap have a violation below `violation` over
    /// the denominator of these prices. Takes no memory.
    pub fn passes_accuracy(&self, trade: &Provisional<'_>, prices: &Prices, violation: i128) -> bool
        requires limited { IsLimited self.now }
        requires sized { unsigned_abs violation < 2 ^ 127 }
        ensures yes { let t = trade.now in IsTrue result
            → PassesAccuracy t.trees t.weights t.sets t.goods t.cap prices.now violation self.now }
        ensures no { let t = trade.now in
            PassesAccuracy t.trees t.weights t.sets t.goods t.cap prices.now violation self.now
            → IsTrue result }
    {
        match self.sums(trade) {
            Some(sums) => {
                sums.pass_accuracy(trade.goods(), trade.cap(), prices, violation, self.den)
            }
            None => false,
        }
    }

    /// Whether the rows show that no prices of this violation have a greatest price below that of
    /// these. Takes no memory.
    pub(crate) fn passes_balance(
        &self,
        trade: &Provisional<'_>,
        prices: &Prices,
        violation: i128,
    ) -> bool
        requires { IsLimited self.now }
        ensures yes { let t = trade.now in IsTrue result
            → PassesBalance t.trees t.weights t.sets t.goods prices.now violation self.now }
        ensures no { let t = trade.now in
            PassesBalance t.trees t.weights t.sets t.goods prices.now violation self.now
            → IsTrue result }
    {
        match self.sums(trade) {
            Some(sums) => sums.pass_balance(trade.goods(), prices, violation, self.den),
            None => false,
        }
    }
}
