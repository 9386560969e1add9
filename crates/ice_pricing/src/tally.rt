//! What is kept of the rows of a certificate while they come in.
ghost use Rattle.std.specs.Prelude.{◌≡◌, ◌<◌, ◌≤◌, ◌^◌, suc, [], ◌∷◌, ◌++◌, List, IsTrue, nat_lt, unsigned_abs};
ghost use Rattle.ice_defs.specs.Rows.{Row, IsRow, PassesAccuracy, PassesBalance};
ghost use Rattle.ice_pricing.specs.Provisional.{ProvisionalTrade};
ghost use Rattle.ice_pricing.specs.Tallies.{IsTallyOf};

use crate::certificate::CertificateRow;
use crate::provisional::Provisional;
use ice_certificate::RowSums;
use ice_terms::Prices;
use std::marker::Model;

/// The rows of a certificate that came so far: how many, at most 200, and their sums. No row is
/// kept, and no memory is taken.
#[derive(Drop)]
pub struct Tally {
    count: u8,
    sums: RowSums,
}

impl Model for Tally {
    ghost use Rattle.ice_pricing.specs.Tallies.{RowTally, IsFitting};

    ghost Value = { RowTally };

    ghost view = { λ t. record { count = t.count; sums = t.sums } };

    ghost invariant = { λ t. IsFitting (record { count = t.count; sums = t.sums }) };
}

impl Tally {
    /// No rows yet.
    pub fn new() -> Tally
        ensures { (t : ProvisionalTrade) → t.goods ≤ 32 → IsTallyOf t [] result }
    {
        Tally {
            count: 0,
            sums: RowSums::new(),
        }
    }

    /// Whether one more row may come: fewer than 200 came.
    pub fn has_room(&self) -> bool
        ensures { result ≡ nat_lt self.now.count 200 }
    {
        self.count < 200
    }

    /// Takes one more row of the trade, of a weight up to 2^32.
    pub fn take(&mut self, trade: &Provisional<'_>, row: &CertificateRow)
        requires room { self.old.count < 200 }
        requires row { let t = trade.now in IsRow t.trees t.weights t.sets row.now }
        requires fits { row.now.weight ≤ 2 ^ 32 }
        ensures count { self.new.count ≡ suc self.old.count }
        ensures taken { (rows : List Row) → IsTallyOf trade.now rows self.old
            → IsTallyOf trade.now (rows ++ row.now ∷ []) self.new }
    {
        row.add_to(trade, &mut self.sums);
        self.count += 1;
    }

    /// Whether the rows pass the accuracy test of a certificate with the denominator `den`, from 1
    /// on: then no prices within the cap have a violation below `violation` over the denominator of
    /// these prices.
    pub fn passes_accuracy(
        &self,
        trade: &Provisional<'_>,
        prices: &Prices,
        violation: i128,
        den: u64,
    ) -> bool
        requires den { 0 < den }
        requires violation { unsigned_abs violation < 2 ^ 127 }
        ensures yes { (rows : List Row) → let t = trade.now in IsTallyOf t rows self.now
            → IsTrue result → PassesAccuracy t.trees t.weights t.sets t.goods t.cap prices.now
            violation
            (record { den = den; rows = rows }) }
        ensures no { (rows : List Row) → let t = trade.now in IsTallyOf t rows self.now
            → PassesAccuracy t.trees t.weights t.sets t.goods t.cap prices.now violation
            (record { den = den; rows = rows }) → IsTrue result }
    {
        self.sums
            .pass_accuracy(trade.goods(), trade.cap(), prices, violation, den)
    }

    /// Whether the rows pass the balance test of a certificate with the denominator `den`, from 1
    /// to 2^32: then no prices of this violation have a greatest price below that of these.
    pub fn passes_balance(
        &self,
        trade: &Provisional<'_>,
        prices: &Prices,
        violation: i128,
        den: u64,
    ) -> bool
        requires den { 0 < den }
        requires few { den ≤ 2 ^ 32 }
        ensures yes { (rows : List Row) → let t = trade.now in IsTallyOf t rows self.now
            → IsTrue result → PassesBalance t.trees t.weights t.sets t.goods prices.now violation
            (record { den = den; rows = rows }) }
        ensures no { (rows : List Row) → let t = trade.now in IsTallyOf t rows self.now
            → PassesBalance t.trees t.weights t.sets t.goods prices.now violation
            (record { den = den; rows = rows }) → IsTrue result }
    {
        self.sums
            .pass_balance(trade.goods(), prices, violation, den)
    }
}
