//! Where a pricing run stands, apart from its pool.
ghost use Rattle.std.specs.Prelude.{vec_len, All, IfOk, ◌+◌, ◌≡◌, ◌*◌, ◌≤◌, ◌^◌, pos, neg_ℤ, ◌≤ℤ◌};
ghost use Rattle.ice_defs.specs.Fraction.{Equals, IsFraction};
ghost use Rattle.ice_defs.specs.PricingRun.{StageAt as RunStageAt, first_stage};
ghost use Rattle.ice_lp.specs.Limits.{IsNumber};
ghost use Rattle.ice_pricing_laws.specs.Laws.{balance_at};
ghost use Rattle.ice_price.specs.Programs.{no_price, dual_factor, allowed_excess, unit_factor, last_factor, member_least, good_least};
ghost use Rattle.ice_defs.specs.PricingLimit.{stage_of};
ghost use Rattle.ice_turns.specs.Stages.{IsSizedStage};

use crate::ends::PriceLimit;
use ice_defs::{LimitKind, PricingStage};
use ice_frac::Frac;
use ice_pricing::Certificate;
use ice_terms::Prices;
use ice_turns::{PoolMember, last_alone, least_above, over, zeros};
use std::alloc::{AllocError, Global};
use std::marker::Model;

/// The stage, with the violation of the accuracy stage over its denominator where that stage is
/// past.
#[derive(Drop)]
pub(crate) struct StageAt {
    stage: PricingStage,
    delta: i128,
    den: u64,
}

impl Model for StageAt {
    ghost use Rattle.ice_defs.specs.PricingRun.{StageAt as RunStageAt};

    ghost Value = { RunStageAt };

    ghost use Rattle.ice_defs.specs.PricingLimit.{stage_of};
    ghost use Rattle.ice_turns.specs.Stages.{IsSizedStage};

    ghost view = { λ s. record { stage = stage_of s.stage; delta = s.delta; den = s.den } };

    ghost invariant = { λ s. IsSizedStage (record {
      stage = stage_of s.stage;
      delta = s.delta;
      den = s.den;
    }) };
}

/// What a stage ends with: prices, their violation times their denominator, and the stage's
/// certificate.
#[derive(Drop)]
pub(crate) struct StageEnd {
    pub(crate) prices: Prices,
    pub(crate) violation: i128,
    pub(crate) certificate: Certificate,
}

impl StageAt {
    /// The accuracy stage.
    pub(crate) fn accuracy() -> StageAt
        ensures { result ≡ first_stage }
    {
        StageAt {
            stage: PricingStage::Accuracy,
            delta: 0,
            den: 1,
        }
    }

    /// The balance stage, after an accuracy stage that ended with this violation over this
    /// denominator.
    pub(crate) fn balance(delta: i128, den: u64) -> StageAt
        requires { IsSizedStage (balance_at delta den) }
        ensures { result ≡ balance_at delta den }
    {
        StageAt {
            stage: PricingStage::Balance,
            delta,
            den,
        }
    }

    /// The limit at which the stage ends with this pool.
    pub(crate) fn limit(&self, kind: LimitKind, pool: Vec<PoolMember>) -> PriceLimit
        ensures stage { record
            { stage = stage_of result.stage; delta = result.delta; den = result.den }
            ≡ self.now }
        ensures kind { result.kind ≡ kind }
        ensures pool { result.pool.items ≡ pool.items }
    {
        PriceLimit {
            stage: self.stage,
            kind,
            delta: self.delta,
            den: self.den,
            pool,
        }
    }

    /// The least of a good's row.
    pub(crate) fn good_least(&self, cap: i64) -> i128
        requires low { pos 0 ≤ℤ cap }
        requires high { cap ≤ℤ pos 1000000000 }
        ensures value { result ≡ good_least self.now.stage cap }
        ensures low { neg_ℤ (pos 1000000000) ≤ℤ result }
        ensures high { result ≤ℤ pos 0 }
    {
        match self.stage {
            PricingStage::Accuracy => -i128::from(cap),
            PricingStage::Balance => 0,
        }
    }

    /// What a good's row has beside the price of the good: a coefficient for each price, and one
    /// more.
    pub(crate) fn no_price(&self, alloc: Global, goods: u8) -> Result<Vec<i128>, AllocError>
        ensures value { IfOk result (λ made. made.items ≡ no_price self.now.stage goods) }
        ensures len { IfOk result (λ made. vec_len made ≡ goods + 1) }
        ensures sized { IfOk result (λ made. All IsNumber made.items) }
    {
        match self.stage {
            PricingStage::Accuracy => zeros(alloc, goods),
            PricingStage::Balance => last_alone(alloc, goods),
        }
    }

    /// What a unit of a good counts in a member's row.
    pub(crate) fn unit_factor(&self) -> u64
        ensures value { result ≡ unit_factor self.now.stage self.now.den }
        ensures high { result ≤ 100 * 2 ^ 32 }
    {
        match self.stage {
            PricingStage::Accuracy => 100,
            PricingStage::Balance => 100 * self.den,
        }
    }

    /// What the last column counts in a member's row.
    pub(crate) fn last_factor(&self) -> i128
        ensures value { result ≡ last_factor self.now.stage }
        ensures low { pos 0 ≤ℤ result }
        ensures high { result ≤ℤ pos 1 }
    {
        match self.stage {
            PricingStage::Accuracy => 1,
            PricingStage::Balance => 0,
        }
    }

    /// The least of the row of a member of this worth.
    pub(crate) fn member_least(&self, worth: i128) -> i128
        requires low { neg_ℤ (pos (2 ^ 49)) ≤ℤ worth }
        requires high { worth ≤ℤ pos (2 ^ 49) }
        ensures value { result ≡ member_least self.now.stage self.now.delta self.now.den worth }
        ensures low { neg_ℤ (pos (2 ^ 82)) ≤ℤ result }
        ensures high { result ≤ℤ pos (2 ^ 82) }
    {
        match self.stage {
            PricingStage::Accuracy => worth,
            PricingStage::Balance => least_above(self.den, worth, self.delta),
        }
    }

    /// By what a dual is multiplied to make it a weight.
    pub(crate) fn weight_factor(&self) -> u64
        ensures value { result ≡ dual_factor self.now.stage self.now.den }
        ensures high { result ≤ 100 * 2 ^ 32 }
    {
        match self.stage {
            PricingStage::Accuracy => 1,
            PricingStage::Balance => 100 * self.den,
        }
    }

    /// The excess that the stage allows: the last number of the solution, or the violation of the
    /// accuracy stage.
    pub(crate) fn allowed(&self, last: &Frac) -> Frac
        ensures proper { IsFraction result }
        ensures own { IsFraction (allowed_excess self.now.stage
            (record { num = self.now.delta; den = self.now.den }) last.now) }
        ensures equal { Equals result (allowed_excess self.now.stage
            (record { num = self.now.delta; den = self.now.den }) last.now) }
    {
        let _lowest = last.num();
        match self.stage {
            PricingStage::Accuracy => *last,
            PricingStage::Balance => over(self.delta, self.den),
        }
    }
}
