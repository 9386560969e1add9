//! What the fairness stage knows beside the trade.
use ice_frac::Frac;
use std::marker::Model;

/// What the bidders pay, with a multiple of its denominators, and the violation of accurate prices
/// over their denominator.
#[derive(Drop)]
pub(crate) struct Stage<'a> {
    pub(crate) payments: &'a [Frac],
    pub(crate) cut: u16,
    pub(crate) delta: i128,
    pub(crate) den: u64,
}

impl<'a> Model for Stage<'a> {
    ghost use Rattle.ice_fair_stage.specs.Stages.{FairStage};

    ghost Value = { FairStage };

    ghost view = { λ s. record {
      payments = s.payments.now;
      cut = s.cut;
      delta = s.delta;
      den = s.den;
    } };
}
