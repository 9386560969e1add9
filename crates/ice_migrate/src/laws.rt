//! A law of what is judged, which holds of the definitions.
ghost use Rattle.ice_migrate.specs.Laws.{OneJudgement};

/// But for want of memory, bytes are judged in one way: any two judgements are the same.
#[tactic(auto, using(crate::proofs::Deciding::one_judgement))]
pub fn bytes_have_one_judgement()
    ensures { OneJudgement }
{}
