//! Sweeps of the side that is looked at.
ghost use Rattle.std.specs.Prelude.{◌≡◌, length, ℤ, pos, neg_ℤ, ◌≤ℤ◌};
ghost use Rattle.ice_defs.specs.Bound.{IsBound};
ghost use Rattle.ice_defs.specs.Sweep.{IsLive, IsSweptBound};
ghost use Rattle.ice_search_log.specs.Nodes.{HasNoNode};
ghost use Rattle.ice_search.specs.Instance.{IsBoundAt, IsSweepAt};
ghost use Rattle.ice_search.specs.Workspace.{IsOfferedAt};

use crate::workspace::Workspace;
use ice_bound::{Bound, Kept, Multipliers};
use ice_mult::improve_kept;
use ice_subgradient::{Incumbent, forecast};

/// Multipliers, and the bound at them.
#[derive(Drop)]
pub(crate) struct Bounded {
    pub(crate) m: Multipliers,
    pub(crate) key: i128,
}

/// The multipliers that are kept, with the bound at them, where the side is live.
fn kept_bound(kept: &Kept) -> Bounded
    requires { IsLive kept.now.trees kept.now.marks }
    ensures multipliers { result.m ≡ kept.now.multipliers }
    ensures bound { IsBound kept.now.trees kept.now.weights kept.now.multipliers kept.now.marks
        result.key }
{
    match kept.bound() {
        Bound::AtMost(key) => Bounded {
            m: kept.multipliers().copy(),
            key,
        },
        Bound::Dead(_) => unreachable!(),
    }
}

impl<'a> Workspace<'a> {
    /// The multipliers that one sweep makes of zeros, with the bound at them. The relaxed sets
    /// there are offered. The guess of the outcome changes the time alone.
    pub(crate) fn sweep(&mut self, guess: &Multipliers, incumbent: &mut Incumbent) -> Bounded
        requires live { IsLive self.old.instance.trees self.old.side }
        requires sets { length incumbent.old.sets ≡ length self.old.instance.trees }
        // What is looked at stays.
        ensures instance { self.new.instance ≡ self.old.instance }
        ensures side { self.new.side ≡ self.old.side }
        // What the sweep came to, and what was offered.
        ensures sweeps { IsSweepAt self.old.instance self.old.side result.m }
        ensures bound { IsBoundAt self.old.instance result.m self.old.side result.key }
        ensures sets { length incumbent.new.sets ≡ length self.old.instance.trees }
        ensures offered { IsOfferedAt self.old.instance self.old.side incumbent.old incumbent.new }
    {
        let near = forecast(&mut self.relaxation, &self.kept, guess);
        self.kept
            .put_multipliers(&Multipliers::zero(self.problem.goods()));
        improve_kept(&mut self.kept, &near, &mut self.desk);
        incumbent.offer(&self.kept);
        kept_bound(&self.kept)
    }

    /// Offers the relaxed sets. Where the side has no node to be split at, its swept bound is then
    /// at most the value.
    pub(crate) fn offer(&self, incumbent: &mut Incumbent)
        requires live { IsLive self.now.instance.trees self.now.side }
        requires sets { length incumbent.old.sets ≡ length self.now.instance.trees }
        requires low { neg_ℤ (pos 200000000000000) ≤ℤ incumbent.old.value }
        ensures sets { length incumbent.new.sets ≡ length self.now.instance.trees }
        ensures offered { IsOfferedAt self.now.instance self.now.side incumbent.old incumbent.new }
        ensures closed { HasNoNode self.now.instance.trees self.now.side → (v : ℤ)
            → IsSweptBound self.now.instance.trees self.now.instance.exact self.now.instance.weights
            self.now.side v → v ≤ℤ incumbent.new.value }
    {
        // They are known to be open, one for each bidder.
        let _sets = self.kept.sets();
        incumbent.offer(&self.kept);
    }
}
