//! What a search gives, from its parts.
ghost use Rattle.std.specs.Prelude.{◌≡◌, ◌+◌, ◌*◌, ◌≤◌, length, IfOk};
ghost use Rattle.ice_defs.specs.Steps.{branch_count};
ghost use Rattle.ice_search_log.specs.Searching.{IsAboveWhole, IsNext};
ghost use Rattle.ice_search.specs.Nodes.{IsSplitNode};
ghost use Rattle.ice_search.specs.Results.{IsFoundBy, IsSpentBy};
ghost use Rattle.ice_search.specs.State.{LooksAt};

use crate::frontier::key_of;
use crate::progress::Progress;
use crate::results::{Found, Spent};
use ice_refute::Log;
use ice_relaxation::Candidate;
use ice_search_log::write_log;
use std::alloc::{AllocError, Global};

impl<'a> Progress<'a> {
    /// The best assignment, where no part that isn't split has a bound above its value.
    pub(crate) fn found(self, alloc: Global) -> Result<Found, AllocError>
        requires whole { IsAboveWhole self.parts self.value }
        requires few { length self.parts ≤ 1000000 }
        ensures found { IfOk result (IsFoundBy self.entry.instance) }
        ensures branches { IfOk result (λ f. 2 * branch_count f.log + 1 ≤ length self.entry.parts) }
    {
        let mut log = Log::new(alloc);
        write_log(alloc, &self.parts, Some(self.incumbent.value), &mut log)?;
        Ok(Found {
            best: self.incumbent.sets,
            value: self.incumbent.value,
            log,
        })
    }

    /// What is known where the next part, which would be split at a node, may not be split.
    pub(crate) fn spent(
        self,
        alloc: Global,
        number: u32,
        node: Candidate,
    ) -> Result<Spent, AllocError>
        requires looks { LooksAt self number }
        requires next { IsNext self.parts self.value number }
        requires node { IsSplitNode self.instance.trees self.side node.bidder node.node }
        requires few { length self.parts ≤ 1000000 }
        ensures spent { IfOk result (λ s. IsSpentBy self.entry.instance (branch_count s.log) s) }
        ensures branches { IfOk result (λ s. 2 * branch_count s.log + 1 ≡ length self.entry.parts) }
    {
        let bound = key_of(&self.parts[number as usize]);
        let mut log = Log::new(alloc);
        write_log(alloc, &self.parts, None, &mut log)?;
        Ok(Spent {
            found: self.incumbent.sets,
            value: self.incumbent.value,
            bound,
            log,
        })
    }
}
