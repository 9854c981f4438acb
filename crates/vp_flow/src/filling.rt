//! The series of all states in the order of their dependencies.

ghost use Rattle.std.specs.Prelude.{◌≡◌, ℕ, ◌<◌, ◌≤◌, length, slice_index, IfOk, [], replicate};
ghost use Rattle.vp_poly.specs.Places.{places_for};
ghost use Rattle.vp_flow.specs.Parts.{AreSides, IsLow};
ghost use Rattle.vp_flow.specs.Order.{Fall, IsOrder};
ghost use Rattle.vp_flow.specs.Filled.{AreFilled};

use crate::Rates;
use std::alloc::{AllocError, Global};
use vp_poly::Poly;
use vp_terms::Items;

impl Rates {
    // The series of the states in this order, in which each stands after those that it uses.
    pub(crate) fn series(
        &self,
        alloc: Global,
        order: &[usize],
        heights: &[u32],
    ) -> Result<Vec<Items<Poly>>, AllocError>
        requires sides { AreSides self.now }
        requires order { IsOrder (places_for self.now.counts) self.now.sides order.now }
        requires heights { Fall (places_for self.now.counts) self.now.sides (slice_index heights.now) }
        requires count { length heights.now ≡ self.now.counts.states }
        requires low { (i k : ℕ) → i < self.now.counts.states → k ≤ slice_index heights.now i →
            IsLow self.now.bounds k }
        ensures { IfOk result (λ v. AreFilled self.now (slice_index heights.now) order.now (length
            order.now) v.items) }
    {
        let mut series = no_series(alloc, usize::from(self.counts.states))?;
        for state in order {
            series[*state] = self.series_of(alloc, *state, heights[*state], &series)?;
        }
        Ok(series)
    }
}

// An empty series for each state.
fn no_series(alloc: Global, states: usize) -> Result<Vec<Items<Poly>>, AllocError>
    ensures { IfOk result (λ v. v.items ≡ replicate states []) }
{
    let mut series = Vec::new(alloc);
    for _k in 0..states {
        series.push(Items::of(Vec::new(alloc)))?;
    }
    Ok(series)
}
