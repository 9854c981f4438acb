//! The flows of the states.

ghost use Rattle.std.specs.Prelude.{◌≡◌, ℕ, ◌<◌, ◌≤◌, suc, length, slice_get, slice_index, IfOk, Some, true};
ghost use Rattle.vp_poly.specs.Places.{places_for};
ghost use Rattle.vp_poly.specs.Weights.{fits};
ghost use Rattle.vp_flow.specs.Series.{tau_place};
ghost use Rattle.vp_flow.specs.Parts.{AreFirst, AreSides, IsLow};
ghost use Rattle.vp_flow.specs.Order.{Fall, IsOrder};
ghost use Rattle.vp_flow.specs.Filled.{AreFilled, row_at};
ghost use Rattle.vp_flow.specs.Weights.{flow_weight};
ghost use Rattle.vp_flow.specs.Flows.{AreFlowsOf, AreOfBounds, IsFlow};

use crate::Rates;
use std::alloc::{AllocError, Global};
use vp_poly::{Poly, Scaled, Weight};
use vp_terms::Items;

impl Rates {
    // The flows of all states, of these weights.
    pub(crate) fn flows(
        &self,
        alloc: Global,
        order: &[usize],
        heights: &[u32],
        weights: &[Weight],
    ) -> Result<Vec<Scaled>, AllocError>
        requires places { tau_place (places_for self.now.counts) < 32 }
        requires common { 1 ≤ self.now.bounds.common }
        requires sides { AreSides self.now }
        requires order { IsOrder (places_for self.now.counts) self.now.sides order.now }
        requires all { (j : ℕ) → j < self.now.counts.states → (t : ℕ) × (t < length
            order.now) × (slice_index order.now t ≡ j) }
        requires heights { Fall (places_for self.now.counts) self.now.sides (slice_index
            heights.now) }
        requires count { length heights.now ≡ self.now.counts.states }
        requires weights { AreOfBounds self.now.bounds heights.now
            self.now.counts.states weights.now }
        ensures { IfOk result (λ v. AreFlowsOf self.now (slice_index heights.now)
            self.now.counts.states v.items) }
    {
        let series = self.series(alloc, order, heights)?;
        let mut flows = Vec::new(alloc);
        for state in 0..weights.len() {
            flows.push(self.flow(alloc, state, heights[state], &series, weights[state])?)?;
        }
        Ok(flows)
    }

    // The flow of a state, from its series.
    fn flow(
        &self,
        alloc: Global,
        state: usize,
        height: u32,
        series: &[Items<Poly>],
        weight: Weight,
    ) -> Result<Scaled, AllocError>
        requires places { tau_place (places_for self.now.counts) < 32 }
        requires common { 1 ≤ self.now.bounds.common }
        requires state { state < length series.now }
        requires series { AreFirst self.now state (suc height) (row_at series.now state) }
        requires weight { weight ≡ flow_weight self.now.bounds height }
        requires fits { fits weight ≡ true }
        ensures { (h : ℕ → ℕ) → h state ≡ height → IfOk result (IsFlow self.now h state) }
    {
        let parts = series[state].get();
        let poly = self.assembled(alloc, parts)?;
        Ok(Scaled { poly, weight })
    }
}
