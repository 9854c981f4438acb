//! The weights of all flows.

ghost use Rattle.std.specs.Prelude.{◌≡◌, ◌≤◌, ◌^◌, IfErr, IfOk, IfSome, List, MatchOption, false, length, slice_index};
ghost use Rattle.vp_terms.specs.WellFormed.{IsWellFormed};
ghost use Rattle.vp_poly.specs.declared.scaled.Scaled.{Scaled};
ghost use Rattle.vp_poly.specs.Weights.{fits};
ghost use Rattle.vp_flow.specs.Bounds.{bounds_of};
ghost use Rattle.vp_flow.specs.Sides.{AreHeights, AreRightSides, model, polys};
ghost use Rattle.vp_flow.specs.Outcome.{AreLinear, Refuses};
ghost use Rattle.vp_flow.specs.Weighing.{AreBounds};
ghost use Rattle.vp_flow.specs.Flows.{AreOfBounds, IsOfBounds};
ghost use Rattle.vp_flow.specs.Weights.{flow_weight};

use crate::sides::name_of;
use crate::{Bounds, FlowErr};
use std::alloc::Global;
use vp_poly::{Scaled, Weight};
use vp_terms::Package;

// The weights of the flows of all states, unless one is over.
pub(crate) fn weights(
    alloc: Global,
    pkg: &Package,
    sides: &[Scaled],
    bounds: Option<Bounds>,
    heights: &[u32],
) -> Result<Vec<Weight>, FlowErr>
    requires sides { AreRightSides pkg.now sides.now }
    requires linear { AreLinear pkg.now sides.now }
    requires bounds { AreBounds sides.now bounds }
    requires count { length heights.now ≡ length pkg.now.names.states }
    requires heights { AreHeights (model pkg.now) (polys sides.now) (slice_index heights.now) }
    ensures weights { IfOk result (λ v. AreOfBounds (bounds_of sides.now) heights.now (length
        heights.now) v.items) }
    ensures refused { IfErr result (Refuses pkg.now) }
{
    let mut weights = Vec::new(alloc);
    for height in heights {
        let Some(weight) = weight_at(bounds, *height) else {
            let name = name_of(alloc, pkg, weights.len())?;
            return Err(FlowErr::Wide { name });
        };
        weights.push(weight)?;
    }
    Ok(weights)
}

// The weight of a flow of that height. None exactly where it is over.
fn weight_at(bounds: Option<Bounds>, height: u32) -> Option<Weight>
    requires { IfSome bounds (λ b. 1 ≤ b.common) }
    ensures { (qs : List Scaled) → AreBounds qs bounds → MatchOption result
        (fits (flow_weight (bounds_of qs) height) ≡ false) (IsOfBounds (bounds_of qs) height) }
{
    if height == 0 {
        return Some(Weight::new(1, 1, 1, 1));
    }
    match bounds {
        Some(bounds) => bounds.weight(height),
        None => None,
    }
}
