//! The flows of a package's states.

ghost use Rattle.std.specs.Prelude.{◌≡◌, ◌+◌, ℕ, Bool, All, IfErr, IfOk};
ghost use Rattle.vp_words.specs.Record.{IsValid};
ghost use Rattle.vp_terms.specs.Places.{place_count};
ghost use Rattle.vp_terms.specs.WellFormed.{IsWellFormed};
ghost use Rattle.vp_poly.specs.Canonical.{IsEntry};
ghost use Rattle.vp_poly.specs.Places.{AreBelow, HaveOnly, places_for};
ghost use Rattle.vp_flow.specs.Sides.{AreRightSides, model, polys};
ghost use Rattle.vp_flow.specs.Outcome.{AreFlows, AreLinear, Refuses};
ghost use Rattle.vp_flow.specs.Solution.{Solve, Start};
ghost use Rattle.vp_flow.specs.Placed.{AllowsFlows};
ghost use Rattle.vp_flow.specs.Valued.{HaveValues};
ghost use Rattle.vp_flow.specs.Scheduled.{IsSchedule};
ghost use Rattle.vp_flow.specs.Weighing.{AreBounds};
ghost use Rattle.vp_flow.specs.Flows.{AreOfBounds};
ghost use Rattle.vp_flow.specs.Bounds.{bounds_of};

use crate::schedule::{Schedule, scheduled};
use crate::sides::{check_linear, right_sides};
use crate::weighing::weights;
use crate::{Bounds, FlowErr, Rates};
use std::alloc::{AllocError, Global};
use vp_poly::laws::places_pass_tests;
use vp_poly::{Scaled, Weight, counts_of};
use vp_terms::Package;
use vp_terms::laws::{
    places_tell_variables, variables_pass_tests, well_formed_parts_have_allowed_variables,
};
use vp_words::Counts;

/// The flow of each state: where the plant's equations take it, as a polynomial in states,
/// parameters, controls and `tau`. The rules are in `docs/monitors.md`.
pub fn flow(alloc: Global, pkg: &Package) -> Result<Vec<Scaled>, FlowErr>
    requires { IsWellFormed pkg.now }
    ensures flows { IfOk result (λ v. AreFlows pkg.now v.items) }
    ensures start { IfOk result (λ v. Start pkg.now v.items) }
    ensures derivative { IfOk result (λ v. Solve pkg.now v.items) }
    ensures values { IfOk result (λ v. HaveValues v.items) }

    // Each stands among the places of the model, and has parameters, states, controls and `tau` alone.
    ensures entries { IfOk result (λ v. All (IsEntry (place_count (model pkg.now))) v.items) }
    ensures only { (allowed : ℕ → Bool) → AllowsFlows (model pkg.now) allowed →
        IfOk result (λ v. All (λ s. HaveOnly allowed s.poly) v.items) }

    ensures refused { IfErr result (Refuses pkg.now) }
{
    places_pass_tests();
    places_tell_variables();
    well_formed_parts_have_allowed_variables();
    let counts = counts_of(&pkg.names);
    let sides = right_sides(alloc, pkg, counts)?;
    check_linear(alloc, pkg, &sides, counts)?;
    let schedule = scheduled(alloc, pkg, &sides, counts)?;
    let bounds = Bounds::of(&sides);
    let weights = weights(alloc, pkg, &sides, bounds, &schedule.heights)?;
    let flows = flows(alloc, pkg, &sides, counts, &schedule, bounds, &weights)?;
    Ok(flows)
}

// The flows, where nothing refuses them.
fn flows(
    alloc: Global,
    pkg: &Package,
    sides: &[Scaled],
    counts: Counts,
    schedule: &Schedule,
    bounds: Option<Bounds>,
    weights: &[Weight],
) -> Result<Vec<Scaled>, AllocError>
    requires good { IsWellFormed pkg.now }
    requires places { places_for counts ≡ model pkg.now }
    requires valid { IsValid counts }
    requires sides { AreRightSides pkg.now sides.now }
    requires linear { AreLinear pkg.now sides.now }
    requires low { All (λ q. AreBelow (counts.params + counts.states + counts.controls) q.poly)
        sides.now }
    requires schedule { IsSchedule (places_for counts) (polys sides.now) schedule.now }
    requires bounds { AreBounds sides.now bounds }
    requires weights { AreOfBounds (bounds_of sides.now) schedule.now.heights.items counts.states
        weights.now }
    ensures flows { IfOk result (λ v. AreFlows pkg.now v.items) }
    ensures start { IfOk result (λ v. Start pkg.now v.items) }
    ensures derivative { IfOk result (λ v. Solve pkg.now v.items) }
    ensures only { (allowed : ℕ → Bool) → AllowsFlows (model pkg.now) allowed →
        IfOk result (λ v. All (λ s. HaveOnly allowed s.poly) v.items) }
{
    places_pass_tests();
    places_tell_variables();
    variables_pass_tests();
    well_formed_parts_have_allowed_variables();
    let rates = Rates::of(alloc, sides, counts, bounds.unwrap_or(Bounds::LEAST))?;
    let flows = rates.flows(alloc, &schedule.order, &schedule.heights, weights)?;
    Ok(flows)
}
