//! How the monitors of a package are made.
ghost use Rattle.std.specs.Prelude.{◌≡◌, ◌↔◌, ◌≤◌, ℕ, Bool, All, IfErr, IfOk, IsOk, IsTrue, Some, length, slice_get, string_bytes, true, false};
ghost use Rattle.vp_words.specs.Record.{IsValid};
ghost use Rattle.vp_terms.specs.Control.{Values, assigned, changing};
ghost use Rattle.vp_terms.specs.Meaning.{holds};
ghost use Rattle.vp_terms.specs.Places.{place_count};
ghost use Rattle.vp_terms.specs.Plant.{Flow};
ghost use Rattle.vp_terms.specs.Rational.{Rational};
ghost use Rattle.vp_terms.specs.WellFormed.{IsWellFormed, in_model, is_good_formula};
ghost use Rattle.vp_poly.specs.Canonical.{IsEntry};
ghost use Rattle.vp_poly.specs.Places.{HaveOnly, places_for};
ghost use Rattle.vp_poly.specs.Points.{IsAt};
ghost use Rattle.vp_poly.specs.Value.{Point};
ghost use Rattle.vp_logic.specs.Sized.{IsSized, TreeHasOnly};
ghost use Rattle.vp_logic.specs.Tree.{tree};
ghost use Rattle.vp_logic.specs.Truth.{tree_holds};
ghost use Rattle.vp_flow.specs.Outcome.{AreFlows};
ghost use Rattle.vp_flow.specs.Placed.{AllowsFlows};
ghost use Rattle.vp_flow.specs.Sides.{model};
ghost use Rattle.vp_flow.specs.Valued.{HaveValues};
ghost use Rattle.vp_monitor.specs.Errors.{IsFlowOver, Tells};
ghost use Rattle.vp_monitor.specs.Flowing.{IsExactFlow};
ghost use Rattle.vp_monitor.specs.Meaning.{AllowsModel, AreSized, HaveOwnPlaces, Mean};
ghost use Rattle.vp_monitor.specs.Monitors.{AreMonitors};
ghost use Rattle.vp_monitor.specs.Plant.{IsOwnNormal};
ghost use Rattle.vp_monitor.specs.Refusals.{Passes, Refuses, RefusesFlow, fits_in};
ghost use Rattle.vp_monitor.specs.Standing.{AreSelves};

use crate::fallback::fallback_polynomials;
use crate::plant::plant_conjuncts;
use crate::standing::selves;
use crate::{MonErr, Monitors, Place};
use std::alloc::Global;
use vp_ctrl::{Path, paths};
use vp_flow::{FlowErr, flow};
use vp_logic::{Norm, normal};
use vp_poly::laws::{multiples_combine, points_have_assignments, values_respect_equality};
use vp_poly::{Poly, Scaled, counts_of};
use vp_terms::laws::{
    meaning_depends_on_variables, places_tell_variables, variables_have_places,
    variables_pass_tests, well_formed_parts_have_allowed_variables,
};
use vp_terms::{Formula, Items, NameList, NameText, Package};
use vp_words::Counts;

/// The monitors of a package, or the first refusal that is due.
pub fn monitors(alloc: Global, pkg: &Package) -> Result<Monitors, MonErr>
    requires { IsWellFormed pkg.now }

    ensures exact { IfOk result (AreMonitors pkg.now) }

    // Each refusal comes exactly where it is due.
    ensures passes { IsOk result → Passes pkg.now }
    ensures refused { IfErr result (Refuses pkg.now) }

    // What they mean, for the exact flow of the plant; and there is one.
    ensures meaning { (flow : Flow) → IsExactFlow pkg.now flow → IfOk result (Mean flow pkg.now) }
    ensures flow { IsOk result → (flow : Flow) × IsExactFlow pkg.now flow }

    ensures valid { IfOk result (λ m. IsValid m.counts) }
    ensures sized { IfOk result AreSized }
    ensures places { IfOk result HaveOwnPlaces }
{
    let counts = counts_of(&pkg.names);
    let env = selves(alloc, counts)?;
    let m = monitors_over(alloc, pkg, counts, &env)?;
    Ok(m)
}

// The same, where `env` has each variable itself.
fn monitors_over(
    alloc: Global,
    pkg: &Package,
    counts: Counts,
    env: &[Scaled],
) -> Result<Monitors, MonErr>
    requires good { IsWellFormed pkg.now }
    requires places { places_for counts ≡ model pkg.now }
    requires valid { IsValid counts }
    requires env { AreSelves counts env.now }
    ensures exact { IfOk result (AreMonitors pkg.now) }
    ensures passes { IsOk result → Passes pkg.now }
    ensures refused { IfErr result (Refuses pkg.now) }
    ensures meaning { (flow : Flow) → IsExactFlow pkg.now flow → IfOk result (Mean flow pkg.now) }
    ensures flow { IsOk result → (flow : Flow) × IsExactFlow pkg.now flow }
    ensures valid { IfOk result (λ m. IsValid m.counts) }
    ensures sized { IfOk result AreSized }
    ensures places { IfOk result HaveOwnPlaces }
{
    places_tell_variables();
    points_have_assignments();
    values_respect_equality();
    multiples_combine();
    meaning_depends_on_variables();
    well_formed_parts_have_allowed_variables();
    let init = form(alloc, &pkg.init, Place::Init, counts, env)?;
    let inv = form(alloc, &pkg.inv, Place::Inv, counts, env)?;
    let safe = form(alloc, &pkg.safe, Place::Safe, counts, env)?;
    let paths = paths(alloc, pkg)?;
    let flows = flows(alloc, pkg)?;
    let plant = plant_conjuncts(alloc, pkg, counts, env, &flows)?;
    let fallback = fallback_polynomials(alloc, pkg, counts, env)?;
    Ok(assembled(counts, init, inv, safe, paths, plant, fallback))
}

// All of them together.
fn assembled(
    counts: Counts,
    init: Norm,
    inv: Norm,
    safe: Norm,
    paths: Vec<Path>,
    plant: Vec<Norm>,
    fallback: Vec<Poly>,
) -> Monitors
    ensures { result ≡ record { counts = counts; init = init; inv = inv; safe = safe; paths = paths.items; plant = plant.items; fallback = fallback.items } }
{
    Monitors {
        counts,
        init,
        inv,
        safe,
        paths: Items::of(paths),
        plant: Items::of(plant),
        fallback: Items::of(fallback),
    }
}

// The normal form of a formula that stands at this place.
fn form(
    alloc: Global,
    formula: &Formula,
    place: Place,
    counts: Counts,
    env: &[Scaled],
) -> Result<Norm, MonErr>
    requires valid { IsValid counts }
    requires env { AreSelves counts env.now }
    requires good { IsTrue (is_good_formula in_model (places_for counts) formula.now) }
    ensures form { IfOk result (λ n. IsOwnNormal (places_for counts) formula.now (tree n)) }
    ensures fits { IsOk result → fits_in (places_for counts) formula.now ≡ true }
    ensures refused { IfErr result (Tells place (fits_in (places_for counts) formula.now ≡ false)) }
    ensures holds { (z : Point) (p x u v y : Values) (t : Rational) →
        IsAt (places_for counts) z (changing p x u v t y) →
        IfOk result (λ n. tree_holds (tree n) z ≡ holds formula.now (assigned p x u)) }
    ensures sized { IfOk result (λ n. IsSized (place_count (places_for counts)) (tree n)) }
    ensures only { (allowed : ℕ → Bool) → AllowsModel (places_for counts) allowed →
        IfOk result (λ n. TreeHasOnly allowed (tree n)) }
{
    variables_have_places();
    variables_pass_tests();
    well_formed_parts_have_allowed_variables();
    meaning_depends_on_variables();
    match normal(alloc, formula, counts, env) {
        Ok(form) => Ok(form),
        Err(error) => Err(MonErr::at(place, error)),
    }
}

// The flows of all states.
fn flows(alloc: Global, pkg: &Package) -> Result<Vec<Scaled>, MonErr>
    requires { IsWellFormed pkg.now }
    ensures flows { IfOk result (λ v. AreFlows pkg.now v.items) }
    ensures values { IfOk result (λ v. HaveValues v.items) }
    ensures entries { IfOk result (λ v. All (IsEntry (place_count (model pkg.now))) v.items) }
    ensures only { (allowed : ℕ → Bool) → AllowsFlows (model pkg.now) allowed →
        IfOk result (λ v. All (λ s. HaveOnly allowed s.poly) v.items) }
    ensures refused { IfErr result (RefusesFlow pkg.now) }
{
    match flow(alloc, pkg) {
        Ok(flows) => Ok(flows),
        Err(FlowErr::Rate { name }) => Err(over(&pkg.names.states, &name)),
        Err(FlowErr::Wide { name }) => Err(over(&pkg.names.states, &name)),
        Err(FlowErr::NotLinear { name }) => Err(MonErr::NotLinear { name }),
        Err(FlowErr::Cycle { names }) => Err(MonErr::Cycle { names }),
        Err(FlowErr::Memory) => Err(MonErr::Memory),
    }
}

// The flow of the state of this name is over.
fn over(names: &NameList, name: &NameText) -> MonErr
    requires few { length names.now ≤ 32 }
    requires some { (i : ℕ) × (slice_get names.now i ≡ Some name.now) }
    ensures { IsFlowOver names.now name.now result }
{
    MonErr::Wide {
        place: Place::Flow(number_of(names, name)),
    }
}

// The number of the state of this name.
fn number_of(names: &NameList, name: &NameText) -> u32
    requires few { length names.now ≤ 32 }
    requires some { (i : ℕ) × (slice_get names.now i ≡ Some name.now) }
    ensures { slice_get names.now result ≡ Some name.now }
{
    for (k, other) in names.get().iter().enumerate() {
        if is_named(other, name) {
            return k as u32;
        }
    }
    unreachable!()
}

// Whether this is the name.
fn is_named(text: &String, name: &NameText) -> bool
    ensures { IsTrue result ↔ (string_bytes text.now ≡ name.now) }
{
    text.as_str() == name.get()
}
