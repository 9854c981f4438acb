//! The conjuncts of the plant monitor.
ghost use Rattle.std.specs.Prelude.{◌≡◌, ◌↔◌, ◌+◌, ◌<◌, ◌≤◌, take, drop, ◌∷◌, [], ℕ, Bool, All, Err, IfErr, IfOk, IsOk, IsTrue, length, map, true, false};
ghost use Rattle.vp_words.specs.Record.{IsValid};
ghost use Rattle.vp_terms.specs.Control.{Values, changing};
ghost use Rattle.vp_terms.specs.Meaning.{Assignment, compares, holds, value};
ghost use Rattle.vp_terms.specs.Places.{place_count};
ghost use Rattle.vp_terms.specs.Plant.{Flow, IsWithin, PlantStep};
ghost use Rattle.vp_terms.specs.Rational.{Rational, difference as minus};
ghost use Rattle.vp_terms.specs.WellFormed.{IsGoodPlant, IsWellFormed, is_good_slack};
ghost use Rattle.vp_terms.specs.declared.expr.Var.TheVariants.{NextState, State, Tau};
ghost use Rattle.vp_terms.specs.declared.expr.Expr.TheVariants.{Var as Variable};
ghost use Rattle.vp_terms.specs.declared.formula.Cmp.TheVariants.{Le};
ghost use Rattle.vp_poly.specs.Canonical.{IsEntry, IsEnvironment, StandsAt, StandsWithin};
ghost use Rattle.vp_poly.specs.Coefficient.{Coefficients};
ghost use Rattle.vp_poly.specs.Places.{HaveOnly, places_for};
ghost use Rattle.vp_poly.specs.Points.{IsAt};
ghost use Rattle.vp_poly.specs.Value.{Point};
ghost use Rattle.vp_poly.specs.Weights.{Weights};
ghost use Rattle.vp_logic.specs.Sized.{EachHasOnly, EachIsSized};
ghost use Rattle.vp_logic.specs.Tree.{tree};
ghost use Rattle.vp_logic.specs.Truth.{parts_hold};
ghost use Rattle.vp_flow.specs.Outcome.{AreFlows};
ghost use Rattle.vp_flow.specs.Placed.{AllowsFlows};
ghost use Rattle.vp_flow.specs.Sides.{model};
ghost use Rattle.vp_flow.specs.Valued.{HaveValues};
ghost use Rattle.vp_monitor.specs.Errors.{Tells};
ghost use Rattle.vp_monitor.specs.Flowing.{IsExactFlow};
ghost use Rattle.vp_monitor.specs.Meaning.{AllowsPlant, is_in_plant};
ghost use Rattle.vp_monitor.specs.Plant.{AreAllSlackConjuncts, AreDomainConjuncts, ArePlantConjuncts, AreSlackConjuncts, AreTimeConjuncts, arrived};
ghost use Rattle.vp_monitor.specs.Refusals.{IsSlackOver, IsTimeOver, PlantPasses, RefusesPlant, SlackFits, SlackFitsBelow, TimePasses, fits_in};
ghost use Rattle.vp_monitor.specs.Slack.{IsDrift, TellsSlack};
ghost use Rattle.vp_monitor.specs.Standing.{AreSelves, AreWithinSlack, Flowing, flowed};

use crate::comparing::difference;
use crate::standing::with_states;
use crate::{MonErr, Place};
use std::alloc::{AllocError, Global};
use vp_flow::laws::{sides_and_heights_are_unique, values_are_unique};
use vp_logic::laws::{conjuncts_stay_small, normal_forms_compose};
use vp_logic::{Norm, Rel, conjuncts, normal};
use vp_poly::laws::{
    multiples_combine, polynomials_are_unique, polynomials_depend_on_variables, replacing_composes,
    values_respect_equality,
};
use vp_poly::{PolyErr, Scaled, of_difference};
use vp_terms::laws::{
    meaning_depends_on_variables, variables_have_places, variables_pass_tests,
    well_formed_parts_have_allowed_variables,
};
use vp_terms::{Expr, Package, Plant, Slack, Var};
use vp_words::Counts;

/// The conjuncts of a package's plant: the bounds of the time, the slack of each state, and the domain
/// at the new states. `env` has each variable itself, and `flows` are the flows of the states.
pub(crate) fn plant_conjuncts(
    alloc: Global,
    pkg: &Package,
    counts: Counts,
    env: &[Scaled],
    flows: &[Scaled],
) -> Result<Vec<Norm>, MonErr>
    requires good { IsWellFormed pkg.now }
    requires places { places_for counts ≡ model pkg.now }
    requires valid { IsValid counts }
    requires env { AreSelves counts env.now }
    requires flows { AreFlows pkg.now flows.now }
    requires entries { All (IsEntry (place_count (places_for counts))) flows.now }
    requires values { HaveValues flows.now }
    requires only { (allowed : ℕ → Bool) → AllowsFlows (places_for counts) allowed →
        All (λ s. HaveOnly allowed s.poly) flows.now }
    ensures exact { IfOk result (λ v. ArePlantConjuncts pkg.now (map tree v.items)) }
    ensures passes { IsOk result → PlantPasses pkg.now }
    ensures refused { IfErr result (RefusesPlant pkg.now) }
    ensures meaning { (flow : Flow) → IsExactFlow pkg.now flow → (z : Point) (p x u v y : Values) (t : Rational) →
        IsAt (places_for counts) z (changing p x u v t y) →
        IfOk result (λ w. IsTrue (parts_hold (map tree w.items) z) ↔ PlantStep flow pkg.now.plant p x u t y) }
    ensures sized { IfOk result (λ v. EachIsSized (place_count (places_for counts)) (map tree v.items)) }
    ensures only { (allowed : ℕ → Bool) → AllowsPlant (places_for counts) allowed →
        IfOk result (λ v. EachHasOnly allowed (map tree v.items)) }
{
    meaning_depends_on_variables();
    well_formed_parts_have_allowed_variables();
    sides_and_heights_are_unique();
    values_are_unique();
    values_respect_equality();
    multiples_combine();
    replacing_composes();
    let mut all = match time_conjuncts(alloc, &pkg.plant, counts, env) {
        Ok(time) => time,
        Err(error) => return Err(MonErr::at(Place::Time, error)),
    };
    let flowing = with_states(alloc, counts, env, flows)?;
    let mut slack = all_slack_conjuncts(alloc, &pkg.plant, counts, env, &flowing)?;
    let mut domain = domain_conjuncts(alloc, &pkg.plant, counts, env)?;
    all.append(&mut slack)?;
    all.append(&mut domain)?;
    Ok(all)
}

// The time is at least its low bound and at most its high one.
fn time_conjuncts(
    alloc: Global,
    plant: &Plant,
    counts: Counts,
    env: &[Scaled],
) -> Result<Vec<Norm>, PolyErr>
    requires good { IsGoodPlant (places_for counts) plant.now }
    requires env { AreSelves counts env.now }
    ensures exact { IfOk result (λ v. AreTimeConjuncts (places_for counts) plant.now (map tree v.items)) }
    ensures fits { IsOk result → TimePasses (places_for counts) plant.now }
    ensures wide { result ≡ Err PolyErr.Wide → IsTimeOver (places_for counts) plant.now }
    ensures meaning { (z : Point) (a : Assignment) → IsAt (places_for counts) z a →
        IfOk result (λ v. IsTrue (parts_hold (map tree v.items) z) ↔
        (IsTrue (compares Le (value plant.now.low a) (a Tau)) × IsTrue (compares Le (a Tau) (value plant.now.high a)))) }
    ensures sized { IfOk result (λ v. EachIsSized (place_count (places_for counts)) (map tree v.items)) }
    ensures only { (allowed : ℕ → Bool) → AllowsPlant (places_for counts) allowed →
        IfOk result (λ v. EachHasOnly allowed (map tree v.items)) }
{
    variables_have_places();
    variables_pass_tests();
    well_formed_parts_have_allowed_variables();
    let tau = Expr::Var(Var::Tau);
    let low = difference(alloc, Rel::Ge, &tau, &plant.low, counts, env)?;
    let high = difference(alloc, Rel::Ge, &plant.high, &tau, counts, env)?;
    let both = pair(alloc, low, high)?;
    Ok(both)
}

// The conjuncts of all states' slacks.
fn all_slack_conjuncts(
    alloc: Global,
    plant: &Plant,
    counts: Counts,
    env: &[Scaled],
    flowing: &[Scaled],
) -> Result<Vec<Norm>, MonErr>
    requires good { IsGoodPlant (places_for counts) plant.now }
    requires valid { IsValid counts }
    requires env { AreSelves counts env.now }
    requires flowing { IsEnvironment (place_count (places_for counts)) flowing.now }
    ensures exact { (f : ℕ → Coefficients) (w : ℕ → Weights) → Flowing (places_for counts) flowing.now f w →
        IfOk result (λ v. AreAllSlackConjuncts (places_for counts) f w 0 plant.now.slack (map tree v.items)) }
    ensures fits { (f : ℕ → Coefficients) (w : ℕ → Weights) → Flowing (places_for counts) flowing.now f w →
        IsOk result → SlackFitsBelow (places_for counts) w plant.now.slack (length plant.now.slack) }
    ensures refused { (f : ℕ → Coefficients) (w : ℕ → Weights) → Flowing (places_for counts) flowing.now f w →
        IfErr result (TellsSlack (places_for counts) w plant.now.slack) }
    ensures meaning { (z : Point) (a : Assignment) (x : Values) → IsAt (places_for counts) z a →
        StandsAt (places_for counts) flowing.now z (flowed x a) →
        IfOk result (λ v. IsTrue (parts_hold (map tree v.items) z) ↔ AreWithinSlack a x 0 plant.now.slack) }
    ensures sized { IfOk result (λ v. EachIsSized (place_count (places_for counts)) (map tree v.items)) }
    ensures only { (allowed : ℕ → Bool) → StandsWithin (places_for counts) flowing.now (is_in_plant (places_for counts)) allowed →
        IfOk result (λ v. EachHasOnly allowed (map tree v.items)) }
{
    let mut all = Vec::new(alloc);
    for (i, slack) in plant.slack.get().iter().enumerate() {
        let state = i as u32;
        let mut parts = match slack_conjuncts(alloc, slack, state, counts, env, flowing) {
            Ok(parts) => parts,
            Err(error) => return Err(MonErr::at(Place::Slack(state), error)),
        };
        all.append(&mut parts)?;
    }
    Ok(all)
}

// The drift of a state is within its slack: one equation where the bounds are the same.
fn slack_conjuncts(
    alloc: Global,
    slack: &Slack,
    state: u32,
    counts: Counts,
    env: &[Scaled],
    flowing: &[Scaled],
) -> Result<Vec<Norm>, PolyErr>
    requires good { IsTrue (is_good_slack (places_for counts) slack.now) }
    requires state { state < counts.states }
    requires env { AreSelves counts env.now }
    requires flowing { IsEnvironment (place_count (places_for counts)) flowing.now }
    ensures exact { (f : ℕ → Coefficients) (w : ℕ → Weights) → Flowing (places_for counts) flowing.now f w →
        IfOk result (λ v. AreSlackConjuncts (places_for counts) state (f state) (w state) slack.now (map tree v.items)) }
    ensures fits { (f : ℕ → Coefficients) (w : ℕ → Weights) → Flowing (places_for counts) flowing.now f w →
        IsOk result → SlackFits (places_for counts) (w state) slack.now }
    ensures wide { (f : ℕ → Coefficients) (w : ℕ → Weights) → Flowing (places_for counts) flowing.now f w →
        result ≡ Err PolyErr.Wide → IsSlackOver (places_for counts) (w state) slack.now }
    ensures meaning { (z : Point) (a : Assignment) (x : Values) → IsAt (places_for counts) z a →
        StandsAt (places_for counts) flowing.now z (flowed x a) →
        IfOk result (λ v. IsTrue (parts_hold (map tree v.items) z) ↔ IsWithin slack.now a (minus (a (NextState state)) (x state))) }
    ensures sized { IfOk result (λ v. EachIsSized (place_count (places_for counts)) (map tree v.items)) }
    ensures only { (allowed : ℕ → Bool) → StandsWithin (places_for counts) flowing.now (is_in_plant (places_for counts)) allowed →
        IfOk result (λ v. EachHasOnly allowed (map tree v.items)) }
{
    polynomials_are_unique();
    polynomials_depend_on_variables();
    meaning_depends_on_variables();
    variables_have_places();
    variables_pass_tests();
    well_formed_parts_have_allowed_variables();
    let span = of_difference(alloc, &slack.high, &slack.low, counts, env)?;
    let drift = drift(alloc, state)?;
    if span.poly.is_zero() {
        let same = difference(alloc, Rel::Eq, &drift, &slack.low, counts, flowing)?;
        let one = alone(alloc, same)?;
        return Ok(one);
    }
    let low = difference(alloc, Rel::Ge, &drift, &slack.low, counts, flowing)?;
    let high = difference(alloc, Rel::Ge, &slack.high, &drift, counts, flowing)?;
    let both = pair(alloc, low, high)?;
    Ok(both)
}

// The new state less the state, which stands for its flow.
fn drift(alloc: Global, state: u32) -> Result<Expr, AllocError>
    ensures { IfOk result (IsDrift state) }
{
    let new = Box::new(alloc, Expr::Var(Var::NextState(state)))?;
    let flow = Box::new(alloc, Expr::Var(Var::State(state)))?;
    Ok(Expr::Sub(new, flow))
}

// The conjuncts of the domain at the new states.
fn domain_conjuncts(
    alloc: Global,
    plant: &Plant,
    counts: Counts,
    env: &[Scaled],
) -> Result<Vec<Norm>, MonErr>
    requires good { IsGoodPlant (places_for counts) plant.now }
    requires valid { IsValid counts }
    requires env { AreSelves counts env.now }
    ensures exact { IfOk result (λ v. AreDomainConjuncts (places_for counts) plant.now (map tree v.items)) }
    ensures fits { IsOk result → fits_in (places_for counts) (arrived plant.now) ≡ true }
    ensures refused { IfErr result (Tells Place.Domain (fits_in (places_for counts) (arrived plant.now) ≡ false)) }
    ensures meaning { (z : Point) (a : Assignment) → IsAt (places_for counts) z a →
        IfOk result (λ v. parts_hold (map tree v.items) z ≡ holds (arrived plant.now) a) }
    ensures sized { IfOk result (λ v. EachIsSized (place_count (places_for counts)) (map tree v.items)) }
    ensures only { (allowed : ℕ → Bool) → AllowsPlant (places_for counts) allowed →
        IfOk result (λ v. EachHasOnly allowed (map tree v.items)) }
{
    normal_forms_compose();
    replacing_composes();
    conjuncts_stay_small();
    variables_have_places();
    variables_pass_tests();
    well_formed_parts_have_allowed_variables();
    let next = next_states(counts, env);
    let arriving = with_states(alloc, counts, env, next)?;
    let domain = match normal(alloc, &plant.domain, counts, &arriving) {
        Ok(domain) => domain,
        Err(error) => return Err(MonErr::at(Place::Domain, error)),
    };
    let parts = conjuncts(alloc, domain)?;
    Ok(parts)
}

// What stands for the next states.
fn next_states(counts: Counts, env: &[Scaled]) -> &[Scaled]
    requires valid { IsValid counts }
    requires env { AreSelves counts env.now }
    ensures { result.now ≡ take (places_for counts).states (drop ((places_for counts).params +
        (places_for counts).states + (places_for counts).controls) env.now) }
{
    let first = usize::from(counts.params + counts.states + counts.controls);
    let behind = first + usize::from(counts.states);
    &env[first..behind]
}

fn alone(alloc: Global, one: Norm) -> Result<Vec<Norm>, AllocError>
    ensures { IfOk result (λ v. v.items ≡ one ∷ []) }
{
    let mut list = Vec::new(alloc);
    list.push(one)?;
    Ok(list)
}

fn pair(alloc: Global, one: Norm, other: Norm) -> Result<Vec<Norm>, AllocError>
    ensures { IfOk result (λ v. v.items ≡ one ∷ other ∷ []) }
{
    let mut list = Vec::new(alloc);
    list.push(one)?;
    list.push(other)?;
    Ok(list)
}
