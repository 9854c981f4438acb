//! The polynomials of the fallback.
ghost use Rattle.std.specs.Prelude.{◌≡◌, ◌↔◌, ◌<◌, ℕ, Bool, true, false, All, Err, IfErr, IfOk, IsOk, IsTrue, Some, length, slice_get};
ghost use Rattle.std.specs.List.{list_all};
ghost use Rattle.vp_words.specs.Record.{IsValid};
ghost use Rattle.vp_terms.specs.Meaning.{Assignment, value as value_of};
ghost use Rattle.vp_terms.specs.Rational.{Equals};
ghost use Rattle.vp_terms.specs.WellFormed.{IsWellFormed, in_model, is_good_expr};
ghost use Rattle.vp_terms.specs.declared.expr.Expr.TheVariants.{Var as Variable};
ghost use Rattle.vp_terms.specs.declared.expr.Var.TheVariants.{NextControl};
ghost use Rattle.vp_poly.specs.Canonical.{IsCanonical, own_weight, variables};
ghost use Rattle.vp_poly.specs.Times.{IsTimes};
ghost use Rattle.vp_poly.specs.Coefficient.{coefficients};
ghost use Rattle.vp_poly.specs.Places.{HaveOnly, places_for};
ghost use Rattle.vp_poly.specs.Points.{IsAt};
ghost use Rattle.vp_poly.specs.Value.{Point, value_at};
ghost use Rattle.vp_flow.specs.Sides.{model};
ghost use Rattle.vp_monitor.specs.Fallback.{AreValuesOf, TellsFallback};
ghost use Rattle.vp_monitor.specs.Meaning.{AllowsModel, IsSmall};
ghost use Rattle.vp_monitor.specs.Monitors.{ArePolynomialsOf};
ghost use Rattle.vp_monitor.specs.Refusals.{FallbackGoodBelow, IsFallbackGood, RefusesFallback, difference_fits};
ghost use Rattle.vp_monitor.specs.Standing.{AreSelves};

use crate::{MonErr, Place};
use std::alloc::{AllocError, Global};
use vp_poly::{Poly, PolyErr, Scaled, of_difference, of_expr};
use vp_terms::laws::{
    variables_have_places, variables_pass_tests, well_formed_parts_have_allowed_variables,
};
use vp_terms::{Expr, NameText, Names, Package, Var};
use vp_words::Counts;

/// The polynomial of each control's fallback. `env` has each variable itself.
pub(crate) fn fallback_polynomials(
    alloc: Global,
    pkg: &Package,
    counts: Counts,
    env: &[Scaled],
) -> Result<Vec<Poly>, MonErr>
    requires good { IsWellFormed pkg.now }
    requires places { places_for counts ≡ model pkg.now }
    requires env { AreSelves counts env.now }
    ensures exact { IfOk result (λ v. ArePolynomialsOf (places_for counts) pkg.now.fallback v.items) }
    ensures good { IsOk result → FallbackGoodBelow (places_for counts) pkg.now.fallback (length pkg.now.fallback) }
    ensures refused { IfErr result (RefusesFallback pkg.now) }
    ensures meaning { (z : Point) (a : Assignment) → IsAt (places_for counts) z a →
        IfOk result (λ v. AreValuesOf z a pkg.now.fallback v.items) }
    ensures small { IfOk result (λ v. All IsSmall v.items) }
    ensures only { (allowed : ℕ → Bool) → AllowsModel (places_for counts) allowed →
        IfOk result (λ v. All (HaveOnly allowed) v.items) }
{
    let mut all = Vec::new(alloc);
    for (k, value) in pkg.fallback.get().iter().enumerate() {
        let poly = fallback_polynomial(alloc, &pkg.names, k as u32, value, counts, env)?;
        all.push(poly)?;
    }
    Ok(all)
}

// The polynomial of one control's fallback, whose denominator has to be 1.
fn fallback_polynomial(
    alloc: Global,
    names: &Names,
    control: u32,
    value: &Expr,
    counts: Counts,
    env: &[Scaled],
) -> Result<Poly, MonErr>
    requires control { control < counts.controls }
    requires named { counts.controls ≡ length names.now.controls }
    requires good { IsTrue (is_good_expr in_model (places_for counts) value.now) }
    requires env { AreSelves counts env.now }
    ensures exact { IfOk result (λ q. IsCanonical 1 q (coefficients (variables (places_for counts)) value.now)) }
    ensures good { IsOk result → IsFallbackGood (places_for counts) control value.now }
    ensures refused { IfErr result (TellsFallback (places_for counts) names.now.controls control value.now) }
    ensures meaning { (z : Point) (a : Assignment) → IsAt (places_for counts) z a →
        IfOk result (λ q. Equals (value_at q z) (value_of value.now a)) }
    ensures small { IfOk result IsSmall }
    ensures only { (allowed : ℕ → Bool) → AllowsModel (places_for counts) allowed →
        IfOk result (HaveOnly allowed) }
{
    let scaled = match narrow_polynomial(alloc, control, value, counts, env) {
        Ok(scaled) => scaled,
        Err(error) => return Err(MonErr::at(Place::Fallback(control), error)),
    };
    if is_whole(&scaled) {
        return Ok(scaled.poly);
    }
    let name = name_of(alloc, names, control)?;
    Err(MonErr::Fraction { name })
}

// The polynomial of a control's fallback, where the equation with the control's next value isn't over.
fn narrow_polynomial(
    alloc: Global,
    control: u32,
    value: &Expr,
    counts: Counts,
    env: &[Scaled],
) -> Result<Scaled, PolyErr>
    requires control { control < counts.controls }
    requires good { IsTrue (is_good_expr in_model (places_for counts) value.now) }
    requires env { AreSelves counts env.now }
    ensures fits { IsOk result → difference_fits (places_for counts) (Variable (NextControl control)) value.now ≡ true }
    ensures wide { result ≡ Err PolyErr.Wide → difference_fits (places_for counts) (Variable (NextControl control)) value.now ≡ false }
    ensures weight { IfOk result (λ s. s.weight ≡ own_weight (places_for counts) value.now) }
    ensures canonical { IfOk result (λ s. IsCanonical s.weight.den s.poly (coefficients (variables (places_for counts)) value.now)) }
    ensures values { (z : Point) (a : Assignment) → IsAt (places_for counts) z a →
        IfOk result (λ s. IsTimes s.weight.den (value_at s.poly z) (value_of value.now a)) }
    ensures small { IfOk result (λ s. IsSmall s.poly) }
    ensures only { (allowed : ℕ → Bool) → AllowsModel (places_for counts) allowed →
        IfOk result (λ s. HaveOnly allowed s.poly) }
{
    variables_have_places();
    variables_pass_tests();
    well_formed_parts_have_allowed_variables();
    check_equation(alloc, control, value, counts, env)?;
    let scaled = of_expr(alloc, value, counts, env)?;
    Ok(scaled)
}

// Whether the equation of a control's next value and this one isn't over.
fn check_equation(
    alloc: Global,
    control: u32,
    value: &Expr,
    counts: Counts,
    env: &[Scaled],
) -> Result<(), PolyErr>
    requires control { control < counts.controls }
    requires good { IsTrue (is_good_expr in_model (places_for counts) value.now) }
    requires env { AreSelves counts env.now }
    ensures fits { IsOk result → difference_fits (places_for counts) (Variable (NextControl control)) value.now ≡ true }
    ensures wide { result ≡ Err PolyErr.Wide → difference_fits (places_for counts) (Variable (NextControl control)) value.now ≡ false }
{
    variables_have_places();
    let next = Expr::Var(Var::NextControl(control));
    let equation = of_difference(alloc, &next, value, counts, env)?;
    drop(equation);
    Ok(())
}

// Whether the expression of a polynomial is multiplied by 1.
fn is_whole(scaled: &Scaled) -> bool
    ensures { IsTrue result ↔ (scaled.now.weight.den ≡ 1) }
{
    scaled.weight.den == 1
}

// A copy of a control's name.
fn name_of(alloc: Global, names: &Names, control: u32) -> Result<NameText, AllocError>
    requires { control < length names.now.controls }
    ensures { IfOk result (λ n. slice_get names.now.controls control ≡ Some n) }
{
    let name = names.controls.get()[control as usize].to_string(alloc)?;
    Ok(NameText::of(name))
}
