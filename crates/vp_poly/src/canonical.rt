//! The canonical polynomial of an expression.

ghost use Rattle.std.specs.Prelude.{◌≡◌, ℕ, Bool, ◌<◌, ◌≤◌, ◌^◌, IfOk, IsOk, IsTrue, Err, true, false, length, slice_get, Some};
ghost use Rattle.vp_terms.specs.declared.expr.Var.{Var};
ghost use Rattle.vp_terms.specs.Meaning.{Assignment, value};
ghost use Rattle.vp_terms.specs.Places.{has_variable};
ghost use Rattle.vp_terms.specs.Variables.{all_variables, has_places_below};
ghost use Rattle.vp_words.specs.Record.{place_count};
ghost use Rattle.vp_poly.specs.Weights.{fits, weight_between, weight_in};
ghost use Rattle.vp_terms.specs.Rational.{difference};
ghost use Rattle.vp_poly.specs.Coefficient.{Coefficients, coefficients};
ghost use Rattle.vp_poly.specs.Times.{HasCoefficients, IsTimes};
ghost use Rattle.vp_poly.specs.Value.{Point, value_at};
ghost use Rattle.vp_poly.specs.Poly.{IsPoly, degree, norm};
ghost use Rattle.vp_poly.specs.Places.{AreBelow, HaveOnly, places_for};
ghost use Rattle.vp_poly.specs.Canonical.{IsCanonical, IsEnvironment, IsWeighed, StandsAt, StandsFor, StandsWithin, weights_of};

use crate::places::place_in;
use crate::scaled::{difference, number, power, product, total};
use crate::{Scaled, Weight, weigh};
use std::alloc::{AllocError, Global};
use vp_terms::Expr;
use vp_words::Counts;

/// Why there is no canonical polynomial.
#[derive(Clone, Copy, Debug, PartialEq, Eq)]
pub enum PolyErr {
    /// The weight of the expression is over the limits.
    Wide,
    /// There was too little memory for the polynomial.
    Memory,
}

impl From<AllocError> for PolyErr {
    ghost use Rattle.std.specs.Prelude.{◌≡◌};
    ghost use Rattle.vp_poly.specs.declared.canonical.PolyErr.TheVariants.{Memory};

    ghost from_gives = { λ _ e. e ≡ Memory };

    fn from(_error: AllocError) -> PolyErr {
        PolyErr::Memory
    }
}

/// The canonical polynomial of an expression whose variables are replaced by what `env` has at
/// their places.
pub fn of_expr(alloc: Global, e: &Expr, counts: Counts, env: &[Scaled]) -> Result<Scaled, PolyErr>
    requires environment { IsEnvironment (place_count counts) env.now }
    requires places { IsTrue (has_places_below (places_for counts) (place_count counts) e.now) }

    // The answer is Wide exactly where the weight is over, unless memory runs out.
    ensures weight { IfOk result (λ s. s.weight ≡ weight_in (places_for counts)
        (weights_of env.now) e.now) }
    ensures within { IsOk result → fits (weight_in (places_for counts)
        (weights_of env.now) e.now) ≡ true }
    ensures wide { result ≡ Err PolyErr.Wide →
        fits (weight_in (places_for counts) (weights_of env.now) e.now) ≡ false }

    // Its norm, degree and number of terms are at most the weight's.
    ensures weighed { IfOk result (λ s. IsWeighed s.poly s.weight) }
    ensures small { IfOk result (λ s. norm s.poly < 2 ^ 62) }
    ensures low { IfOk result (λ s. degree s.poly ≤ 12) }
    ensures few { IfOk result (λ s. length s.poly ≤ 4096) }
    ensures places { IfOk result (λ s. AreBelow (place_count counts) s.poly) }
    ensures only { (used : Var → Bool) (allowed : ℕ → Bool) → IsTrue (all_variables used e.now) →
        StandsWithin (places_for counts) env.now used allowed →
        IfOk result (λ s. HaveOnly allowed s.poly) }
    ensures positive { IfOk result (λ s. 0 < s.weight.den) }

    // It has the coefficients, and at each point the value, of the expression times the denominator.
    ensures canonical { (f : Var → Coefficients) →
        IsTrue (all_variables (has_variable (places_for counts)) e.now) →
        StandsFor (places_for counts) env.now f →
        IfOk result (λ s. IsCanonical s.weight.den s.poly (coefficients f e.now)) }
    ensures values { (x : Point) (a : Assignment) →
        IsTrue (all_variables (has_variable (places_for counts)) e.now) →
        StandsAt (places_for counts) env.now x a →
        IfOk result (λ s. IsTimes s.weight.den (value_at s.poly x) (value e.now a)) }
{
    let weights = weights_of(alloc, env)?;
    let weight = weigh(e, counts, &weights);
    if !weight.fits() {
        return Err(PolyErr::Wide);
    }
    let scaled = build(alloc, e, counts, env)?;
    Ok(scaled)
}

/// The canonical polynomial of the difference of two expressions, in the same way.
pub fn of_difference(
    alloc: Global,
    a: &Expr,
    b: &Expr,
    counts: Counts,
    env: &[Scaled],
) -> Result<Scaled, PolyErr>
    requires environment { IsEnvironment (place_count counts) env.now }
    requires places_a { IsTrue (has_places_below (places_for counts) (place_count counts) a.now) }
    requires places_b { IsTrue (has_places_below (places_for counts) (place_count counts) b.now) }

    ensures weight { IfOk result (λ s. s.weight ≡ weight_between (places_for counts)
        (weights_of env.now) a.now b.now) }
    ensures within { IsOk result → fits (weight_between (places_for counts)
        (weights_of env.now) a.now b.now) ≡ true }
    ensures wide { result ≡ Err PolyErr.Wide →
        fits (weight_between (places_for counts) (weights_of env.now) a.now b.now) ≡ false }

    ensures weighed { IfOk result (λ s. IsWeighed s.poly s.weight) }
    ensures small { IfOk result (λ s. norm s.poly < 2 ^ 62) }
    ensures low { IfOk result (λ s. degree s.poly ≤ 12) }
    ensures few { IfOk result (λ s. length s.poly ≤ 4096) }
    ensures places { IfOk result (λ s. AreBelow (place_count counts) s.poly) }
    ensures only { (used : Var → Bool) (allowed : ℕ → Bool) → IsTrue (all_variables used a.now) →
        IsTrue (all_variables used b.now) → StandsWithin (places_for counts) env.now used allowed →
        IfOk result (λ s. HaveOnly allowed s.poly) }
    ensures positive { IfOk result (λ s. 0 < s.weight.den) }

    ensures canonical { (f : Var → Coefficients) →
        IsTrue (all_variables (has_variable (places_for counts)) a.now) →
        IsTrue (all_variables (has_variable (places_for counts)) b.now) →
        StandsFor (places_for counts) env.now f →
        IfOk result (λ s. IsCanonical s.weight.den s.poly (λ m. difference
        (coefficients f a.now m) (coefficients f b.now m))) }
    ensures values { (x : Point) (v : Assignment) →
        IsTrue (all_variables (has_variable (places_for counts)) a.now) →
        IsTrue (all_variables (has_variable (places_for counts)) b.now) →
        StandsAt (places_for counts) env.now x v →
        IfOk result (λ s. IsTimes s.weight.den (value_at s.poly x) (difference (value a.now v)
        (value b.now v))) }
{
    let weights = weights_of(alloc, env)?;
    let left = weigh(a, counts, &weights);
    let right = weigh(b, counts, &weights);
    if !left.sum(&right).fits() {
        return Err(PolyErr::Wide);
    }
    let left = build(alloc, a, counts, env)?;
    let right = build(alloc, b, counts, env)?;
    let scaled = difference(alloc, &left, &right)?;
    Ok(scaled)
}

/// The weights of what stands for the variables.
pub fn weights_of(alloc: Global, env: &[Scaled]) -> Result<Vec<Weight>, AllocError>
    ensures { IfOk result (λ ws. ws.items ≡ weights_of env.now) }
{
    let mut weights = Vec::new(alloc);
    for scaled in env {
        weights.push(scaled.weight)?;
    }
    Ok(weights)
}

// The canonical polynomial of an expression that isn't over.
fn build(alloc: Global, e: &Expr, counts: Counts, env: &[Scaled]) -> Result<Scaled, AllocError>
    requires environment { IsEnvironment (place_count counts) env.now }
    requires places { IsTrue (has_places_below (places_for counts) (place_count counts) e.now) }
    requires fits { fits (weight_in (places_for counts) (weights_of env.now) e.now) ≡ true }
    ensures weight { IfOk result (λ s. s.weight ≡ weight_in (places_for counts)
        (weights_of env.now) e.now) }
    ensures weighed { IfOk result (λ s. IsWeighed s.poly s.weight) }
    ensures canonical { IfOk result (λ s. IsPoly s.poly) }
    ensures places { IfOk result (λ s. AreBelow (place_count counts) s.poly) }
    ensures only { (used : Var → Bool) (allowed : ℕ → Bool) → IsTrue (all_variables used e.now) →
        StandsWithin (places_for counts) env.now used allowed →
        IfOk result (λ s. HaveOnly allowed s.poly) }
    ensures coefficients { (f : Var → Coefficients) →
        IsTrue (all_variables (has_variable (places_for counts)) e.now) →
        StandsFor (places_for counts) env.now f →
        IfOk result (λ s. HasCoefficients s.weight.den s.poly (coefficients f e.now)) }
    ensures values { (x : Point) (a : Assignment) →
        IsTrue (all_variables (has_variable (places_for counts)) e.now) →
        StandsAt (places_for counts) env.now x a →
        IfOk result (λ s. IsTimes s.weight.den (value_at s.poly x) (value e.now a)) }
{
    match e {
        Expr::Num(value) => {
            let number = number(alloc, *value)?;
            Ok(number)
        }
        Expr::Var(variable) => {
            let entry = copied(alloc, env, place_in(*variable, counts))?;
            Ok(entry)
        }
        Expr::Add(l, r) => {
            let a = build(alloc, l, counts, env)?;
            let b = build(alloc, r, counts, env)?;
            let sum = total(alloc, &a, &b)?;
            Ok(sum)
        }
        Expr::Sub(l, r) => {
            let a = build(alloc, l, counts, env)?;
            let b = build(alloc, r, counts, env)?;
            let rest = difference(alloc, &a, &b)?;
            Ok(rest)
        }
        Expr::Mul(l, r) => {
            let a = build(alloc, l, counts, env)?;
            let b = build(alloc, r, counts, env)?;
            let multiple = product(alloc, &a, &b)?;
            Ok(multiple)
        }
        Expr::Pow(base, exponent) => {
            let a = build(alloc, base, counts, env)?;
            let raised = power(alloc, &a, *exponent)?;
            Ok(raised)
        }
    }
}

// What stands at a place.
fn copied(alloc: Global, env: &[Scaled], place: usize) -> Result<Scaled, AllocError>
    requires { place < length env.now }
    ensures same { IfOk result (λ s. slice_get env.now place ≡ Some s) }
    ensures canonical { IfOk result (λ s. IsPoly s.poly) }
{
    let entry = &env[place];
    let scaled = entry.copy(alloc)?;
    Ok(scaled)
}
