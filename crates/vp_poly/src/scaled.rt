//! Polynomials with their weights: numbers, sums, differences, products and powers.

ghost use Rattle.std.specs.Prelude.{◌≡◌, Bool, ◌<◌, ◌*◌, ◌^◌, ◌*ℤ◌, ℕ, length, replicate, pos, IfOk, true};
ghost use Rattle.vp_poly.specs.Weights.{fits, weight_number, weight_product, weight_power, weight_sum};
ghost use Rattle.vp_poly.specs.Coefficient.{Coefficients, constant, times, to_power};
ghost use Rattle.vp_poly.specs.Poly.{Powers, IsPoly, IsWithin, coef, norm, degree};
ghost use Rattle.vp_terms.specs.Rational.{Rational, Equals, whole, sum, difference as minus, product as times_q, power as power_q};
ghost use Rattle.vp_terms.specs.Meaning.{rational};
ghost use Rattle.vp_poly.specs.Value.{Point, value_at};
ghost use Rattle.vp_poly.specs.Times.{HasCoefficients, IsTimes, negation};
ghost use Rattle.vp_poly.specs.Places.{AreBelow, HaveOnly};
ghost use Rattle.vp_poly.specs.Canonical.{IsWeighed};
ghost use Rattle.vp_poly.specs.Unity.{unity};

use crate::weight::Weight;
use crate::{Mono, Poly, Term};
use std::alloc::{AllocError, Global};
use vp_terms::Ratio;

/// A polynomial with its weight: the polynomial of an expression, times the weight's denominator.
#[derive(Debug, Drop)]
pub struct Scaled {
    /// The expression's polynomial times the weight's denominator.
    pub poly: Poly,
    /// The weight of the expression.
    pub weight: Weight,
}

impl Scaled {
    /// The same once more.
    pub fn copy(&self, alloc: Global) -> Result<Scaled, AllocError>
        ensures same { IfOk result (λ s. s ≡ self.now) }
        ensures canonical { IfOk result (λ s. IsPoly s.poly) }
    {
        let poly = self.poly.copy(alloc)?;
        Ok(Scaled {
            poly,
            weight: self.weight,
        })
    }
}

// A number.
#[tactic(auto, using(crate::proofs::NumberLaws::numbers))]
pub(crate) fn number(alloc: Global, value: Ratio) -> Result<Scaled, AllocError>
    ensures weight { IfOk result (λ s. s.weight ≡ weight_number value.num value.den) }
    ensures weighed { IfOk result (λ s. IsWeighed s.poly s.weight) }
    ensures canonical { IfOk result (λ s. IsPoly s.poly) }
    ensures places { (v : ℕ) → IfOk result (λ s. AreBelow v s.poly) }
    ensures only { (allowed : ℕ → Bool) → IfOk result (λ s. HaveOnly allowed s.poly) }
    ensures coefficients { IfOk result (λ s. HasCoefficients s.weight.den s.poly (constant
        (rational value))) }
    ensures values { IfOk result (λ s. (x : Point) →
        IsTimes s.weight.den (value_at s.poly x) (rational value)) }
{
    let weight = Weight::of_number(value);
    let poly = Poly::single(alloc, constant_term(value))?;
    Ok(Scaled { poly, weight })
}

fn constant_term(value: Ratio) -> Term
    ensures { result ≡ record { mono = record { powers = replicate 32 0 }; coef = value.num } }
{
    Term {
        mono: Mono { powers: [0; 32] },
        coef: value.num,
    }
}

// The product.
#[tactic(auto, using(crate::proofs::ScaledLaws::multiplying))]
pub(crate) fn product(alloc: Global, a: &Scaled, b: &Scaled) -> Result<Scaled, AllocError>
    requires left { IsWeighed a.now.poly a.now.weight }
    requires right { IsWeighed b.now.poly b.now.weight }
    requires fits { fits (weight_product a.now.weight b.now.weight) ≡ true }
    ensures weight { IfOk result (λ s. s.weight ≡ weight_product a.now.weight b.now.weight) }
    ensures weighed { IfOk result (λ s. IsWeighed s.poly s.weight) }
    ensures canonical { IfOk result (λ s. IsPoly s.poly) }
    ensures places { (v : ℕ) → AreBelow v a.now.poly → AreBelow v b.now.poly →
        IfOk result (λ s. AreBelow v s.poly) }
    ensures only { (allowed : ℕ → Bool) → HaveOnly allowed a.now.poly →
        HaveOnly allowed b.now.poly → IfOk result (λ s. HaveOnly allowed s.poly) }
    ensures coefficients { IfOk result (λ s. (f g : Coefficients) →
        HasCoefficients a.now.weight.den a.now.poly f →
        HasCoefficients b.now.weight.den b.now.poly g →
        HasCoefficients s.weight.den s.poly (times f g)) }
    ensures values { IfOk result (λ s. (x : Point) (q r : Rational) →
        IsTimes a.now.weight.den (value_at a.now.poly x) q →
        IsTimes b.now.weight.den (value_at b.now.poly x) r →
        IsTimes s.weight.den (value_at s.poly x) (times_q q r)) }
{
    let weight = a.weight.product(&b.weight);
    let poly = a.poly.mul(alloc, &b.poly)?;
    Ok(Scaled { poly, weight })
}

// The sum, over the least common denominator.
#[tactic(auto, using(crate::proofs::ScaledLaws::adding))]
pub(crate) fn total(alloc: Global, a: &Scaled, b: &Scaled) -> Result<Scaled, AllocError>
    requires left { IsWeighed a.now.poly a.now.weight }
    requires right { IsWeighed b.now.poly b.now.weight }
    requires fits { fits (weight_sum a.now.weight b.now.weight) ≡ true }
    ensures weight { IfOk result (λ s. s.weight ≡ weight_sum a.now.weight b.now.weight) }
    ensures weighed { IfOk result (λ s. IsWeighed s.poly s.weight) }
    ensures canonical { IfOk result (λ s. IsPoly s.poly) }
    ensures places { (v : ℕ) → AreBelow v a.now.poly → AreBelow v b.now.poly →
        IfOk result (λ s. AreBelow v s.poly) }
    ensures only { (allowed : ℕ → Bool) → HaveOnly allowed a.now.poly →
        HaveOnly allowed b.now.poly → IfOk result (λ s. HaveOnly allowed s.poly) }
    ensures coefficients { IfOk result (λ s. (f g : Coefficients) →
        HasCoefficients a.now.weight.den a.now.poly f →
        HasCoefficients b.now.weight.den b.now.poly g →
        HasCoefficients s.weight.den s.poly (λ m. sum (f m) (g m))) }
    ensures values { IfOk result (λ s. (x : Point) (q r : Rational) →
        IsTimes a.now.weight.den (value_at a.now.poly x) q →
        IsTimes b.now.weight.den (value_at b.now.poly x) r →
        IsTimes s.weight.den (value_at s.poly x) (sum q r)) }
{
    let weight = a.weight.sum(&b.weight);
    let (k, l) = a.weight.factors(&b.weight);
    let left = scale_by(alloc, &a.poly, k)?;
    let right = scale_by(alloc, &b.poly, l)?;
    let poly = left.add(alloc, &right)?;
    Ok(Scaled { poly, weight })
}

fn scale_by(alloc: Global, poly: &Poly, by: u128) -> Result<Poly, AllocError>
    requires fits { by < 2 ^ 62 }
    requires small { norm poly.now * by < 2 ^ 126 }
    ensures coefficients { IfOk result (λ p. (m : Powers) → coef p m ≡ pos by *ℤ coef poly.now m) }
    ensures values { IfOk result (λ p. (a : Point) →
        Equals (value_at p a) (times_q (whole (pos by)) (value_at poly.now a))) }
    ensures sizes { IfOk result (λ p. IsWithin p (norm poly.now * by) (degree poly.now)
        (length poly.now)) }
    ensures canonical { IfOk result IsPoly }
    ensures places { (v : ℕ) → AreBelow v poly.now → IfOk result (AreBelow v) }
    ensures only { (allowed : ℕ → Bool) → HaveOnly allowed poly.now →
        IfOk result (HaveOnly allowed) }
{
    poly.scale(alloc, by as i128)
}

// The same with the other sign.
fn negated(alloc: Global, a: &Scaled) -> Result<Scaled, AllocError>
    requires { IsWeighed a.now.poly a.now.weight }
    ensures weight { IfOk result (λ s. s.weight ≡ a.now.weight) }
    ensures weighed { IfOk result (λ s. IsWeighed s.poly s.weight) }
    ensures canonical { IfOk result (λ s. IsPoly s.poly) }
    ensures places { (v : ℕ) → AreBelow v a.now.poly → IfOk result (λ s. AreBelow v s.poly) }
    ensures only { (allowed : ℕ → Bool) → HaveOnly allowed a.now.poly →
        IfOk result (λ s. HaveOnly allowed s.poly) }
    ensures coefficients { IfOk result (λ s. (f : Coefficients) →
        HasCoefficients a.now.weight.den a.now.poly f →
        HasCoefficients s.weight.den s.poly (λ m. negation (f m))) }
    ensures values { IfOk result (λ s. (x : Point) (q : Rational) →
        IsTimes a.now.weight.den (value_at a.now.poly x) q →
        IsTimes s.weight.den (value_at s.poly x) (negation q)) }
{
    let poly = a.poly.scale(alloc, -1)?;
    Ok(Scaled {
        poly,
        weight: a.weight,
    })
}

// The difference, over the least common denominator.
pub(crate) fn difference(alloc: Global, a: &Scaled, b: &Scaled) -> Result<Scaled, AllocError>
    requires left { IsWeighed a.now.poly a.now.weight }
    requires right { IsWeighed b.now.poly b.now.weight }
    requires fits { fits (weight_sum a.now.weight b.now.weight) ≡ true }
    ensures weight { IfOk result (λ s. s.weight ≡ weight_sum a.now.weight b.now.weight) }
    ensures weighed { IfOk result (λ s. IsWeighed s.poly s.weight) }
    ensures canonical { IfOk result (λ s. IsPoly s.poly) }
    ensures places { (v : ℕ) → AreBelow v a.now.poly → AreBelow v b.now.poly →
        IfOk result (λ s. AreBelow v s.poly) }
    ensures only { (allowed : ℕ → Bool) → HaveOnly allowed a.now.poly →
        HaveOnly allowed b.now.poly → IfOk result (λ s. HaveOnly allowed s.poly) }
    ensures coefficients { IfOk result (λ s. (f g : Coefficients) →
        HasCoefficients a.now.weight.den a.now.poly f →
        HasCoefficients b.now.weight.den b.now.poly g →
        HasCoefficients s.weight.den s.poly (λ m. minus (f m) (g m))) }
    ensures values { IfOk result (λ s. (x : Point) (q r : Rational) →
        IsTimes a.now.weight.den (value_at a.now.poly x) q →
        IsTimes b.now.weight.den (value_at b.now.poly x) r →
        IsTimes s.weight.den (value_at s.poly x) (minus q r)) }
{
    let opposite = negated(alloc, b)?;
    let rest = total(alloc, a, &opposite)?;
    Ok(rest)
}

// The repeated product; the power 0 is 1.
#[tactic(auto, using(crate::proofs::PowerLaws::raising))]
pub(crate) fn power(alloc: Global, base: &Scaled, exponent: u32) -> Result<Scaled, AllocError>
    requires base { IsWeighed base.now.poly base.now.weight }
    requires fits { fits (weight_power base.now.weight exponent) ≡ true }
    ensures weight { IfOk result (λ s. s.weight ≡ weight_power base.now.weight exponent) }
    ensures weighed { IfOk result (λ s. IsWeighed s.poly s.weight) }
    ensures canonical { IfOk result (λ s. IsPoly s.poly) }
    ensures places { (v : ℕ) → AreBelow v base.now.poly → IfOk result (λ s. AreBelow v s.poly) }
    ensures only { (allowed : ℕ → Bool) → HaveOnly allowed base.now.poly →
        IfOk result (λ s. HaveOnly allowed s.poly) }
    ensures coefficients { IfOk result (λ s. (f : Coefficients) →
        HasCoefficients base.now.weight.den base.now.poly f →
        HasCoefficients s.weight.den s.poly (to_power f exponent)) }
    ensures values { IfOk result (λ s. (x : Point) (q : Rational) →
        IsTimes base.now.weight.den (value_at base.now.poly x) q →
        IsTimes s.weight.den (value_at s.poly x) (power_q q exponent)) }
{
    let weight = base.weight.power(exponent);
    let mut poly = one(alloc)?;
    for _i in 0..exponent {
        poly = base.poly.mul(alloc, &poly)?;
    }
    Ok(Scaled { poly, weight })
}

// The polynomial 1.
fn one(alloc: Global) -> Result<Poly, AllocError>
    ensures terms { IfOk result (λ p. p ≡ unity) }
    ensures canonical { IfOk result IsPoly }
{
    let term = Term {
        mono: Mono { powers: [0; 32] },
        coef: 1,
    };
    Poly::single(alloc, term)
}
