//! Weights: bounds on a polynomial that are known before it is made.

ghost use Rattle.std.specs.Prelude.{◌≡◌, ◌*◌, ◌^◌, ◌<◌, ◌≤◌, true, ◌/◌, min, IfSome, IsTrue, MatchOption, length};
ghost use Rattle.vp_terms.specs.Variables.{has_places_below};
ghost use Rattle.vp_words.specs.Record.{place_count};
ghost use Rattle.vp_poly.specs.Places.{places_for};
ghost use Rattle.vp_poly.specs.Rooms.{IsRoomy};
ghost use Rattle.vp_poly.specs.Lcm.{gcd, lcm, Shares};
ghost use Rattle.vp_poly.specs.Weights.{fits, weight_sum, weight_product, weight_power, weight_number, norm_if, most, weight_in};

use crate::places::place_in;
use std::marker::Model;
use vp_terms::{Expr, Ratio};
use vp_words::Counts;

const MOST: u128 = (1 << 127) - 1;

/// Bounds on a polynomial, and the denominator that it is multiplied by. The norm is at least 0
/// and the denominator at least 1.
#[derive(Clone, Copy, Debug, PartialEq, Eq)]
pub struct Weight {
    /// At least the sum of the sizes of the coefficients; 2^127 - 1 where a proper part is over.
    pub norm: i128,
    /// What the expression is multiplied by, at most 2^127 - 1.
    pub den: i128,
    /// At least the greatest sum of a term's exponents, at most 2^32 - 1.
    pub degree: u32,
    /// At least the number of terms, at most 2^32 - 1.
    pub terms: u32,
}

impl Model for Weight {
    ghost use Rattle.std.specs.Prelude.{pos, unsigned_abs, ◌≤ℤ◌, ◌<ℤ◌};
    ghost use Rattle.vp_poly.specs.Weights.{Weights};

    ghost Value = { Weights };

    ghost view = { λ w. record { norm = unsigned_abs w.norm; den = unsigned_abs w.den; degree = w.degree; terms = w.terms } };

    ghost invariant = { λ w. (pos 0 ≤ℤ w.norm) × (pos 0 <ℤ w.den) };

    ghost inverse = { λ v. record { norm = pos v.norm; den = pos v.den; degree = v.degree; terms = v.terms } };
}

/// The weight of an expression, where those of `env` are the weights of what stands at each place.
pub fn weigh(e: &Expr, counts: Counts, env: &[Weight]) -> Weight
    requires size { length env.now ≡ place_count counts }
    requires places { IsTrue (has_places_below (places_for counts) (place_count counts) e.now) }
    ensures { result ≡ weight_in (places_for counts) env.now e.now }
{
    match e {
        Expr::Num(value) => Weight::of_number(*value),
        Expr::Var(variable) => env[place_in(*variable, counts)],
        Expr::Add(l, r) | Expr::Sub(l, r) => {
            let left = weigh(l, counts, env);
            let right = weigh(r, counts, env);
            left.sum(&right)
        }
        Expr::Mul(l, r) => {
            let left = weigh(l, counts, env);
            let right = weigh(r, counts, env);
            left.product(&right)
        }
        Expr::Pow(base, exponent) => weigh(base, counts, env).power(*exponent),
    }
}

impl Weight {
    /// The weight of these parts, of which norm and denominator are at most 2^127 - 1.
    pub fn new(norm: u128, den: u128, degree: u32, terms: u32) -> Weight
        requires norm { norm < 2 ^ 127 }
        requires den { den < 2 ^ 127 }
        requires positive { 0 < den }
        ensures { result ≡ record { norm = norm; den = den; degree = degree; terms = terms } }
    {
        Weight {
            norm: norm as i128,
            den: den as i128,
            degree,
            terms,
        }
    }

    // The weight of a number.
    pub(crate) fn of_number(value: Ratio) -> Weight
        ensures { result ≡ weight_number value.num value.den }
    {
        let terms = if value.num == 0 { 0 } else { 1 };
        Weight::new(value.num.unsigned_abs(), value.den.unsigned_abs(), 0, terms)
    }

    fn unsigned_norm(&self) -> u128
        ensures { result ≡ self.now.norm }
    {
        self.norm as u128
    }

    fn unsigned_den(&self) -> u128
        ensures value { result ≡ self.now.den }
        ensures positive { 0 < result }
    {
        self.den as u128
    }

    /// Whether this isn't over: norm and denominator are below 2^62, the degree is at most 12, and
    /// there are at most 4096 terms.
    pub fn fits(&self) -> bool
        ensures value { result ≡ fits self.now }
        ensures positive { 0 < self.now.den }
    {
        self.norm < 1 << 62 && self.den < 1 << 62 && self.degree <= 12 && self.terms <= 4096
    }

    pub(crate) fn product(&self, other: &Weight) -> Weight
        ensures { result ≡ weight_product self.now other.now }
    {
        let parts_fit = self.fits() && other.fits();
        Weight::new(
            norm_if(
                parts_fit,
                self.unsigned_norm().saturating_mul(other.unsigned_norm()),
            ),
            capped_product(self.unsigned_den(), other.unsigned_den()),
            self.degree.saturating_add(other.degree),
            self.terms.saturating_mul(other.terms),
        )
    }

    pub(crate) fn power(&self, exponent: u32) -> Weight
        ensures { result ≡ weight_power self.now exponent }
    {
        let parts_fit = self.fits();
        Weight::new(
            norm_if(parts_fit, self.unsigned_norm().saturating_pow(exponent)),
            capped_power(self.unsigned_den(), exponent),
            exponent.saturating_mul(self.degree),
            self.terms.saturating_pow(exponent),
        )
    }

    pub(crate) fn sum(&self, other: &Weight) -> Weight
        ensures { result ≡ weight_sum self.now other.now }
    {
        let (left, right) = shares(self.unsigned_den(), other.unsigned_den());
        let norm = self
            .unsigned_norm()
            .saturating_mul(left)
            .saturating_add(other.unsigned_norm().saturating_mul(right));
        let parts_fit = self.fits() && other.fits();
        Weight::new(
            norm_if(parts_fit, norm),
            capped_product(right, other.unsigned_den()),
            self.degree.max(other.degree),
            self.terms.saturating_add(other.terms),
        )
    }

    // By what the parts of a sum are multiplied.
    pub(crate) fn factors(&self, other: &Weight) -> (u128, u128)
        requires { fits (weight_sum self.now other.now) ≡ true }
        ensures shares { Shares self.now.den other.now.den result.0 result.1 }
        ensures roomy { IsRoomy self.now other.now result.0 result.1 }
    {
        shares(self.unsigned_den(), other.unsigned_den())
    }
}

// The norm where all parts fit, and else the greatest.
fn norm_if(parts_fit: bool, norm: u128) -> u128
    ensures value { result ≡ norm_if parts_fit norm }
    ensures capped { result ≤ most }
{
    if parts_fit { norm.min(MOST) } else { MOST }
}

#[tactic(auto, using(crate::proofs::LcmLaws::positive))]
fn capped_product(a: u128, b: u128) -> u128
    ensures value { result ≡ min (a * b) most }
    ensures positive { 0 < a → 0 < b → 0 < result }
{
    a.saturating_mul(b).min(MOST)
}

#[tactic(auto, using(crate::proofs::LcmLaws::positive))]
fn capped_power(a: u128, exponent: u32) -> u128
    ensures value { result ≡ min (a ^ exponent) most }
    ensures positive { 0 < a → 0 < result }
{
    a.saturating_pow(exponent).min(MOST)
}

// By what each of two denominators is multiplied to give their least common multiple.
#[tactic(auto, using(crate::proofs::LcmLaws::sharing))]
fn shares(a: u128, b: u128) -> (u128, u128)
    requires a { 0 < a }
    requires b { 0 < b }
    ensures { Shares a b result.0 result.1 }
{
    let divisor = gcd(a, b);
    (b / divisor, a / divisor)
}

/// The least common multiple of two numbers that aren't 0, unless it is 2^128 or more.
#[tactic(auto, using(crate::proofs::LcmLaws::multiples))]
pub fn lcm(a: u128, b: u128) -> Option<u128>
    requires a { 0 < a }
    requires b { 0 < b }
    ensures exact { MatchOption result (2 ^ 128 ≤ lcm a b) (λ m. m ≡ lcm a b) }
    ensures shares { IfSome result (λ m. Shares a b (m / a) (m / b)) }
{
    let divisor = gcd(a, b);
    (a / divisor).checked_mul(b)
}

// The greatest common divisor.
#[tactic(auto, using(crate::proofs::LcmLaws::gcds))]
fn gcd(a: u128, b: u128) -> u128
    ensures { result ≡ gcd a b }
{
    let mut x = a;
    let mut y = b;
    while y != 0 {
        (x, y) = (y, x % y);
    }
    x
}
