//! The four numbers by which the weights of flows go.

ghost use Rattle.std.specs.Prelude.{◌≡◌, ◌*◌, ◌/◌, ◌^◌, ◌<◌, ◌≤◌, ℕ, MatchOption, All, max};
ghost use Rattle.vp_poly.specs.declared.scaled.Scaled.{Scaled};
ghost use Rattle.vp_poly.specs.Canonical.{IsWeighed};
ghost use Rattle.vp_flow.specs.Bounds.{at_least_one, common_den};
ghost use Rattle.vp_flow.specs.Weighing.{AreBounds};

use vp_poly::{Scaled, Weight, lcm};

// Where a norm or a denominator is over.
pub(crate) const LIMIT: u128 = 1 << 62;

/// The four numbers by which the weights of flows go.
#[derive(Clone, Copy, Debug, PartialEq, Eq)]
pub struct Bounds {
    /// The least common denominator of the right sides.
    pub common: u128,
    /// The greatest norm of a right side over it, or 1.
    pub norm: u128,
    /// The greatest degree, or 1.
    pub degree: u32,
    /// The greatest number of terms, or 1.
    pub terms: u32,
}

impl Bounds {
    // Those of right sides that are all zero.
    pub(crate) const LEAST: Bounds = Bounds {
        common: 1,
        norm: 1,
        degree: 1,
        terms: 1,
    };

    // The four numbers of these right sides. None exactly where their common denominator is over.
    pub(crate) fn of(sides: &[Scaled]) -> Option<Bounds>
        requires weighed { All (λ q. IsWeighed q.poly q.weight) sides.now }
        requires positive { All (λ q. 0 < q.weight.den) sides.now }
        ensures { AreBounds sides.now result }
    {
        let common = common_den(sides)?;
        Some(Bounds {
            common,
            norm: greatest_norm(sides, common),
            degree: greatest_degree(sides),
            terms: greatest_terms(sides),
        })
    }
}

// The denominator of a right side.
pub(crate) fn den_of(side: &Scaled) -> u128
    ensures value { result ≡ side.now.weight.den }
    ensures positive { 0 < side.now.weight.den }
{
    side.weight.den as u128
}

// The norm of a right side.
fn norm_of(side: &Scaled) -> u128
    ensures { result ≡ side.now.weight.norm }
{
    side.weight.norm as u128
}

// The least common denominator, where it isn't over.
fn common_den(sides: &[Scaled]) -> Option<u128>
    requires { All (λ q. 0 < q.weight.den) sides.now }
    ensures { MatchOption result (2 ^ 62 ≤ common_den sides.now) (λ n.
        (n ≡ common_den sides.now) × (n < 2 ^ 62)) }
{
    let mut common = 1;
    for k in 0..sides.len() {
        let side = &sides[sides.len() - 1 - k];
        common = lcm(den_of(side), common)?;
        if common >= LIMIT {
            return None;
        }
    }
    Some(common)
}

// The greatest norm over the common denominator, or 1.
fn greatest_norm(sides: &[Scaled], common: u128) -> u128
    requires weighed { All (λ q. IsWeighed q.poly q.weight) sides.now }
    requires small { common < 2 ^ 62 }
    ensures { result ≡ at_least_one (λ q. q.weight.norm * (common / q.weight.den)) sides.now }
{
    let mut greatest = 1;
    for k in 0..sides.len() {
        let side = &sides[k];
        greatest = greater(greatest, norm_of(side) * (common / den_of(side)));
    }
    greatest
}

// The greatest degree, or 1.
fn greatest_degree(sides: &[Scaled]) -> u32
    ensures { result ≡ at_least_one (λ q. q.weight.degree) sides.now }
{
    let mut greatest = 1;
    for k in 0..sides.len() {
        greatest = larger(greatest, degree_of(&sides[k]));
    }
    greatest
}

// The greatest number of terms, or 1.
fn greatest_terms(sides: &[Scaled]) -> u32
    ensures { result ≡ at_least_one (λ q. q.weight.terms) sides.now }
{
    let mut greatest = 1;
    for k in 0..sides.len() {
        greatest = larger(greatest, terms_of(&sides[k]));
    }
    greatest
}

// The degree of a right side's weight.
fn degree_of(side: &Scaled) -> u32
    ensures { result ≡ side.now.weight.degree }
{
    side.weight.degree
}

// The number of terms of a right side's weight.
fn terms_of(side: &Scaled) -> u32
    ensures { result ≡ side.now.weight.terms }
{
    side.weight.terms
}

fn greater(a: u128, b: u128) -> u128
    ensures { result ≡ max a b }
{
    a.max(b)
}

fn larger(a: u32, b: u32) -> u32
    ensures { result ≡ max a b }
{
    a.max(b)
}
