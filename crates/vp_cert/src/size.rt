//! How large the polynomials of a certificate may become.
ghost use Rattle.std.specs.Prelude.{◌≡◌, max, min, map};
ghost use Rattle.vp_cert.specs.Bounds.{product_size};
ghost use Rattle.vp_cert.specs.Capped.{greatest, scaled_size};

use vp_poly::Scaled;

/// The size of a product of factors. Each number stops at 2^128 - 1.
#[derive(Clone, Copy, Debug, PartialEq, Eq)]
pub(crate) struct CappedSize {
    /// The product of the factors' norms.
    pub(crate) norm: u128,
    /// The product of their numbers of terms.
    pub(crate) terms: u128,
    /// The sum of their degrees.
    pub(crate) degree: u128,
}

/// The size of the product of these. A norm or number of terms below 1 counts as 1.
pub(crate) fn product_size(factors: &[Scaled]) -> CappedSize
    ensures norm { result.norm ≡ min (product_size (map scaled_size factors.now)).norm greatest }
    ensures terms { result.terms ≡ min (product_size (map scaled_size factors.now)).terms greatest }
    ensures degree { result.degree ≡ min (product_size (map scaled_size factors.now)).degree greatest }
{
    let mut norm: u128 = 1;
    let mut terms: u128 = 1;
    let mut degree: u128 = 0;
    for factor in factors {
        norm = norm.saturating_mul(norm_of(factor));
        terms = terms.saturating_mul(terms_of(factor));
        degree = degree.saturating_add(degree_of(factor));
    }
    CappedSize {
        norm,
        terms,
        degree,
    }
}

fn norm_of(factor: &Scaled) -> u128
    ensures { result ≡ max factor.now.weight.norm 1 }
{
    at_least_one(factor.weight.norm.unsigned_abs())
}

fn terms_of(factor: &Scaled) -> u128
    ensures { result ≡ max factor.now.weight.terms 1 }
{
    at_least_one(u128::from(factor.weight.terms))
}

fn degree_of(factor: &Scaled) -> u128
    ensures { result ≡ factor.now.weight.degree }
{
    u128::from(factor.weight.degree)
}

fn at_least_one(n: u128) -> u128
    ensures { result ≡ max n 1 }
{
    n.max(1)
}
