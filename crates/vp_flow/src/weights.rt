//! The weights of flows.

ghost use Rattle.std.specs.Prelude.{◌≡◌, ℕ, ◌+◌, ◌*◌, ◌^◌, ◌<◌, ◌≤◌, suc, MatchOption, true, false};
ghost use Rattle.vp_poly.specs.Weights.{fits};
ghost use Rattle.vp_flow.specs.Weights.{IsGrowth, flow_weight};

use crate::Bounds;
use crate::bounds::LIMIT;
use vp_poly::Weight;

// A weight that is made step by step, with the powers of the bounds.
#[derive(Clone, Copy)]
struct Growth {
    // The weight's norm.
    norm: u128,
    // The weight's denominator.
    den: u128,
    // The weight's number of terms.
    terms: u128,
    // The power of the bounds' norm.
    norm_power: u128,
    // The power of the bounds' number of terms.
    terms_power: u128,
}

impl Bounds {
    /// The weight of a flow of that height. None exactly where it is over.
    pub fn weight(&self, height: u32) -> Option<Weight>
        requires { 1 ≤ self.now.common }
        ensures { MatchOption result (fits (flow_weight self.now height) ≡ false) (λ w.
            (w ≡ flow_weight self.now height) × (fits w ≡ true)) }
    {
        let mut growth = Growth {
            norm: 1,
            den: 1,
            terms: 1,
            norm_power: 1,
            terms_power: 1,
        };
        for k in 0..height {
            let Some(next) = self.grown(&growth, k) else {
                return None;
            };
            growth = next;
        }
        let degree = u64::from(height) * u64::from(self.degree) + 1;
        if degree > 12 || growth.terms > 4096 {
            return None;
        }
        Some(Weight::new(growth.norm, growth.den, degree as u32, growth.terms as u32))
    }

    // The weight of the next height. None only where it is over.
    fn grown(&self, growth: &Growth, k: u32) -> Option<Growth>
        requires common { 1 ≤ self.now.common }
        requires before { IsGrowth self.now k growth.now }
        ensures { MatchOption result (fits (flow_weight self.now (suc k)) ≡ false) (IsGrowth self.now
            (suc k)) }
    {
        let factor = limited_product(self.common, u128::from(k) + 1)?;
        let norm_power = limited_product(growth.norm_power, self.norm)?;
        let terms_power = limited_product(growth.terms_power, u128::from(self.terms))?;
        let scaled = limited_product(growth.norm, factor)?;
        let norm = limited_sum(scaled, norm_power)?;
        let den = limited_product(growth.den, factor)?;
        let terms = limited_sum(growth.terms, terms_power)?;
        Some(Growth {
            norm,
            den,
            terms,
            norm_power,
            terms_power,
        })
    }
}

// The product, where it is below the limit.
fn limited_product(a: u128, b: u128) -> Option<u128>
    ensures { MatchOption result (2 ^ 62 ≤ a * b) (λ n. (n ≡ a * b) × (n < 2 ^ 62)) }
{
    let product = a.checked_mul(b)?;
    if product < LIMIT { Some(product) } else { None }
}

// The sum, where it is below the limit.
fn limited_sum(a: u128, b: u128) -> Option<u128>
    requires a { a < 2 ^ 62 }
    requires b { b < 2 ^ 62 }
    ensures { MatchOption result (2 ^ 62 ≤ a + b) (λ n. (n ≡ a + b) × (n < 2 ^ 62)) }
{
    let sum = a + b;
    if sum < LIMIT { Some(sum) } else { None }
}
