//! The flow of a state, from its series.

ghost use Rattle.std.specs.Prelude.{◌≡◌, ℕ, ◌+◌, ◌*◌, ◌<◌, ◌≤◌, ◌^◌, max, [], length, slice_get, unwrap_or, IfOk, pos, ◌+ℤ◌, ◌*ℤ◌, true};
ghost use Rattle.vp_terms.specs.Rational.{Equals, product as times_q, whole};
ghost use Rattle.vp_poly.specs.Poly.{Powers, IsPoly, IsWithin, coef, only_at, norm, degree};
ghost use Rattle.vp_poly.specs.Product.{split_sum};
ghost use Rattle.vp_poly.specs.Places.{places_for};
ghost use Rattle.vp_poly.specs.Weights.{fits};
ghost use Rattle.vp_flow.specs.Series.{tau_place, tau_powers};
ghost use Rattle.vp_flow.specs.Parts.{IsSized};
ghost use Rattle.vp_flow.specs.Assembly.{IsAssembled, nth};
ghost use Rattle.vp_flow.specs.Weights.{flow_weight};

use crate::Rates;
use crate::rates::scale_by;
use std::alloc::{AllocError, Global};
use vp_poly::{Mono, Poly, Term};
use vp_words::Counts;

impl Rates {
    // The sum of the polynomials times the powers of `tau` over the factorials, times the
    // denominator of the flow's weight.
    pub(crate) fn assembled(&self, alloc: Global, parts: &[Poly]) -> Result<Poly, AllocError>
        requires places { tau_place (places_for self.now.counts) < 32 }
        requires common { 1 ≤ self.now.bounds.common }
        requires sizes { (k : ℕ) → k < length parts.now →
            IsSized self.now.bounds k (nth parts.now k) }
        requires fits { (k : ℕ) → k < length parts.now → fits (flow_weight self.now.bounds k) ≡ true }
        ensures sum { IfOk result (IsAssembled self.now parts.now (length parts.now)) }
        ensures canonical { IfOk result IsPoly }
    {
        let mut flow = Poly::zero(alloc);
        for (k, part) in parts.iter().enumerate() {
            flow = with_power(alloc, &flow, part, self.counts, k, self.bounds.common)?;
        }
        Ok(flow)
    }
}

// `flow` times k and the common denominator, and `part` times `tau` to the power k.
fn with_power(
    alloc: Global,
    flow: &Poly,
    part: &Poly,
    counts: Counts,
    k: usize,
    common: u128,
) -> Result<Poly, AllocError>
    requires places { tau_place (places_for counts) < 32 }
    requires factor { common * k < 2 ^ 62 }
    requires small { norm flow.now * (common * k) + norm part.now < 2 ^ 126 }
    requires few { length flow.now + length part.now < 2 ^ 32 }
    requires low { degree part.now + k ≤ 48 }
    ensures coefficients { IfOk result (λ q. (m : Powers) →
        coef q m ≡ pos (common * k) *ℤ coef flow.now m +ℤ split_sum m (λ a b. coef part.now a *ℤ
        only_at (tau_powers (places_for counts) k) b (pos 1))) }
    ensures sizes { IfOk result (λ q. IsWithin q (norm flow.now * (common * k) + norm part.now)
        (max (degree flow.now) (degree part.now + k)) (length flow.now + length part.now)) }
    ensures canonical { IfOk result IsPoly }
{
    let scaled = scale_by(alloc, flow, common * k as u128)?;
    let power = tau_to(alloc, counts, k)?;
    let multiple = part.mul(alloc, &power)?;
    let sum = scaled.add(alloc, &multiple)?;
    Ok(sum)
}

// `tau` to the power k.
fn tau_to(alloc: Global, counts: Counts, k: usize) -> Result<Poly, AllocError>
    requires places { tau_place (places_for counts) < 32 }
    requires low { k ≤ 48 }
    ensures coefficients { IfOk result (λ p. (m : Powers) → coef p m ≡ only_at (tau_powers
        (places_for counts) k) m (pos 1)) }
    ensures sizes { IfOk result (λ p. IsWithin p 1 k 1) }
{
    let tau = usize::from(counts.params)
        + 2 * usize::from(counts.states)
        + 2 * usize::from(counts.controls);
    let mut powers = [0; 32];
    powers[tau] = k as u8;
    let term = Term {
        mono: Mono { powers },
        coef: 1,
    };
    let poly = Poly::single(alloc, term)?;
    Ok(poly)
}
