//! The right sides of a flow over one denominator.

ghost use Rattle.std.specs.Prelude.{◌≡◌, ◌≢◌, ◌*◌, ◌+ℤ◌, ◌*ℤ◌, ◌/◌, ◌<◌, ◌≤◌, ◌^◌, ℕ, All, IfOk, length, pos};
ghost use Rattle.vp_poly.specs.Poly.{IsPoly, Powers, IsWithin, coef, degree, norm, scaled};
ghost use Rattle.vp_flow.specs.Sharing.{AreShared, IsSharedOf, IsSuited};

use crate::Bounds;
use crate::bounds::den_of;
use std::alloc::{AllocError, Global};
use vp_poly::{Poly, Scaled};
use vp_terms::Items;
use vp_words::Counts;

// The right sides times their common denominator, one for each state.
#[derive(Debug, Drop)]
pub(crate) struct Rates {
    // How many parameters, states and controls the model has.
    pub(crate) counts: Counts,
    // The right side of each state, in the order of the states.
    pub(crate) sides: Items<Poly>,
    // The numbers by which the weights of flows go, among them the common denominator.
    pub(crate) bounds: Bounds,
}

impl Rates {
    // The right sides times the common denominator.
    pub(crate) fn of(
        alloc: Global,
        sides: &[Scaled],
        counts: Counts,
        bounds: Bounds,
    ) -> Result<Rates, AllocError>
        requires { All (IsSuited bounds) sides.now }
        ensures { IfOk result (AreShared counts bounds sides.now) }
    {
        let mut polys = Vec::new(alloc);
        for side in sides {
            polys.push(shared(alloc, side, bounds)?)?;
        }
        Ok(Rates {
            counts,
            sides: Items::of(polys),
            bounds,
        })
    }
}

// A right side times the common denominator.
fn shared(alloc: Global, side: &Scaled, bounds: Bounds) -> Result<Poly, AllocError>
    requires { IsSuited bounds side.now }
    ensures { IfOk result (IsSharedOf bounds side.now) }
{
    if side.poly.is_zero() {
        return Ok(Poly::zero(alloc));
    }
    let poly = scale_by(alloc, &side.poly, bounds.common / den_of(side))?;
    Ok(poly)
}

// Each coefficient times `by`.
pub(crate) fn scale_by(alloc: Global, poly: &Poly, by: u128) -> Result<Poly, AllocError>
    requires fits { by < 2 ^ 62 }
    requires small { norm poly.now * by < 2 ^ 126 }
    ensures terms { by ≢ 0 → IfOk result (λ p. p ≡ scaled (pos by) poly.now) }
    ensures coefficients { IfOk result (λ p. (m : Powers) → coef p m ≡ pos by *ℤ coef poly.now m) }
    ensures canonical { IfOk result IsPoly }
    ensures sizes { IfOk result (λ p. IsWithin p (norm poly.now * by) (degree poly.now)
        (length poly.now)) }
{
    poly.scale(alloc, by as i128)
}
