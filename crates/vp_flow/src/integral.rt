//! The series of the states, each from those of the states that it uses.

ghost use Rattle.std.specs.Prelude.{◌≡◌, ◌⊎◌, ℕ, ◌+◌, ◌<◌, ◌≤◌, suc, [], ◌∷◌, length, slice_get, unwrap_or, IfOk, pos};
ghost use Rattle.vp_poly.specs.Poly.{Powers, IsPoly, IsWithin, coef, only_at};
ghost use Rattle.vp_poly.specs.Canonical.{unit};
ghost use Rattle.vp_poly.specs.Places.{places_for};
ghost use Rattle.vp_flow.specs.Whole.{part_at, state_place};
ghost use Rattle.vp_flow.specs.Parts.{AreFirst, AreSides, IsDone, IsLow, IsPart, IsSized};
ghost use Rattle.vp_flow.specs.Sides.{side};
ghost use Rattle.vp_flow.specs.Order.{IsFree};

use crate::Rates;
use crate::series::replaced;
use std::alloc::{AllocError, Global};
use vp_poly::{Mono, Poly, Term};
use vp_terms::Items;
use vp_words::Counts;

impl Rates {
    // The series of a state up to its height, from those of the states that it uses.
    pub(crate) fn series_of(
        &self,
        alloc: Global,
        state: usize,
        height: u32,
        series: &[Items<Poly>],
    ) -> Result<Items<Poly>, AllocError>
        requires sides { AreSides self.now }
        requires state { state < self.now.counts.states }
        requires count { length series.now ≡ self.now.counts.states }
        requires sizes { (j k : ℕ) → IsSized self.now.bounds k (part_at series.now j k) }
        requires used { (j : ℕ) → j < self.now.counts.states → IsFree (places_for
            self.now.counts) j (side self.now.sides state) ⊎ IsDone self.now j series.now }
        requires low { (k : ℕ) → k ≤ height → IsLow self.now.bounds k }
        ensures { IfOk result (AreFirst self.now state (suc height)) }
    {
        let mut own = Vec::new(alloc);
        own.push(itself(alloc, self.counts, state)?)?;
        for k in 0..height {
            own.push(self.integral(alloc, state, k, series)?)?;
        }
        Ok(Items::of(own))
    }

    // The right side of a state.
    pub(crate) fn side(&self, state: usize) -> &Poly
        requires { state < length self.now.sides }
        ensures { result.now ≡ side self.now.sides state }
    {
        &self.sides.get()[state]
    }

    // What follows the k-th polynomial in the series of a state.
    fn integral(
        &self,
        alloc: Global,
        state: usize,
        k: u32,
        series: &[Items<Poly>],
    ) -> Result<Poly, AllocError>
        requires sides { AreSides self.now }
        requires state { state < self.now.counts.states }
        requires count { length series.now ≡ self.now.counts.states }
        requires sizes { (j k : ℕ) → IsSized self.now.bounds k (part_at series.now j k) }
        requires used { (j : ℕ) → j < self.now.counts.states → IsFree (places_for
            self.now.counts) j (side self.now.sides state) ⊎ IsDone self.now j series.now }
        requires low { IsLow self.now.bounds (suc k) }
        ensures { IfOk result (IsPart self.now state (suc k)) }
    {
        let rate = self.side(state);
        if k == 0 {
            let first = rate.copy(alloc)?;
            return Ok(first);
        }
        let next = replaced(alloc, rate, self.counts, series, k as usize)?;
        Ok(next)
    }
}

// The state itself.
fn itself(alloc: Global, counts: Counts, state: usize) -> Result<Poly, AllocError>
    requires { counts.params + state < 32 }
    ensures coefficients { IfOk result (λ p. (m : Powers) → coef p m ≡ only_at (unit (state_place
        (places_for counts) state)) m (pos 1)) }
    ensures sizes { IfOk result (λ p. IsWithin p 1 1 1) }
{
    let mut powers = [0; 32];
    powers[usize::from(counts.params) + state] = 1;
    let term = Term {
        mono: Mono { powers },
        coef: 1,
    };
    let poly = Poly::single(alloc, term)?;
    Ok(poly)
}
