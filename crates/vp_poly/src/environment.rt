//! Variables that stand for themselves.

ghost use Rattle.std.specs.Prelude.{◌≡◌, ◌<◌, ℕ, Bool, IfOk, IsTrue, map};
ghost use Rattle.std.specs.List.{range_with_len};
ghost use Rattle.vp_words.specs.Record.{IsValid, place_count};
ghost use Rattle.vp_terms.specs.Meaning.{Assignment};
ghost use Rattle.vp_terms.specs.Places.{place};
ghost use Rattle.vp_terms.specs.declared.expr.Var.{Var};
ghost use Rattle.vp_poly.specs.Points.{IsAt};
ghost use Rattle.vp_poly.specs.Value.{Point};
ghost use Rattle.vp_poly.specs.Places.{places_for};
ghost use Rattle.vp_poly.specs.Canonical.{IsEnvironment, StandsAt, StandsFor, StandsWithin, itself, variables};

use crate::{Mono, Poly, Scaled, Term, Weight};
use std::alloc::{AllocError, Global};
use vp_words::Counts;

/// Each variable itself, at its place.
pub fn plain(alloc: Global, counts: Counts) -> Result<Vec<Scaled>, AllocError>
    requires { IsValid counts }
    ensures exact { IfOk result (λ env. env.items ≡ map itself (range_with_len 0
        (place_count counts))) }
    ensures environment { IfOk result (λ env. IsEnvironment (place_count counts) env.items) }
    ensures coefficients { IfOk result (λ env. StandsFor (places_for counts) env.items (variables
        (places_for counts))) }
    ensures values { (x : Point) (a : Assignment) → IsAt (places_for counts) x a →
        IfOk result (λ env. StandsAt (places_for counts) env.items x a) }
    ensures only { (used : Var → Bool) (allowed : ℕ → Bool) →
        ((v : Var) → IsTrue (used v) → IsTrue (allowed (place (places_for counts) v))) →
        IfOk result (λ env. StandsWithin (places_for counts) env.items used allowed) }
{
    let places = counts.place_count() as usize;
    let mut env = Vec::new(alloc);
    for place in 0..places {
        env.push(itself(alloc, place)?)?;
    }
    Ok(env)
}

#[tactic(auto, using(crate::proofs::PlainLaws::units))]
fn itself(alloc: Global, place: usize) -> Result<Scaled, AllocError>
    requires { place < 32 }
    ensures { IfOk result (λ s. s ≡ itself place) }
{
    let mut powers = [0; 32];
    powers[place] = 1;
    let term = Term {
        mono: Mono { powers },
        coef: 1,
    };
    Ok(Scaled {
        poly: Poly::single(alloc, term)?,
        weight: Weight {
            norm: 1,
            den: 1,
            degree: 1,
            terms: 1,
        },
    })
}
