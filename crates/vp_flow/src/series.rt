//! The Lie series of each state: a polynomial for each power of `tau`. In these powers over the
//! factorials an integral over `tau` only moves each polynomial on by one, so the series of a state
//! is the state itself and then its right side with each state replaced by that state's series.

ghost use Rattle.std.specs.Prelude.{◌≡◌, ℕ, ◌+◌, ◌-◌, ◌*◌, ◌<◌, ◌≤◌, ◌^◌, suc, [], length, take, slice_set, slice_get, slice_index, IfOk, IfSome, MatchOption, unsigned_abs};
ghost use Rattle.vp_poly.specs.Poly.{IsPoly, norm, degree};
ghost use Rattle.vp_poly.specs.Places.{places_for};
ghost use Rattle.vp_flow.specs.Series.{state_degree};
ghost use Rattle.vp_flow.specs.Whole.{part_at, state_place};
ghost use Rattle.vp_flow.specs.Parts.{HasState, HasRoom, IsLinear, IsReplaced};

use std::alloc::{AllocError, Global};
use vp_poly::{Mono, Poly, Term};
use vp_terms::Items;
use vp_words::Counts;

// A state that is a factor of the monomial.
#[tactic(auto, using(crate::proofs::Linear::no_states))]
fn state_in(mono: &Mono, counts: Counts) -> Option<usize>
    requires { counts.params + counts.states ≤ 32 }
    ensures { MatchOption result (state_degree (places_for counts) mono.now.powers ≡ 0) (λ j.
        HasState (places_for counts) j mono.now.powers) }
{
    let first = usize::from(counts.params);
    for j in 0..usize::from(counts.states) {
        if mono.powers[first + j] > 0 {
            return Some(j);
        }
    }
    None
}

// The term without the state j.
fn without(term: Term, counts: Counts, j: usize) -> Term
    requires { counts.params + j < 32 }
    ensures powers { result.mono.powers ≡ slice_set term.mono.powers (state_place (places_for
        counts) j) 0 }
    ensures coef { result.coef ≡ term.coef }
{
    let mut powers = term.mono.powers;
    powers[usize::from(counts.params) + j] = 0;
    Term {
        mono: Mono { powers },
        coef: term.coef,
    }
}

// The k-th polynomial of the state j, if there is one.
fn part_of(series: &[Items<Poly>], j: usize, k: usize) -> Option<&Poly>
    requires { j < length series.now }
    ensures { MatchOption result (part_at series.now j k ≡ []) (λ q. part_at series.now j k ≡ q.now) }
{
    series[j].get().get(k)
}

// What the terms up to the number n give, from what those before it gave.
fn with_term(
    alloc: Global,
    out: Poly,
    rate: &Poly,
    n: u32,
    counts: Counts,
    series: &[Items<Poly>],
    k: usize,
) -> Result<Poly, AllocError>
    requires within { n < length rate.now }
    requires poly { IsPoly rate.now }
    requires few { counts.params + counts.states ≤ 32 }
    requires linear { IsLinear (places_for counts) rate.now }
    requires count { length series.now ≡ counts.states }
    requires room { HasRoom (places_for counts) (λ j. part_at series.now j k) rate.now }
    requires before { IsReplaced (places_for counts) (λ j. part_at series.now j k) (take n rate.now)
        out }
    ensures { IfOk result (IsReplaced (places_for counts) (λ j. part_at series.now j k) (take
        (n + 1) rate.now)) }
{
    let term = rate.term(n);
    let Some(j) = state_in(&term.mono, counts) else {
        return Ok(out);
    };
    let Some(part) = part_of(series, j, k) else {
        return Ok(out);
    };
    let factor = Poly::single(alloc, without(term, counts, j))?;
    let multiple = factor.mul(alloc, part)?;
    let sum = out.add(alloc, &multiple)?;
    Ok(sum)
}

// The right side with each state replaced by what its series has at k, without the terms that have
// no state.
pub(crate) fn replaced(
    alloc: Global,
    rate: &Poly,
    counts: Counts,
    series: &[Items<Poly>],
    k: usize,
) -> Result<Poly, AllocError>
    requires few { counts.params + counts.states ≤ 32 }
    requires linear { IsLinear (places_for counts) rate.now }
    requires count { length series.now ≡ counts.states }
    requires room { HasRoom (places_for counts) (λ j. part_at series.now j k) rate.now }
    ensures { IfOk result (IsReplaced (places_for counts) (λ j. part_at series.now j k) rate.now) }
{
    let mut out = Poly::zero(alloc);
    for n in 0..rate.len() {
        out = with_term(alloc, out, rate, n, counts, series, k)?;
    }
    Ok(out)
}
