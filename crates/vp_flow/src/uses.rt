//! Which states occur in right sides.

ghost use Rattle.std.specs.Prelude.{◌≡◌, ◌≤◌, ◌<◌, ◌+◌, ℕ, MatchOption, IfOk, false, true, length};
ghost use Rattle.vp_poly.specs.Poly.{IsPoly};
ghost use Rattle.vp_poly.specs.Places.{places_for};
ghost use Rattle.vp_flow.specs.Series.{state_degree};
ghost use Rattle.vp_flow.specs.Sides.{is_linear, occurs, polys, side, uses};
ghost use Rattle.vp_flow.specs.Matrix.{HasCells, HasRows};

use std::alloc::{AllocError, Global};
use vp_poly::{Mono, Poly, Scaled};
use vp_terms::Items;
use vp_words::Counts;

// The degree of a monomial in the states.
fn state_degree(mono: &Mono, counts: Counts) -> u32
    requires { counts.params + counts.states ≤ 32 }
    ensures { result ≡ state_degree (places_for counts) mono.now.powers }
{
    let first = usize::from(counts.params);
    let states = &mono.powers[first..first + usize::from(counts.states)];
    let mut total = 0;
    for power in states {
        total += u32::from(*power);
    }
    total
}

// Whether each monomial has degree at most 1 in the states.
fn is_linear(poly: &Poly, counts: Counts) -> bool
    requires { counts.params + counts.states ≤ 32 }
    ensures { result ≡ is_linear (places_for counts) poly.now }
{
    for k in 0..poly.len() {
        if state_degree(&poly.term(k).mono, counts) > 1 {
            return false;
        }
    }
    true
}

// The first state whose right side has degree above 1 in the states.
pub(crate) fn first_bent(sides: &[Scaled], counts: Counts) -> Option<usize>
    requires { counts.params + counts.states ≤ 32 }
    ensures { MatchOption result
        ((i : ℕ) → i < length sides.now → is_linear (places_for counts) (side (polys sides.now) i) ≡ true)
        (λ i. (i < length sides.now) × (is_linear (places_for counts) (side (polys sides.now) i) ≡ false) ×
        ((j : ℕ) → j < i → is_linear (places_for counts) (side (polys sides.now) j) ≡ true)) }
{
    for i in 0..sides.len() {
        if !is_linear(&sides[i].poly, counts) {
            return Some(i);
        }
    }
    None
}

// Whether the state is a factor of some monomial.
fn occurs(poly: &Poly, counts: Counts, state: usize) -> bool
    requires { counts.params + state < 32 }
    ensures { result ≡ occurs (places_for counts) state poly.now }
{
    for k in 0..poly.len() {
        if poly.term(k).mono.powers[usize::from(counts.params) + state] > 0 {
            return true;
        }
    }
    false
}

// Which states a right side has.
fn used(alloc: Global, poly: &Poly, counts: Counts) -> Result<Items<bool>, AllocError>
    requires { counts.params + counts.states ≤ 32 }
    ensures { IfOk result (HasCells counts.states (λ j. occurs (places_for counts) j poly.now)) }
{
    let mut cells = Vec::new(alloc);
    for state in 0..usize::from(counts.states) {
        cells.push(occurs(poly, counts, state))?;
    }
    Ok(Items::of(cells))
}

// Which state uses which.
pub(crate) fn uses(
    alloc: Global,
    sides: &[Scaled],
    counts: Counts,
) -> Result<Vec<Items<bool>>, AllocError>
    requires few { counts.params + counts.states ≤ 32 }
    requires count { length sides.now ≡ counts.states }
    ensures { IfOk result (λ v. HasRows counts.states counts.states (uses (places_for counts)
        (polys sides.now)) v.items) }
{
    let mut rows = Vec::new(alloc);
    for side in sides {
        rows.push(used(alloc, &side.poly, counts)?)?;
    }
    Ok(rows)
}
