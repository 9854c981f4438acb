//! The heights of the states.

ghost use Rattle.std.specs.Prelude.{◌≡◌, ℕ, ◌+◌, ◌<◌, ◌≤◌, ◌^◌, cond, length, slice_index, IfOk, replicate};
ghost use Rattle.vp_poly.specs.Places.{places_for};
ghost use Rattle.vp_flow.specs.Sides.{AreHeights, greatest_where, height_from, polys, side, uses};
ghost use Rattle.vp_flow.specs.Order.{IsOrder};
ghost use Rattle.vp_flow.specs.Matrix.{HasRows, at};

use std::alloc::{AllocError, Global};
use vp_poly::Scaled;
use vp_terms::Items;
use vp_words::Counts;

// The heights of the states, in an order in which each stands after those that it uses.
pub(crate) fn heights(
    alloc: Global,
    sides: &[Scaled],
    counts: Counts,
    order: &[usize],
    table: &[Items<bool>],
) -> Result<Vec<u32>, AllocError>
    requires sides { length sides.now ≡ counts.states }
    requires order { IsOrder (places_for counts) (polys sides.now) order.now }
    requires all { (j : ℕ) → j < counts.states → (s : ℕ) × (s < length order.now) ×
        (slice_index order.now s ≡ j) }
    requires table { HasRows counts.states counts.states (uses (places_for counts)
        (polys sides.now)) table.now }
    requires few { length order.now < 2 ^ 31 }
    ensures count { IfOk result (λ v. length v.items ≡ counts.states) }
    ensures heights { IfOk result (λ v. AreHeights (places_for counts) (polys sides.now)
        (slice_index v.items)) }
{
    let mut heights = no_heights(alloc, usize::from(counts.states))?;
    for state in order {
        let height = height(sides, counts, *state, table[*state].get(), &heights);
        heights[*state] = height;
    }
    Ok(heights)
}

// The height of a state from those that it uses.
fn height(sides: &[Scaled], counts: Counts, state: usize, row: &[bool], heights: &[u32]) -> u32
    requires sides { length sides.now ≡ counts.states }
    requires state { state < counts.states }
    requires row { length row.now ≡ counts.states }
    requires uses { (j : ℕ) → j < counts.states → at row.now j ≡ uses (places_for counts)
        (polys sides.now) state j }
    requires count { length heights.now ≡ counts.states }
    requires small { (j : ℕ) → slice_index heights.now j < 2 ^ 31 }
    ensures { result ≡ height_from (side (polys sides.now) state) (greatest_where
        counts.states (uses (places_for counts) (polys sides.now) state) (slice_index heights.now)) }
{
    if sides[state].poly.is_zero() {
        return 0;
    }
    greatest_used(row, heights) + 1
}

// The greatest height of those that are marked, 0 for none.
fn greatest_used(row: &[bool], heights: &[u32]) -> u32
    requires count { length heights.now ≡ length row.now }
    requires small { (j : ℕ) → slice_index heights.now j < 2 ^ 31 }
    ensures value { result ≡ greatest_where (length row.now) (at row.now) (slice_index heights.now) }
    ensures small { result < 2 ^ 31 }
{
    let mut greatest = 0;
    for j in 0..row.len() {
        greatest = greatest.max(if row[j] { heights[j] } else { 0 });
    }
    greatest
}

// A height of 0 for each state.
fn no_heights(alloc: Global, states: usize) -> Result<Vec<u32>, AllocError>
    ensures { IfOk result (λ v. v.items ≡ replicate states 0) }
{
    let mut heights = Vec::new(alloc);
    for _k in 0..states {
        heights.push(0)?;
    }
    Ok(heights)
}
