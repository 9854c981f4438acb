//! In which order the states are integrated, and up to which heights.

ghost use Rattle.std.specs.Prelude.{◌≡◌, ◌<◌, ℕ, IfErr, IfOk, length, map, string_bytes};
ghost use Rattle.vp_terms.specs.WellFormed.{IsWellFormed};
ghost use Rattle.vp_poly.specs.Places.{places_for};
ghost use Rattle.vp_flow.specs.Sides.{AreRightSides, Reaches, model, polys, uses};
ghost use Rattle.vp_flow.specs.Order.{via};
ghost use Rattle.vp_flow.specs.Matrix.{HasRows, IsMatrix, cell};
ghost use Rattle.vp_flow.specs.Outcome.{AreLinear, Refuses, named_where};
ghost use Rattle.vp_flow.specs.Scheduled.{IsSchedule};

use crate::FlowErr;
use crate::heights::heights;
use crate::order::{by_rank, ranks, reached};
use crate::uses::uses;
use std::alloc::{AllocError, Global};
use vp_poly::Scaled;
use vp_terms::{Items, NameList, Package};
use vp_words::Counts;

// The states in an order in which each stands behind those that it uses, and their heights.
#[derive(Debug, Drop)]
pub(crate) struct Schedule {
    // The numbers of the states.
    pub(crate) order: Vec<usize>,
    // The height of each state, in the order of the states.
    pub(crate) heights: Vec<u32>,
}

// The order and the heights, unless some state reaches itself.
pub(crate) fn scheduled(
    alloc: Global,
    pkg: &Package,
    sides: &[Scaled],
    counts: Counts,
) -> Result<Schedule, FlowErr>
    requires good { IsWellFormed pkg.now }
    requires places { places_for counts ≡ model pkg.now }
    requires sides { AreRightSides pkg.now sides.now }
    requires linear { AreLinear pkg.now sides.now }
    ensures schedule { IfOk result (IsSchedule (places_for counts) (polys sides.now)) }
    ensures refused { IfErr result (Refuses pkg.now) }
{
    let table = uses(alloc, sides, counts)?;
    let reach = reached(alloc, &table)?;
    check_cycle(alloc, pkg, sides, counts, &reach)?;
    let ranks = ranks(alloc, &reach)?;
    let order = by_rank(alloc, &ranks)?;
    let heights = heights(alloc, sides, counts, &order, &table)?;
    Ok(Schedule { order, heights })
}

// Whether no state reaches itself.
fn check_cycle(
    alloc: Global,
    pkg: &Package,
    sides: &[Scaled],
    counts: Counts,
    reach: &[Items<bool>],
) -> Result<(), FlowErr>
    requires places { places_for counts ≡ model pkg.now }
    requires sides { AreRightSides pkg.now sides.now }
    requires linear { AreLinear pkg.now sides.now }
    requires reach { HasRows counts.states counts.states (via (uses (places_for counts)
        (polys sides.now)) counts.states) reach.now }
    ensures acyclic { IfOk result (λ u. (j : ℕ) → j < counts.states →
        ¬ Reaches (places_for counts) (polys sides.now) j j) }
    ensures refused { IfErr result (Refuses pkg.now) }
{
    let names = cycling(alloc, &pkg.names.states, reach)?;
    if names.is_empty() {
        return Ok(());
    }
    Err(FlowErr::Cycle {
        names: NameList::of(names),
    })
}

// The names of the states that reach themselves.
fn cycling(
    alloc: Global,
    states: &NameList,
    reach: &[Items<bool>],
) -> Result<Vec<String>, AllocError>
    requires count { length states.now ≡ length reach.now }
    requires matrix { IsMatrix (length reach.now) reach.now }
    ensures { IfOk result (λ v. map string_bytes v.items ≡ named_where (λ i. cell reach.now i i) 0
        states.now) }
{
    let mut names = Vec::new(alloc);
    for (k, name) in states.get().iter().enumerate() {
        if reach[k].get()[k] {
            names.push(name.to_string(alloc)?)?;
        }
    }
    Ok(names)
}
