//! The cells where boxes stand.
ghost use Rattle.std.specs.Prelude.{◌≡◌, ◌+◌, ◌*◌, ◌<◌, ◌≤◌, ◌^◌, ◌++◌, OnOk, IfOk, replicate};
ghost use Rattle.vp_words.specs.Record.{IsValid};
ghost use Rattle.vp_layout.specs.Homes.{pair_homes, point_homes, homes_of, state_cell, control_cell, next_control_cell, tau_cell, next_state_cell, record_cell};

use std::alloc::{AllocError, Global};
use vp_words::{Counts, Kind};

/// The two cells of a box, which are one cell where both ends are the same word.
#[derive(Clone, Copy, Debug, PartialEq, Eq)]
pub struct Home {
    /// The cell of the low end.
    pub lo: u16,
    /// The cell of the high end.
    pub hi: u16,
}

/// The cell that holds 0.
pub const ZERO: u16 = 64;

/// The cell that holds 1.
pub const ONE: u16 = 65;

/// The cell that holds 2.
pub const TWO: u16 = 66;

/// The cell that holds -1.
pub const MINUS_ONE: u16 = 67;

/// `n` more homes of two cells each, from a cell on.
#[tactic(auto, using(crate::proofs::Lists::pair_step))]
fn push_pairs(homes: &mut Vec<Home>, at: u16, n: u8) -> Result<(), AllocError>
    requires { at + 2 * n < 2 ^ 16 }
    ensures { OnOk result (homes.new.items ≡ homes.old.items ++ pair_homes at n) }
{
    for i in 0..n {
        let lo = at + 2 * u16::from(i);
        homes.push(Home { lo, hi: lo + 1 })?;
    }
    Ok(())
}

/// `n` more homes of one cell each, from a cell on.
#[tactic(auto, using(crate::proofs::Lists::point_step))]
fn push_points(homes: &mut Vec<Home>, at: u16, n: u8) -> Result<(), AllocError>
    requires { at + n < 2 ^ 16 }
    ensures { OnOk result (homes.new.items ≡ homes.old.items ++ point_homes at n) }
{
    for i in 0..n {
        let cell = at + u16::from(i);
        homes.push(Home { lo: cell, hi: cell })?;
    }
    Ok(())
}

/// Where the boxes of a model with these counts begin. Those of its parameters begin at cell 0.
#[derive(Clone, Copy)]
pub struct Layout {
    /// The first cell of the states, two for each.
    pub states: u16,
    /// The first cell of the controls, one for each.
    pub controls: u16,
    /// The first cell of the next controls, one for each.
    pub next_controls: u16,
    /// The first of the two cells of `tau`.
    pub tau: u16,
    /// The first cell of the next states, two for each.
    pub next_states: u16,
}

impl Layout {
    /// The cells for these counts.
    pub fn of(counts: Counts) -> Layout
        requires { IsValid counts }
        ensures states { result.states ≡ state_cell counts }
        ensures controls { result.controls ≡ control_cell counts }
        ensures next_controls { result.next_controls ≡ next_control_cell counts }
        ensures tau { result.tau ≡ tau_cell counts }
        ensures next_states { result.next_states ≡ next_state_cell counts }
        ensures room { next_state_cell counts + 2 * counts.states ≤ 64 }
    {
        let states = 2 * u16::from(counts.params);
        let controls = states + 2 * u16::from(counts.states);
        let next_controls = controls + u16::from(counts.controls);
        let tau = next_controls + u16::from(counts.controls);
        Layout {
            states,
            controls,
            next_controls,
            tau,
            next_states: tau + 2,
        }
    }
}

/// The first cell of a record of this kind. All its words stand below the constants.
pub(crate) fn record_cell(counts: Counts, kind: Kind) -> u16
    requires { IsValid counts }
    ensures { result ≡ record_cell kind counts }
{
    match kind {
        Kind::Init => 0,
        Kind::Choice => Layout::of(counts).next_controls,
        Kind::Sense => Layout::of(counts).tau,
    }
}

/// The homes of all 32 places, in their order. A place that the model doesn't have is at home in the
/// cell that holds 0.
pub fn homes(alloc: Global, counts: Counts) -> Result<Vec<Home>, AllocError>
    requires { IsValid counts }
    ensures { IfOk result (λ hs. hs.items ≡ homes_of counts) }
{
    let cells = Layout::of(counts);
    let mut homes = Vec::new(alloc);
    push_pairs(&mut homes, 0, counts.params + counts.states)?;
    push_points(&mut homes, cells.controls, counts.controls)?;
    push_pairs(&mut homes, cells.next_states, counts.states)?;
    push_points(&mut homes, cells.next_controls, counts.controls)?;
    push_pairs(&mut homes, cells.tau, 1)?;
    push_none(&mut homes, 32 - counts.place_count() as u8)?;
    Ok(homes)
}

/// `n` more homes of places that the model doesn't have.
#[tactic(auto, using(crate::proofs::Lists::none_step))]
fn push_none(homes: &mut Vec<Home>, n: u8) -> Result<(), AllocError>
    ensures { OnOk result (homes.new.items ≡ homes.old.items ++ replicate n (record { lo = 64; hi = 64 })) }
{
    for _ in 0..n {
        homes.push(Home { lo: ZERO, hi: ZERO })?;
    }
    Ok(())
}
