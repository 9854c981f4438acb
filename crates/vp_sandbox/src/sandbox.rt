//! Sandboxes and their states.
ghost use Rattle.std.specs.Prelude.{◌≡◌};

use vp_interval::Interval;
use vp_logic::Norm;
use vp_poly::Poly;
use vp_terms::Items;
use vp_words::{Counts, Due, Word};

/// The monitors of a model and its fallback. The rules stand in `docs/sandbox.md`.
#[derive(Drop)]
pub struct Sandbox {
    /// How many parameters, states and controls the model has.
    pub counts: Counts,
    /// The conjuncts of the init monitor: over parameters, states and controls.
    pub init: Items<Norm>,
    /// The controller monitor: over these and the next controls.
    pub ctrl: Norm,
    /// The conjuncts of the plant monitor: over parameters, states, controls, next states and
    /// `tau`.
    pub plant: Items<Norm>,
    /// The fallback's value for each control: over parameters, states and controls.
    pub fallback: Items<Poly>,
}

/// Where a sandbox stands: the box of each place, and what is due.
#[derive(Clone, Copy, Debug, PartialEq, Eq)]
pub struct SandboxState {
    /// The boxes, by the place of their variable.
    pub boxes: [Interval; 32],
    /// The kind of the record that is due.
    pub due: Due,
}

/// Bounds on the code of a sandbox. A number above 2^64 - 1 is given as 2^64 - 1.
#[derive(Clone, Copy, Debug, PartialEq, Eq)]
pub struct Sizes {
    /// At most so many instructions.
    pub instrs: u64,
    /// At most so many cells.
    pub cells: u64,
}

impl Sandbox {
    ghost use Rattle.vp_sandbox.specs.Answer.{start};
    ghost use Rattle.vp_sandbox.specs.Sandbox.{shown};

    /// The first state: an init record is due, and all boxes have both ends 0.
    pub fn start(&self) -> SandboxState
        ensures { shown result ≡ start }
    {
        SandboxState {
            boxes: [Interval::point(Word::ZERO); 32],
            due: Due::Init,
        }
    }
}
