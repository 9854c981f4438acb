//! What is made of a package: its monitors and its obligations.

use vp_ctrl::Path;
use vp_logic::{Atom, Norm};
use vp_poly::Poly;
use vp_terms::{Items, Part};
use vp_words::Counts;

/// The monitors of a package, and the forms of its invariant and of what is asked. The rules stand in
/// `docs/monitors.md`.
#[derive(Drop)]
pub struct Monitors {
    /// How many parameters, states and controls the model has.
    pub counts: Counts,
    /// Where a run may start: over parameters, states and controls.
    pub init: Norm,
    /// The invariant, over the same.
    pub inv: Norm,
    /// What is asked, over the same.
    pub safe: Norm,
    /// The paths of the controller: over these and next controls.
    pub paths: Items<Path>,
    /// The conjuncts of the plant: over parameters, states, the controls in force, next states and
    /// `tau`.
    pub plant: Items<Norm>,
    /// The fallback's polynomial of each control: over parameters, states and controls.
    pub fallback: Items<Poly>,
}

/// An obligation: in none of its cases may all atoms hold together.
#[derive(Drop)]
pub struct Obligation {
    /// Which of the four it is.
    pub part: Part,
    /// The atoms of all its parts, from left to right.
    pub atoms: Items<Atom>,
    /// The cases, each as places in `atoms`, from 0.
    pub cases: Items<Vec<u32>>,
}
