//! What is made of a package.
ghost use Rattle.vp_terms.specs.WellFormed.{IsWellFormed};
ghost use Rattle.vp_synth.specs.Accepting.{AreMadeOf};

use vp_monitor::Obligation;
use vp_sandbox::Sandbox;
use vp_terms::{Items, Package};

/// A well formed package with its own obligations and its own sandbox.
#[derive(Drop)]
pub struct Prepared {
    /// The package.
    pub package: Package,
    /// Its obligations, in the order Init, Safe, Step and Fallback.
    pub obligations: Items<Obligation>,
    /// Its sandbox.
    pub sandbox: Sandbox,
    ghost well_formed: { ∥ IsWellFormed «package» ∥₁ },
    ghost made: { ∥ AreMadeOf «package» obligations sandbox ∥₁ },
}
