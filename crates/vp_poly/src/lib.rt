//! Polynomials over whole numbers, with their terms in order, and the canonical polynomials and
//! weights of expressions.
#![tactic(auto)]

mod canonical;
mod environment;
pub mod laws;
mod mono;
mod places;
mod poly;
mod scaled;
mod weight;

pub use canonical::{PolyErr, of_difference, of_expr, weights_of};
pub use environment::plain;
pub use mono::{Mono, Term};
pub use places::{counts_of, place_in};
pub use poly::Poly;
pub use scaled::Scaled;
pub use weight::{Weight, lcm, weigh};
