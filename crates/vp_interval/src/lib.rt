//! Intervals of words: sums, products, powers and polynomials of them, rounded outward, so that they
//! represent the sums, products, powers and polynomials of all that their arguments represent.
#![tactic(auto)]

mod arithmetic;
mod formula;
mod interval;
pub mod laws;
mod polynomial;
mod truth;

pub use arithmetic::{add, mul, pow};
pub use formula::{first_not_yes, truth_of};
pub use interval::Interval;
pub use polynomial::of_poly;
pub use truth::Truth;
