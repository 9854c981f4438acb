//! Certificates: sums of terms that show that the atoms of a case never hold together.
#![tactic(auto)]

mod error;
mod factor;
mod labels;
pub mod laws;
mod refuting;
mod size;

pub use error::{CertErr, CertWhy};
pub use refuting::refutes;
