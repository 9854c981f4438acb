//! Symbolic execution of controllers: the paths of a controller as lists of normal forms over the
//! values before it and after it.
#![tactic(auto)]

mod hidden;
pub mod laws;
mod path;
mod walk;
mod ways;

pub use path::{Path, PathErr, paths};
