//! Code whose jumps lead to labels, until each label has its place.
#![tactic(auto)]

mod builder;
pub mod laws;
mod target;

pub use builder::{BuildErr, Builder};
