//! The word machine: it executes checked code, record by record (`docs/machine.md`).
#![tactic(auto)]

mod execute;
mod machine;
mod steps;

pub use machine::{Machine, VmReply};
pub use steps::Steps;
