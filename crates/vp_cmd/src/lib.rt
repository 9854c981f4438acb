//! The commands of `vphy`: the top call, over any store, source and sink.
#![tactic(auto)]

mod command;
pub mod laws;
mod opening;
mod outcome;
mod packages;
mod refusal;
mod status;
mod tank;
mod words;

pub use command::vphy;
pub use status::Status;
