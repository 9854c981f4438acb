//! From a sandbox to code of the word machine that agrees with it. The layout of the code stands in
//! `docs/generation.md`.
#![tactic(auto)]

mod build;
mod check;
mod form;
mod generate;
mod poly;
mod power;

pub use generate::{GenErr, compile};
