//! The instructions of the word machine, their bytes, and which code a machine runs. The rules are
//! in `docs/machine.md`.
#![tactic(auto)]

mod check;
mod code;
mod encoding;
mod instr;
pub mod laws;

pub use code::{CheckErr, Checked, Code, Instrs};
pub use encoding::{decode, encode};
pub use instr::{Instr, Mon};
