//! What compiled code has in common, however it works out its formulas: where it keeps the boxes of a
//! sandbox, its pieces between records, and what ties its cells to the boxes. The layout stands in
//! `docs/generation.md`.
#![tactic(auto)]

mod block;
mod home;
pub mod laws;
mod product;
mod truth;

pub use block::{Monitor, emit_copies, push_act, push_block, push_take, push_yes};
pub use home::{Home, Layout, MINUS_ONE, ONE, TWO, ZERO, homes};
pub use product::emit_product;
pub use truth::{need, needs};
