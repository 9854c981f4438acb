//! Packages from their text: exactly the grammar, and the first thing wrong with its place. The rules
//! are in `docs/package.md`.
#![tactic(auto)]

mod counts;
mod fault;
pub mod laws;
mod naming;
mod numbers;
mod parts;
mod pieces;
mod reading;
mod sections;
mod spelling;
mod strays;
mod terminals;

pub use fault::ReadErr;
pub use parts::{read_cert, read_expr, read_formula};
pub use pieces::{cut, first_deep, piece};
pub use reading::{known_pieces, read_package, read_pieces};
pub use strays::check_variables;
