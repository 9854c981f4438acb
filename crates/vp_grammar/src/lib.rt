//! The grammar of a package's text: expressions, formulas, controllers, certificates and entries as
//! lists of terminals, and their trees. The rules are in `docs/package.md`.
#![tactic(auto)]

mod certificate;
mod controller;
pub mod controller_laws;
mod entries;
pub mod entry_laws;
mod expression;
mod fault;
mod formula;
mod front;
mod heading;
pub mod laws;
mod leading;
mod strays;
mod terminal;

pub use certificate::whole_certificate;
pub use controller::whole_controller;
pub use entries::{Mark, bounds, names, times, whole_entries};
pub use expression::whole_expression;
pub use fault::ParseErr;
pub use formula::{formula_piece, whole_formula};
pub use heading::is_heading;
pub use strays::{Rule, first_stray};
pub use terminal::{Operator, Span, Symbol, Terminal};
pub use vp_lex::ReservedWord;
