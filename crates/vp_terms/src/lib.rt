//! The trees of a model and what they mean: fractions, expressions, formulas, programs, packages.
#![tactic(auto)]

mod evaluate;
mod expr;
mod formula;
mod items;
pub mod laws;
mod number;
mod package;
mod prog;
mod ratio;
mod running;
mod well_formed;

pub use evaluate::{holds_at, value_at};
pub use expr::{Expr, Places, Var};
pub use formula::{Cmp, Formula};
pub use items::{Items, NameList, NameText};
pub use package::{Cert, CertTerm, Names, Package, Part, Plant, Slack};
pub use prog::Prog;
pub use ratio::Ratio;
pub use running::leads_to;
pub use well_formed::Kinds;
