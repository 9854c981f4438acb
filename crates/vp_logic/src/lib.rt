//! Normal forms of formulas: atoms over canonical polynomials, and the cases of lists of them.
#![tactic(auto)]

mod forming;
pub mod laws;
mod making;
mod members;
mod negation;
mod norm;
mod renaming;
mod splitting;

pub use forming::{normal, term_count};
pub use making::{all_of, any_of};
pub use members::{atoms, conjuncts};
pub use negation::negate;
pub use norm::{Atom, Norm, Norms, Rel};
pub use renaming::rename;
pub use splitting::{CaseErr, cases};
