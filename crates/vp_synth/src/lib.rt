//! Acceptance of packages: their sandboxes and obligations, the certificates that refute each case, the first
//! thing that is wrong, and the listing.
#![tactic(auto)]

mod accepting;
mod certifying;
pub mod laws;
mod listing;
mod prepared;
mod printing;
mod refusal;
mod sandbox;
mod variables;

pub use accepting::{accept, prepare};
pub use listing::{list, part_text};
pub use prepared::Prepared;
pub use printing::push_monomial;
pub use refusal::Refusal;
pub use variables::variable_names;
