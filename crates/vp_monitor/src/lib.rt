//! The monitors of a package, and the obligations under which its model is safe.
#![tactic(auto)]

mod comparing;
mod error;
mod exchange;
mod fallback;
pub mod laws;
mod making;
mod parts;
mod plant;
mod splitting;
mod standing;
mod types;

pub use error::{MonErr, Place};
pub use making::monitors;
pub use splitting::obligations;
pub use types::{Monitors, Obligation};
