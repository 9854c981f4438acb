//! The flow of a model: how its states change over time.
#![tactic(auto)]

mod assembly;
mod bounds;
mod error;
mod filling;
mod flows;
mod heights;
mod integral;
pub mod laws;
mod order;
mod rates;
mod schedule;
mod series;
mod sides;
mod solution;
mod uses;
mod weighing;
mod weights;

pub use bounds::Bounds;
pub use error::FlowErr;
pub(crate) use rates::Rates;
pub use solution::flow;
