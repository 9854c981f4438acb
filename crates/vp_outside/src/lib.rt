//! The outside as traits: a source of bytes, a sink for bytes and a store of named files.
//! Beside them stand a source, a sink and a store in memory, whose calls fail by plan.
#![tactic(auto)]

mod failed;
mod fields;
mod memory;
mod sink;
mod source;
mod store;

pub use failed::Failed;
pub use fields::{Files, Listed, Reserved, Text};
pub use memory::{MemSink, MemSource, MemStore};
pub use sink::{Sink, write_all};
pub use source::Source;
pub use store::{LoadErr, Loaded, Store};
