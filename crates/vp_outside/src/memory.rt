//! A source, a sink and a store in memory, whose calls fail by plan.
mod sink;
mod source;
mod store;

pub use sink::MemSink;
pub use source::MemSource;
pub use store::MemStore;
