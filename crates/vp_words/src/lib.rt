//! Machine words with two infinities, their directed arithmetic and their text, and the records and
//! replies that are made of them.
#![tactic(auto)]

#[cfg(test)]
mod edges;
pub mod laws;
mod number;
mod record;
#[cfg(test)]
mod tests;
mod text;

pub use number::{Word, add_down, add_up, encloses, ge, gt, max, min, mul_down, mul_up, neg, same};
pub use record::{Counts, Due, Kind, Record, Reply, Turn, Why, fields, pair_count};
pub use text::{WordErr, read_word, reread, write_word};
