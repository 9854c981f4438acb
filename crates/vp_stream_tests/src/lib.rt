//! The tests of `vp_stream`, by what it offers.
#![tactic(auto)]

#[cfg(test)]
mod tests;
