//! The tests of `vp_runner`, by what it offers.
#![tactic(auto)]

#[cfg(test)]
mod tests;
