//! The tests of `vp_interval`, by what it offers.
#![tactic(auto)]

#[cfg(test)]
mod tests;
