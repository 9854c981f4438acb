//! The tests of `vp_gen`, by what it offers.
#![tactic(auto)]

#[cfg(test)]
mod tests;
