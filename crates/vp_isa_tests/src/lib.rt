//! The tests of `vp_isa`, by what it offers.
#![tactic(auto)]

#[cfg(test)]
mod tests;
