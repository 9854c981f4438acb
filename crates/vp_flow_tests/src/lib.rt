//! The tests of `vp_flow`, by what it offers.
#![tactic(auto)]

#[cfg(test)]
mod tests;
