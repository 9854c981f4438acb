//! The tests of `vp_logic`, by what it offers.
#![tactic(auto)]

#[cfg(test)]
mod tests;
