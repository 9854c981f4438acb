//! The tests of `vp_terms`, by what it offers.
#![tactic(auto)]

#[cfg(test)]
mod tests;
