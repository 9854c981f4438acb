//! The tests of `vp_poly`, by what it offers.
#![tactic(auto)]

#[cfg(test)]
mod tests;
