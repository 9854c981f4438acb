//! The tests of `vp_grammar`, by what it offers.
#![tactic(auto)]

#[cfg(test)]
mod tests;
