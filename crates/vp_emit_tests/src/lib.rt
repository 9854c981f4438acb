//! The tests of `vp_emit`, by what it offers.
#![tactic(auto)]

#[cfg(test)]
mod tests;
