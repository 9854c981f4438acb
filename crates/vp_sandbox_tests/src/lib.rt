//! The tests of `vp_sandbox`, by what it offers.
#![tactic(auto)]

#[cfg(test)]
mod tests;
