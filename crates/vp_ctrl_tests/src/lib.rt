//! The tests of `vp_ctrl`, by what it offers.
#![tactic(auto)]

#[cfg(test)]
mod tests;
