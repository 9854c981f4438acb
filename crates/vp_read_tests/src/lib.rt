//! The tests of `vp_read`, by what it offers.
#![tactic(auto)]

#[cfg(test)]
mod tests;
