//! The tests of `vp_monitor`, by what it offers.
#![tactic(auto)]

#[cfg(test)]
mod tests;
