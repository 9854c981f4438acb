//! The tests of `vp_outside`, by what it offers.
#![tactic(auto)]

#[cfg(test)]
mod tests;
