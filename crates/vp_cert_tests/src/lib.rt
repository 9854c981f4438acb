//! The tests of `vp_cert`, by what it offers.
#![tactic(auto)]

#[cfg(test)]
mod tests;
