//! The tests of `vp_vm`, by what it offers.
#![tactic(auto)]

#[cfg(test)]
mod tests;
