//! The tests of `vp_synth`, by what it offers.
#![tactic(auto)]

#[cfg(test)]
mod tests;
