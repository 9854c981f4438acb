//! The tests of `vp_cmd`, by what it offers.
#![tactic(auto)]

#[cfg(test)]
mod package_tests;
#[cfg(test)]
mod run_tests;
#[cfg(test)]
mod tests;
