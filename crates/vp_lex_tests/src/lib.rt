//! The tests of `vp_lex`, by what it offers.
#![tactic(auto)]

#[cfg(test)]
mod tests;
