//! What a run of a sandbox means: the histories of rationals that its records represent, what a model
//! has to say of them, and which reports are right.
#![tactic(auto)]

pub mod laws;
