//! Controllers.
use crate::{Expr, Formula};

/// A controller's program. It changes controls alone, and each is named by its number.
#[derive(Debug, Drop)]
pub enum Prog {
    /// Changes nothing.
    Skip,
    /// Gives a control the value of an expression.
    Assign(u32, Expr),
    /// Gives a control any value.
    Any(u32),
    /// Passes where the formula holds, and changes nothing.
    Test(Formula),
    /// Runs one of the two.
    Choice(Box<Prog>, Box<Prog>),
    /// Runs the first and then the second.
    Seq(Box<Prog>, Box<Prog>),
    /// Runs the first program where the formula holds, and else the second.
    If(Formula, Box<Prog>, Box<Prog>),
}
