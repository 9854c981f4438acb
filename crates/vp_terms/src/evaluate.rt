//! A slow evaluator, which says what expressions and formulas mean. It is no part of the product's
//! runs: it stands beside the definitions so that they are tried on worked values.
ghost use Rattle.std.specs.Prelude.{◌≡◌, ◌↔◌, IsTrue, IsSome, IfSome, slice_get};
ghost use Rattle.vp_terms.specs.Rational.{Equals};
ghost use Rattle.vp_terms.specs.Meaning.{rational, value, holds};
ghost use Rattle.vp_terms.specs.Evaluation.{at, IsSmallIn, AreSmallIn};

use crate::{Expr, Formula, Places, Ratio};

/// The value of an expression where the variable of each place has the value that stands there.
/// None exactly where a variable has no value or the value of some part, or of a power on the way
/// to a power, has no lowest terms below 2^62 in size.
#[tactic(auto, using(crate::proofs::Evaluating::evaluating))]
pub fn value_at(expr: &Expr, places: Places, values: &[Ratio]) -> Option<Ratio>
    ensures exact { IfSome result (λ r. Equals (rational r) (value expr.now (at places values.now))) }
    ensures small { IsSome result ↔ IsSmallIn places values.now expr.now }
{
    match expr {
        Expr::Num(number) => Some(*number),
        Expr::Var(variable) => value_of(values, variable.place(places)),
        Expr::Add(l, r) => {
            let left = value_at(l, places, values)?;
            let right = value_at(r, places, values)?;
            left.plus(right)
        }
        Expr::Sub(l, r) => {
            let left = value_at(l, places, values)?;
            let right = value_at(r, places, values)?;
            left.minus(right)
        }
        Expr::Mul(l, r) => {
            let left = value_at(l, places, values)?;
            let right = value_at(r, places, values)?;
            left.times(right)
        }
        Expr::Pow(base, exponent) => value_at(base, places, values)?.to_power(*exponent),
    }
}

// The value at a place, if there is one.
fn value_of(values: &[Ratio], place: u64) -> Option<Ratio>
    ensures { result ≡ slice_get values.now place }
{
    if place < values.len() as u64 {
        Some(values[place as usize])
    } else {
        None
    }
}

/// Whether a formula holds there. None exactly where some expression in it has no value by
/// [`value_at`].
pub fn holds_at(formula: &Formula, places: Places, values: &[Ratio]) -> Option<bool>
    ensures exact { IfSome result (λ b. b ≡ holds formula.now (at places values.now)) }
    ensures small { IsSome result ↔ AreSmallIn places values.now formula.now }
{
    match formula {
        Formula::True => Some(true),
        Formula::Cmp(cmp, l, r) => {
            let left = value_at(l, places, values)?;
            let right = value_at(r, places, values)?;
            Some(left.compares(*cmp, right))
        }
        Formula::And(l, r) => {
            let left = holds_at(l, places, values)?;
            let right = holds_at(r, places, values)?;
            Some(left && right)
        }
        Formula::Or(l, r) => {
            let left = holds_at(l, places, values)?;
            let right = holds_at(r, places, values)?;
            Some(left || right)
        }
        Formula::Not(inner) => Some(!holds_at(inner, places, values)?),
    }
}
