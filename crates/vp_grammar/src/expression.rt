//! Expressions from terminals.
ghost use Rattle.std.specs.Prelude.{◌≡◌, ◌<◌, length, IfOk};
ghost use Rattle.vp_terms.specs.Tree.{expr_tree};
ghost use Rattle.vp_grammar.specs.Grammar.{known, nought};
ghost use Rattle.vp_grammar.specs.Reads.{IsExpression, IsStart, IsTerm, IsFactor, IsBase, Reads, ReadsAll, Spells, joined_tree};

use crate::fault::ParseErr;
use crate::front::{Opening, Sign, after_operator, after_sign, after_symbol, exponent, opened};
use crate::terminal::{Operator, Symbol, Terminal};
use std::alloc::{AllocError, Global};
use vp_terms::{Expr, Ratio, Var};

/// The number 0.
fn nought() -> Ratio
    ensures { result ≡ nought }
{
    Ratio { num: 0, den: 1 }
}

/// The variable of a name; `tau` for a name that is not declared, which is refused later.
fn known(variable: Option<Var>) -> Var
    ensures { result ≡ known variable }
{
    variable.unwrap_or(Var::Tau)
}

/// The sum or the difference.
fn joined(alloc: Global, sign: Sign, left: Expr, right: Expr) -> Result<Expr, AllocError>
    ensures { IfOk result (λ e. expr_tree e ≡ joined_tree sign (expr_tree left) (expr_tree right)) }
{
    let (left, right) = (Box::new(alloc, left)?, Box::new(alloc, right)?);
    Ok(match sign {
        Sign::Plus => Expr::Add(left, right),
        Sign::Minus => Expr::Sub(left, right),
    })
}

/// The expression in front, and what follows it.
#[cycle(expr)]
pub(crate) fn expression(
    alloc: Global,
    terminals: &[Terminal],
) -> Result<(Expr, &[Terminal]), ParseErr>
    ensures reads { Reads (λ x. expr_tree x.0) (λ x. x.1.now) (IsExpression terminals.now) result }
    ensures shorter { IfOk result (λ x. length x.1.now < length terminals.now) }
{
    let (mut sum, mut rest) = start(alloc, terminals)?;
    'terms: while let Some((sign, more)) = after_sign(rest) {
        let (next, after) = term(alloc, more)?;
        sum = joined(alloc, sign, sum, next)?;
        rest = after;
    }
    Ok((sum, rest))
}

#[cycle(expr)]
fn start(alloc: Global, terminals: &[Terminal]) -> Result<(Expr, &[Terminal]), ParseErr>
    ensures reads { Reads (λ x. expr_tree x.0) (λ x. x.1.now) (IsStart terminals.now) result }
    ensures shorter { IfOk result (λ x. length x.1.now < length terminals.now) }
{
    match after_operator(Operator::Minus, terminals) {
        Some(more) => {
            let (first, rest) = term(alloc, more)?;
            Ok((
                joined(alloc, Sign::Minus, Expr::Num(nought()), first)?,
                rest,
            ))
        }
        None => term(alloc, terminals),
    }
}

#[cycle(expr)]
fn term(alloc: Global, terminals: &[Terminal]) -> Result<(Expr, &[Terminal]), ParseErr>
    ensures reads { Reads (λ x. expr_tree x.0) (λ x. x.1.now) (IsTerm terminals.now) result }
    ensures shorter { IfOk result (λ x. length x.1.now < length terminals.now) }
{
    let (mut product, mut rest) = factor(alloc, terminals)?;
    'factors: while let Some(more) = after_operator(Operator::Star, rest) {
        let (next, after) = factor(alloc, more)?;
        product = Expr::Mul(Box::new(alloc, product)?, Box::new(alloc, next)?);
        rest = after;
    }
    Ok((product, rest))
}

#[cycle(expr)]
fn factor(alloc: Global, terminals: &[Terminal]) -> Result<(Expr, &[Terminal]), ParseErr>
    ensures reads { Reads (λ x. expr_tree x.0) (λ x. x.1.now) (IsFactor terminals.now) result }
    ensures shorter { IfOk result (λ x. length x.1.now < length terminals.now) }
{
    let (found, rest) = base(alloc, terminals)?;
    match exponent(rest)? {
        Some((power, after)) => Ok((Expr::Pow(Box::new(alloc, found)?, power), after)),
        None => Ok((found, rest)),
    }
}

#[cycle(expr)]
fn base(alloc: Global, terminals: &[Terminal]) -> Result<(Expr, &[Terminal]), ParseErr>
    ensures reads { Reads (λ x. expr_tree x.0) (λ x. x.1.now) (IsBase terminals.now) result }
    ensures shorter { IfOk result (λ x. length x.1.now < length terminals.now) }
{
    match opened(terminals) {
        Opening::Number(number, rest) => Ok((Expr::Num(number), rest)),
        Opening::Variable(variable, rest) => Ok((Expr::Var(known(variable)), rest)),
        Opening::Bracket(more) => {
            let (inner, rest) = expression(alloc, more)?;
            match after_symbol(Symbol::Close, rest) {
                Some(after) => Ok((inner, after)),
                None => Err(ParseErr::Form),
            }
        }
        Opening::Other => Err(ParseErr::Form),
    }
}

/// The expression that all of the terminals are.
pub fn whole_expression(alloc: Global, terminals: &[Terminal]) -> Result<Expr, ParseErr>
    ensures { ReadsAll expr_tree (Spells terminals.now) result }
{
    let (found, rest) = expression(alloc, terminals)?;
    if rest.is_empty() {
        Ok(found)
    } else {
        Err(ParseErr::Form)
    }
}
