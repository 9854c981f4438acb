//! Formulas from terminals.
ghost use Rattle.std.specs.Prelude.{◌≡◌, ◌<◌, length, IfOk};
ghost use Rattle.vp_terms.specs.Tree.{formula_tree};
ghost use Rattle.vp_grammar.specs.Reads.{Reads, ReadsAll};
ghost use Rattle.vp_grammar.specs.FormulaReads.{IsDisjunction, IsConjunction, IsLit, IsBareLit, IsGroup, IsComparison, SpellsFormula, SpellsFormulaPiece};

use crate::expression::expression;
use crate::fault::ParseErr;
use crate::front::{after_operator, after_symbol, after_word, is_only, precedence_of};
use crate::leading::{Leading, after_cmp, leads};
use crate::terminal::{Operator, Symbol, Terminal};
use std::alloc::Global;
use vp_lex::ReservedWord;
use vp_terms::Formula;

#[cycle(formula)]
pub(crate) fn disjunction(
    alloc: Global,
    terminals: &[Terminal],
) -> Result<(Formula, &[Terminal]), ParseErr>
    ensures reads { Reads (λ x. formula_tree x.0) (λ x. x.1.now) (IsDisjunction terminals.now) result }
    ensures shorter { IfOk result (λ x. length x.1.now < length terminals.now) }
{
    let (mut formula, mut rest) = conjunction(alloc, terminals)?;
    'ors: while let Some(more) = after_operator(Operator::Bar, rest) {
        let (next, after) = conjunction(alloc, more)?;
        formula = Formula::Or(Box::new(alloc, formula)?, Box::new(alloc, next)?);
        rest = after;
    }
    Ok((formula, rest))
}

#[cycle(formula)]
fn conjunction(alloc: Global, terminals: &[Terminal]) -> Result<(Formula, &[Terminal]), ParseErr>
    ensures reads { Reads (λ x. formula_tree x.0) (λ x. x.1.now) (IsConjunction terminals.now) result }
    ensures shorter { IfOk result (λ x. length x.1.now < length terminals.now) }
{
    let (mut formula, mut rest) = literal(alloc, terminals)?;
    'ands: while let Some(more) = after_operator(Operator::Ampersand, rest) {
        let (next, after) = literal(alloc, more)?;
        formula = Formula::And(Box::new(alloc, formula)?, Box::new(alloc, next)?);
        rest = after;
    }
    Ok((formula, rest))
}

#[cycle(formula)]
fn literal(alloc: Global, terminals: &[Terminal]) -> Result<(Formula, &[Terminal]), ParseErr>
    ensures reads { Reads (λ x. formula_tree x.0) (λ x. x.1.now) (IsLit terminals.now) result }
    ensures shorter { IfOk result (λ x. length x.1.now < length terminals.now) }
{
    let (found, rest) = bare_literal(alloc, terminals)?;
    if precedence_of(rest) < 3 {
        Ok((found, rest))
    } else {
        Err(ParseErr::Form)
    }
}

#[cycle(formula)]
fn bare_literal(alloc: Global, terminals: &[Terminal]) -> Result<(Formula, &[Terminal]), ParseErr>
    ensures reads { Reads (λ x. formula_tree x.0) (λ x. x.1.now) (IsBareLit terminals.now) result }
    ensures shorter { IfOk result (λ x. length x.1.now < length terminals.now) }
{
    match leads(terminals) {
        Leading::True(rest) => Ok((Formula::True, rest)),
        Leading::False(rest) => Ok((Formula::Not(Box::new(alloc, Formula::True)?), rest)),
        Leading::Group(more) => group(alloc, more),
        Leading::NotGroup(more) => {
            let (inner, rest) = group(alloc, more)?;
            Ok((Formula::Not(Box::new(alloc, inner)?), rest))
        }
        Leading::Other => comparison(alloc, terminals),
    }
}

/// A formula and the `]` behind it.
#[cycle(formula)]
pub(crate) fn group(
    alloc: Global,
    terminals: &[Terminal],
) -> Result<(Formula, &[Terminal]), ParseErr>
    ensures reads { Reads (λ x. formula_tree x.0) (λ x. x.1.now) (IsGroup terminals.now) result }
    ensures shorter { IfOk result (λ x. length x.1.now < length terminals.now) }
{
    let (inner, rest) = disjunction(alloc, terminals)?;
    match after_symbol(Symbol::SquareClose, rest) {
        Some(after) => Ok((inner, after)),
        None => Err(ParseErr::Form),
    }
}

fn comparison(alloc: Global, terminals: &[Terminal]) -> Result<(Formula, &[Terminal]), ParseErr>
    ensures reads { Reads (λ x. formula_tree x.0) (λ x. x.1.now) (IsComparison terminals.now) result }
    ensures shorter { IfOk result (λ x. length x.1.now < length terminals.now) }
{
    let (left, rest) = expression(alloc, terminals)?;
    match after_cmp(rest) {
        Some((cmp, more)) => {
            let (right, after) = expression(alloc, more)?;
            Ok((Formula::Cmp(cmp, left, right), after))
        }
        None => Err(ParseErr::Form),
    }
}

/// The formula that all of the terminals are.
pub fn whole_formula(alloc: Global, terminals: &[Terminal]) -> Result<Formula, ParseErr>
    ensures { ReadsAll formula_tree (SpellsFormula terminals.now) result }
{
    let (found, rest) = disjunction(alloc, terminals)?;
    if rest.is_empty() {
        Ok(found)
    } else {
        Err(ParseErr::Form)
    }
}

/// The formula of a piece: this word, a formula, and `;`.
pub fn formula_piece(
    alloc: Global,
    word: ReservedWord,
    terminals: &[Terminal],
) -> Result<Formula, ParseErr>
    ensures { ReadsAll formula_tree (SpellsFormulaPiece word terminals.now) result }
{
    match after_word(word, terminals) {
        Some(more) => {
            let (found, rest) = disjunction(alloc, more)?;
            if is_only(Symbol::Semicolon, rest) {
                Ok(found)
            } else {
                Err(ParseErr::Form)
            }
        }
        None => Err(ParseErr::Form),
    }
}
