//! Controllers from terminals.
ghost use Rattle.std.specs.Prelude.{◌≡◌, ◌<◌, ◌≤◌, length, IfOk};
ghost use Rattle.vp_terms.specs.Tree.{prog_tree};
ghost use Rattle.vp_grammar.specs.Reads.{Reads, ReadsAll};
ghost use Rattle.vp_grammar.specs.Controllers.{control_of, IsChoice, IsBlock, AreStatements, AreSome, IsStatement, IsFreed, IsGiven, IsTest, IsElse, IsConditional, IsBeginning, SpellsChoice, SpellsController};

use crate::expression::expression;
use crate::fault::ParseErr;
use crate::formula::{disjunction, group};
use crate::front::{after_operator, after_symbol, after_word, first};
use crate::terminal::{Operator, Symbol, Terminal};
use std::alloc::Global;
use vp_lex::ReservedWord;
use vp_terms::{Prog, Var};

/// What a statement begins with, and what follows.
#[derive(Clone, Copy, Debug)]
pub(crate) enum Beginning<'a> {
    /// A name, `:=` and `*`.
    Freeing(Option<Var>, &'a [Terminal]),
    /// A name and `:=`.
    Giving(Option<Var>, &'a [Terminal]),
    /// `?`
    Testing(&'a [Terminal]),
    /// `if` and `[`.
    Branching(&'a [Terminal]),
    Other,
}

/// What a statement begins with.
fn begins(terminals: &[Terminal]) -> Beginning<'_>
    ensures { IsBeginning terminals.now result }
{
    match first(terminals) {
        Some((Terminal::Name(_, variable), rest)) => match after_symbol(Symbol::Assign, rest) {
            Some(more) => match after_operator(Operator::Star, more) {
                Some(after) => Beginning::Freeing(variable, after),
                None => Beginning::Giving(variable, more),
            },
            None => Beginning::Other,
        },
        Some((Terminal::Symbol(Symbol::Question), rest)) => Beginning::Testing(rest),
        Some((Terminal::Word(ReservedWord::If), rest)) => match after_symbol(
            Symbol::SquareOpen,
            rest,
        ) {
            Some(more) => Beginning::Branching(more),
            None => Beginning::Other,
        },
        _ => Beginning::Other,
    }
}

/// The number of a control; 0 for a name of anything else, which is refused later.
fn control_of(variable: Option<Var>) -> u32
    ensures { result ≡ control_of variable }
{
    match variable {
        Some(Var::Control(control)) => control,
        _ => 0,
    }
}

/// Any value for the control, up to the `;` and with it.
fn freed(control: u32, terminals: &[Terminal]) -> Result<(Prog, &[Terminal]), ParseErr>
    ensures reads { Reads (λ x. prog_tree x.0) (λ x. x.1.now) (IsFreed control terminals.now) result }
    ensures shorter { IfOk result (λ x. length x.1.now < length terminals.now) }
{
    match after_symbol(Symbol::Semicolon, terminals) {
        Some(rest) => Ok((Prog::Any(control), rest)),
        None => Err(ParseErr::Form),
    }
}

/// The value for the control, up to the `;` and with it.
fn given(
    alloc: Global,
    control: u32,
    terminals: &[Terminal],
) -> Result<(Prog, &[Terminal]), ParseErr>
    ensures reads { Reads (λ x. prog_tree x.0) (λ x. x.1.now) (IsGiven control terminals.now) result }
    ensures shorter { IfOk result (λ x. length x.1.now < length terminals.now) }
{
    let (value, rest) = expression(alloc, terminals)?;
    match after_symbol(Symbol::Semicolon, rest) {
        Some(after) => Ok((Prog::Assign(control, value), after)),
        None => Err(ParseErr::Form),
    }
}

/// A test, up to the `;` and with it.
fn test(alloc: Global, terminals: &[Terminal]) -> Result<(Prog, &[Terminal]), ParseErr>
    ensures reads { Reads (λ x. prog_tree x.0) (λ x. x.1.now) (IsTest terminals.now) result }
    ensures shorter { IfOk result (λ x. length x.1.now < length terminals.now) }
{
    let (formula, rest) = disjunction(alloc, terminals)?;
    match after_symbol(Symbol::Semicolon, rest) {
        Some(after) => Ok((Prog::Test(formula), after)),
        None => Err(ParseErr::Form),
    }
}

/// The choice in front, and what follows it.
#[cycle(controller)]
fn choice(alloc: Global, terminals: &[Terminal]) -> Result<(Prog, &[Terminal]), ParseErr>
    ensures reads { Reads (λ x. prog_tree x.0) (λ x. x.1.now) (IsChoice terminals.now) result }
    ensures shorter { IfOk result (λ x. length x.1.now < length terminals.now) }
{
    let (one, rest) = block(alloc, terminals)?;
    match after_symbol(Symbol::Choice, rest) {
        Some(more) => {
            let (other, after) = choice(alloc, more)?;
            Ok((
                Prog::Choice(Box::new(alloc, one)?, Box::new(alloc, other)?),
                after,
            ))
        }
        None => Ok((one, rest)),
    }
}

/// The block in front, and what follows it.
#[cycle(controller)]
fn block(alloc: Global, terminals: &[Terminal]) -> Result<(Prog, &[Terminal]), ParseErr>
    ensures reads { Reads (λ x. prog_tree x.0) (λ x. x.1.now) (IsBlock terminals.now) result }
    ensures shorter { IfOk result (λ x. length x.1.now < length terminals.now) }
{
    match after_symbol(Symbol::BraceOpen, terminals) {
        Some(more) => statements(alloc, more),
        None => Err(ParseErr::Form),
    }
}

/// Statements up to the `}` and with it.
#[cycle(controller)]
fn statements(alloc: Global, terminals: &[Terminal]) -> Result<(Prog, &[Terminal]), ParseErr>
    ensures reads { Reads (λ x. prog_tree x.0) (λ x. x.1.now) (AreStatements terminals.now) result }
    ensures shorter { IfOk result (λ x. length x.1.now < length terminals.now) }
{
    match after_symbol(Symbol::BraceClose, terminals) {
        Some(rest) => Ok((Prog::Skip, rest)),
        None => some_statements(alloc, terminals),
    }
}

/// One statement at least, up to the `}` and with it.
#[cycle(controller)]
fn some_statements(alloc: Global, terminals: &[Terminal]) -> Result<(Prog, &[Terminal]), ParseErr>
    ensures reads { Reads (λ x. prog_tree x.0) (λ x. x.1.now) (AreSome terminals.now) result }
    ensures shorter { IfOk result (λ x. length x.1.now < length terminals.now) }
{
    let (one, rest) = statement(alloc, terminals)?;
    match after_symbol(Symbol::BraceClose, rest) {
        Some(after) => Ok((one, after)),
        None => {
            let (others, after) = some_statements(alloc, rest)?;
            Ok((
                Prog::Seq(Box::new(alloc, one)?, Box::new(alloc, others)?),
                after,
            ))
        }
    }
}

/// The statement in front, and what follows it.
#[cycle(controller)]
fn statement(alloc: Global, terminals: &[Terminal]) -> Result<(Prog, &[Terminal]), ParseErr>
    ensures reads { Reads (λ x. prog_tree x.0) (λ x. x.1.now) (IsStatement terminals.now) result }
    ensures shorter { IfOk result (λ x. length x.1.now < length terminals.now) }
{
    match begins(terminals) {
        Beginning::Freeing(variable, rest) => freed(control_of(variable), rest),
        Beginning::Giving(variable, rest) => given(alloc, control_of(variable), rest),
        Beginning::Testing(rest) => test(alloc, rest),
        Beginning::Branching(rest) => conditional(alloc, rest),
        Beginning::Other => choice(alloc, terminals),
    }
}

/// A condition, the `]` behind it, a block, and maybe an `else` with another.
#[cycle(controller)]
fn conditional(alloc: Global, terminals: &[Terminal]) -> Result<(Prog, &[Terminal]), ParseErr>
    ensures reads { Reads (λ x. prog_tree x.0) (λ x. x.1.now) (IsConditional terminals.now) result }
    ensures shorter { IfOk result (λ x. length x.1.now < length terminals.now) }
{
    let (formula, rest) = group(alloc, terminals)?;
    let (yes, more) = block(alloc, rest)?;
    let (no, after) = otherwise(alloc, more)?;
    Ok((
        Prog::If(formula, Box::new(alloc, yes)?, Box::new(alloc, no)?),
        after,
    ))
}

/// The block behind an `else`; without an `else` nothing changes.
#[cycle(controller)]
fn otherwise(alloc: Global, terminals: &[Terminal]) -> Result<(Prog, &[Terminal]), ParseErr>
    ensures reads { Reads (λ x. prog_tree x.0) (λ x. x.1.now) (IsElse terminals.now) result }
    ensures no_longer { IfOk result (λ x. length x.1.now ≤ length terminals.now) }
{
    match after_word(ReservedWord::Else, terminals) {
        Some(more) => block(alloc, more),
        None => Ok((Prog::Skip, terminals)),
    }
}

/// A choice and `;`, which all of the terminals are.
fn whole_choice(alloc: Global, terminals: &[Terminal]) -> Result<Prog, ParseErr>
    ensures { ReadsAll prog_tree (SpellsChoice terminals.now) result }
{
    let (found, rest) = choice(alloc, terminals)?;
    match after_symbol(Symbol::Semicolon, rest) {
        Some(after) if after.is_empty() => Ok(found),
        _ => Err(ParseErr::Form),
    }
}

/// The controller that all of the terminals are.
pub fn whole_controller(alloc: Global, terminals: &[Terminal]) -> Result<Prog, ParseErr>
    ensures { ReadsAll prog_tree (SpellsController terminals.now) result }
{
    match after_word(ReservedWord::Ctrl, terminals) {
        Some(rest) => whole_choice(alloc, rest),
        None => Err(ParseErr::Form),
    }
}
