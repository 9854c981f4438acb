//! What stands in front.
ghost use Rattle.std.specs.Prelude.{◌≡◌, ℕ, List, [], ◌∷◌, Decides, MatchOption, unsigned_abs};
ghost use Rattle.vp_grammar.specs.Grammar.{precedence};
ghost use Rattle.vp_grammar.specs.Front.{NotBegins, sign_terminal, IsOpening, IsWholeFront, HasExponent, Exponent};
ghost use Rattle.vp_grammar.specs.declared.terminal.Terminal.TheVariants as terminal;
ghost use Rattle.vp_grammar.specs.declared.terminal.Terminal.{Terminal};

use crate::fault::ParseErr;
use crate::terminal::{Operator, Symbol, Terminal};
use vp_lex::ReservedWord;
use vp_terms::{Ratio, Var};

const LARGEST_EXPONENT: u64 = 12;

/// A sign between terms.
#[derive(Clone, Copy, Debug)]
pub(crate) enum Sign {
    Plus,
    Minus,
}

/// What a base begins with.
#[derive(Clone, Copy, Debug)]
pub(crate) enum Opening<'a> {
    Number(Ratio, &'a [Terminal]),
    Variable(Option<Var>, &'a [Terminal]),
    Bracket(&'a [Terminal]),
    Other,
}

/// The first terminal, and those behind it.
pub(crate) fn first(terminals: &[Terminal]) -> Option<(Terminal, &[Terminal])>
    ensures { MatchOption result (terminals.now ≡ []) (λ x. terminals.now ≡ x.0 ∷ x.1.now) }
{
    match terminals {
        [first, rest @ ..] => Some((*first, rest)),
        [] => None,
    }
}

/// What follows this word in front.
pub(crate) fn after_word(word: ReservedWord, terminals: &[Terminal]) -> Option<&[Terminal]>
    ensures { MatchOption result (NotBegins (terminal.Word word) terminals.now) (λ rest. terminals.now ≡ terminal.Word word ∷ rest.now) }
{
    match first(terminals) {
        Some((Terminal::Word(found), rest)) if found == word => Some(rest),
        _ => None,
    }
}

/// What follows this symbol in front.
pub(crate) fn after_symbol(symbol: Symbol, terminals: &[Terminal]) -> Option<&[Terminal]>
    ensures { MatchOption result (NotBegins (terminal.Symbol symbol) terminals.now) (λ rest. terminals.now ≡ terminal.Symbol symbol ∷ rest.now) }
{
    match first(terminals) {
        Some((Terminal::Symbol(found), rest)) if found == symbol => Some(rest),
        _ => None,
    }
}

/// Whether this symbol stands there alone.
pub(crate) fn is_only(symbol: Symbol, terminals: &[Terminal]) -> bool
    ensures { Decides result (terminals.now ≡ terminal.Symbol symbol ∷ []) }
{
    match after_symbol(symbol, terminals) {
        Some(rest) => rest.is_empty(),
        None => false,
    }
}

/// What follows this operator in front.
pub(crate) fn after_operator(operator: Operator, terminals: &[Terminal]) -> Option<&[Terminal]>
    ensures { MatchOption result (NotBegins (terminal.Operator operator) terminals.now) (λ rest. terminals.now ≡ terminal.Operator operator ∷ rest.now) }
{
    match first(terminals) {
        Some((Terminal::Operator(found), rest)) if found == operator => Some(rest),
        _ => None,
    }
}

/// How tightly the operator in front binds, and 0 where there is none.
pub(crate) fn precedence_of(terminals: &[Terminal]) -> u8
    ensures { result ≡ precedence terminals.now }
{
    match first(terminals) {
        Some((Terminal::Operator(operator), _)) => match operator {
            Operator::Caret => 5,
            Operator::Star => 4,
            Operator::Plus | Operator::Minus => 3,
            Operator::Ampersand => 2,
            Operator::Bar => 1,
        },
        _ => 0,
    }
}

/// The sign in front, and what follows it.
pub(crate) fn after_sign(terminals: &[Terminal]) -> Option<(Sign, &[Terminal])>
    ensures { MatchOption result (precedence terminals.now ≡ 3 → ⊥) (λ x. terminals.now ≡ sign_terminal x.0 ∷ x.1.now) }
{
    match first(terminals) {
        Some((Terminal::Operator(Operator::Plus), rest)) => Some((Sign::Plus, rest)),
        Some((Terminal::Operator(Operator::Minus), rest)) => Some((Sign::Minus, rest)),
        _ => None,
    }
}

/// What a base begins with.
pub(crate) fn opened(terminals: &[Terminal]) -> Opening<'_>
    ensures { IsOpening terminals.now result }
{
    match first(terminals) {
        Some((Terminal::Number(number, _), rest)) => Opening::Number(number, rest),
        Some((Terminal::Name(_, variable), rest)) => Opening::Variable(variable, rest),
        Some((Terminal::Variable(_, variable), rest)) => Opening::Variable(variable, rest),
        Some((Terminal::Symbol(Symbol::Open), rest)) => Opening::Bracket(rest),
        _ => Opening::Other,
    }
}

/// The size of a fraction's numerator, which is below 2^62.
fn numerator(number: Ratio) -> u64
    ensures { result ≡ unsigned_abs number.num }
{
    number.num.unsigned_abs() as u64
}

/// The whole in front, below 2^62, and what follows it.
pub(crate) fn whole(terminals: &[Terminal]) -> Option<(u64, &[Terminal])>
    ensures { MatchOption result ((n : ℕ) (rest : List Terminal) → IsWholeFront terminals.now n rest → ⊥) (λ x. IsWholeFront terminals.now x.0 x.1.now) }
{
    match first(terminals) {
        Some((Terminal::Number(number, true), rest)) => Some((numerator(number), rest)),
        _ => None,
    }
}

/// A whole of at most 12 in front, at which no further exponent follows.
fn exponent_of(terminals: &[Terminal]) -> Option<(u32, &[Terminal])>
    ensures { Exponent terminals.now result }
{
    let (number, rest) = whole(terminals)?;
    if number <= LARGEST_EXPONENT && precedence_of(rest) < 5 {
        Some((number as u32, rest))
    } else {
        None
    }
}

/// The exponent in front with its `^`, or `None` where there is no `^`.
pub(crate) fn exponent(terminals: &[Terminal]) -> Result<Option<(u32, &[Terminal])>, ParseErr>
    ensures { HasExponent terminals.now result }
{
    match after_operator(Operator::Caret, terminals) {
        Some(rest) => match exponent_of(rest) {
            Some((power, after)) => Ok(Some((power, after))),
            None => Err(ParseErr::Form),
        },
        None => Ok(None),
    }
}
