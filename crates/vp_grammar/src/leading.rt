//! What a literal begins with.
ghost use Rattle.std.specs.Prelude.{◌≡◌, ◌∷◌, MatchOption, List};
ghost use Rattle.vp_grammar.specs.FormulaReads.{IsLeading};
ghost use Rattle.vp_grammar.specs.declared.terminal.Terminal.{Terminal};
ghost use Rattle.vp_grammar.specs.declared.terminal.Terminal.TheVariants.{Compare};
ghost use Rattle.vp_terms.specs.declared.formula.Cmp.{Cmp};

use crate::front::{after_symbol, first};
use crate::terminal::{Symbol, Terminal};
use vp_lex::ReservedWord;
use vp_terms::Cmp;

/// What a literal begins with, and what follows.
#[derive(Clone, Copy, Debug)]
pub(crate) enum Leading<'a> {
    True(&'a [Terminal]),
    False(&'a [Terminal]),
    Group(&'a [Terminal]),
    NotGroup(&'a [Terminal]),
    Other,
}

/// The comparison in front, and what follows it.
pub(crate) fn after_cmp(terminals: &[Terminal]) -> Option<(Cmp, &[Terminal])>
    ensures { MatchOption result ((c : Cmp) (s : List Terminal) → terminals.now ≡ Compare c ∷ s → ⊥) (λ x. terminals.now ≡ Compare x.0 ∷ x.1.now) }
{
    match first(terminals) {
        Some((Terminal::Compare(cmp), rest)) => Some((cmp, rest)),
        _ => None,
    }
}

/// What a literal begins with.
pub(crate) fn leads(terminals: &[Terminal]) -> Leading<'_>
    ensures { IsLeading terminals.now result }
{
    match first(terminals) {
        Some((Terminal::Word(ReservedWord::True), rest)) => Leading::True(rest),
        Some((Terminal::Word(ReservedWord::False), rest)) => Leading::False(rest),
        Some((Terminal::Symbol(Symbol::SquareOpen), rest)) => Leading::Group(rest),
        Some((Terminal::Symbol(Symbol::Bang), rest)) => match after_symbol(
            Symbol::SquareOpen,
            rest,
        ) {
            Some(more) => Leading::NotGroup(more),
            None => Leading::Other,
        },
        _ => Leading::Other,
    }
}
