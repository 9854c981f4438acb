//! Symbols and numbers by their bytes.
ghost use Rattle.std.specs.Prelude.{◌≡◌, MatchOption};
ghost use Rattle.std.specs.Str.{all_ascii_digits};
ghost use Rattle.vp_terms.specs.Number.{is_whole};
ghost use Rattle.vp_read.specs.Spelling.{symbol_text, operator_text, compare_text, SpellsMark, IsMark};
ghost use Rattle.vp_grammar.specs.declared.terminal.Symbol.{Symbol};
ghost use Rattle.vp_terms.specs.declared.formula.Cmp.{Cmp};
ghost use Rattle.vp_grammar.specs.declared.terminal.Operator.{Operator};

use vp_grammar::{Operator, Symbol, Terminal};
use vp_terms::Cmp;

// A symbol that is no operator and no comparison.
fn symbol_of(mark: &[u8]) -> Option<Symbol>
    ensures { MatchOption result ((s : Symbol) → mark.now ≡ symbol_text s → ⊥) (λ s. mark.now ≡ symbol_text s) }
{
    if mark == b";".as_slice() {
        Some(Symbol::Semicolon)
    } else if mark == b",".as_slice() {
        Some(Symbol::Comma)
    } else if mark == b"(".as_slice() {
        Some(Symbol::Open)
    } else if mark == b")".as_slice() {
        Some(Symbol::Close)
    } else if mark == b"[".as_slice() {
        Some(Symbol::SquareOpen)
    } else if mark == b"]".as_slice() {
        Some(Symbol::SquareClose)
    } else if mark == b"{".as_slice() {
        Some(Symbol::BraceOpen)
    } else if mark == b"}".as_slice() {
        Some(Symbol::BraceClose)
    } else if mark == b"++".as_slice() {
        Some(Symbol::Choice)
    } else if mark == b"'".as_slice() {
        Some(Symbol::Prime)
    } else if mark == b":=".as_slice() {
        Some(Symbol::Assign)
    } else if mark == b"?".as_slice() {
        Some(Symbol::Question)
    } else if mark == b"!".as_slice() {
        Some(Symbol::Bang)
    } else {
        None
    }
}

fn operator_of(mark: &[u8]) -> Option<Operator>
    ensures { MatchOption result ((o : Operator) → mark.now ≡ operator_text o → ⊥) (λ o. mark.now ≡ operator_text o) }
{
    if mark == b"+".as_slice() {
        Some(Operator::Plus)
    } else if mark == b"-".as_slice() {
        Some(Operator::Minus)
    } else if mark == b"*".as_slice() {
        Some(Operator::Star)
    } else if mark == b"^".as_slice() {
        Some(Operator::Caret)
    } else if mark == b"&".as_slice() {
        Some(Operator::Ampersand)
    } else if mark == b"|".as_slice() {
        Some(Operator::Bar)
    } else {
        None
    }
}

fn comparison_of(mark: &[u8]) -> Cmp
    requires { (c : Cmp) × (mark.now ≡ compare_text c) }
    ensures { mark.now ≡ compare_text result }
{
    if mark == b"<=".as_slice() {
        Cmp::Le
    } else if mark == b"<".as_slice() {
        Cmp::Lt
    } else if mark == b">=".as_slice() {
        Cmp::Ge
    } else if mark == b">".as_slice() {
        Cmp::Gt
    } else if mark == b"=".as_slice() {
        Cmp::Eq
    } else {
        Cmp::Ne
    }
}

/// The symbol of these bytes.
pub(crate) fn mark_of(mark: &[u8]) -> Terminal
    requires { IsMark mark.now }
    ensures { SpellsMark mark.now result }
{
    if let Some(symbol) = symbol_of(mark) {
        return Terminal::Symbol(symbol);
    }
    match operator_of(mark) {
        Some(operator) => Terminal::Operator(operator),
        None => Terminal::Compare(comparison_of(mark)),
    }
}

// Whether each byte is a digit.
fn are_digits(text: &[u8]) -> bool
    ensures { result ≡ all_ascii_digits text.now }
{
    for byte in text {
        if !byte.is_ascii_digit() {
            return false;
        }
    }
    true
}

/// Whether the text is digits alone, one or more.
pub(crate) fn is_whole(text: &[u8]) -> bool
    ensures { result ≡ is_whole text.now }
{
    !text.is_empty() && are_digits(text)
}
