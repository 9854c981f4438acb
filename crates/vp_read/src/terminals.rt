//! What the tokens of a text stand for.
ghost use Rattle.std.specs.Prelude.{◌≡◌, All, MatchOption};
ghost use Rattle.vp_lex.specs.declared.token.TokenKind.TheVariants as kind;
ghost use Rattle.vp_lex.specs.Tokens.{IsToken};
ghost use Rattle.vp_read.specs.Spelling.{AreTerminals, IsBadNumber, IsTerminal, IsFirstBad, GivesTerminals, span_of, token_text};

use crate::fault::ReadErr;
use crate::spelling::{is_whole, mark_of};
use std::alloc::Global;
use vp_grammar::{Span, Terminal};
use vp_lex::{ReservedWord, Token, TokenKind};
use vp_terms::{Ratio, Var};

// Where a token stands.
fn span_of(token: Token) -> Span
    ensures { result ≡ span_of token }
{
    Span {
        from: token.from,
        to: token.to,
    }
}

/// The bytes of a token.
pub(crate) fn token_text(text: &[u8], token: Token) -> &[u8]
    requires { IsToken text.now token }
    ensures { result.now ≡ token_text text.now token }
{
    &text[token.from as usize..token.to as usize]
}

// What a reserved word stands for.
fn word_terminal(text: &[u8], token: Token) -> Terminal
    requires token { IsToken text.now token }
    requires kind { token.kind ≡ kind.Word }
    ensures { IsTerminal text.now token result }
{
    match ReservedWord::of(token_text(text, token)) {
        Some(ReservedWord::Tau) => Terminal::Variable(span_of(token), Some(Var::Tau)),
        Some(word) => Terminal::Word(word),
        // A token of this kind is a reserved word.
        None => unreachable!(),
    }
}

// What a symbol stands for.
fn symbol_terminal(text: &[u8], token: Token) -> Terminal
    requires token { IsToken text.now token }
    requires kind { token.kind ≡ kind.Symbol }
    ensures { IsTerminal text.now token result }
{
    mark_of(token_text(text, token))
}

// What a number stands for. None exactly where it is refused.
fn number_terminal(text: &[u8], token: Token) -> Option<Terminal>
    requires token { IsToken text.now token }
    requires kind { token.kind ≡ kind.Number }
    ensures { MatchOption result (IsBadNumber text.now token) (IsTerminal text.now token) }
{
    let number = token_text(text, token);
    let value = Ratio::of_text(number)?;
    Some(Terminal::Number(value, is_whole(number)))
}

// What a token stands for. None exactly where it is a number that is refused.
fn terminal_of(text: &[u8], token: Token) -> Option<Terminal>
    requires { IsToken text.now token }
    ensures { MatchOption result (IsBadNumber text.now token) (λ t. IsTerminal text.now token t × (IsBadNumber text.now token → ⊥)) }
{
    match token.kind {
        TokenKind::Name => Some(Terminal::Name(span_of(token), None)),
        TokenKind::Next => Some(Terminal::Variable(span_of(token), None)),
        TokenKind::Number => number_terminal(text, token),
        TokenKind::Word => Some(word_terminal(text, token)),
        TokenKind::Symbol => Some(symbol_terminal(text, token)),
    }
}

/// What the tokens of a text stand for, one after another, or where the first refused number begins.
pub(crate) fn terminals(
    alloc: Global,
    text: &[u8],
    tokens: &[Token],
) -> Result<Vec<Terminal>, ReadErr>
    requires { All (λ t. IsToken text.now t) tokens.now }
    ensures { GivesTerminals text.now tokens.now result }
{
    let mut found = Vec::new(alloc);
    for token in tokens {
        match terminal_of(text, *token) {
            Some(terminal) => found.push(terminal)?,
            None => return Err(ReadErr::Number { at: token.from }),
        }
    }
    Ok(found)
}
