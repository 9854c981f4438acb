//! The longest token at each place of a text, one after another.
ghost use Rattle.std.specs.Prelude.{◌≡◌, ◌≤◌, ◌<◌, length, slice_index, IsTrue, true, false, MatchOption, MatchResult, IfOk, IfSome, All, AllPairs, Ok};
ghost use Rattle.vp_lex.specs.Bytes.{is_letter, is_digit};
ghost use Rattle.vp_lex.specs.Tokens.{IsFound, IsLongest, HasNone, Tokenizes, Refuses};
ghost use Rattle.vp_lex.specs.declared.token.TokenKind.TheVariants.{Number, Symbol};

use crate::byte::{
    comment_end, digits_end, is_digit, is_letter, is_pair, is_space, is_symbol, word_len,
};
use crate::token::{LexErr, Token, TokenKind};
use crate::word::is_reserved;
use std::alloc::Global;

/// The token in front that begins with a letter.
fn wordlike(bytes: &[u8]) -> (TokenKind, usize)
    requires some { 0 < length bytes.now }
    requires letter { is_letter (slice_index bytes.now 0) ≡ true }
    ensures { IsLongest bytes.now result.0 result.1 }
{
    let end = word_len(bytes);
    if is_reserved(&bytes[..end]) {
        (TokenKind::Word, end)
    } else if end < bytes.len() && bytes[end] == b'@' {
        (TokenKind::Next, end + 1)
    } else {
        (TokenKind::Name, end)
    }
}

/// The number in front.
fn number(bytes: &[u8]) -> usize
    requires some { 0 < length bytes.now }
    requires digit { is_digit (slice_index bytes.now 0) ≡ true }
    ensures { IsLongest bytes.now Number result }
{
    let end = digits_end(bytes, 0);
    if end < bytes.len() && (bytes[end] == b'/' || bytes[end] == b'.') {
        let last = digits_end(bytes, end + 1);
        if end + 1 < last {
            return last;
        }
    }
    end
}

/// The symbol in front.
fn symbol(bytes: &[u8]) -> Option<usize>
    requires some { 0 < length bytes.now }
    requires letter { is_letter (slice_index bytes.now 0) ≡ false }
    requires digit { is_digit (slice_index bytes.now 0) ≡ false }
    ensures { MatchOption result (HasNone bytes.now) (λ n. IsLongest bytes.now Symbol n) }
{
    if bytes.len() > 1 && is_pair(bytes[0], bytes[1]) {
        Some(2)
    } else if is_symbol(bytes[0]) {
        Some(1)
    } else {
        None
    }
}

/// The token in front, as long as possible.
fn first_token(bytes: &[u8]) -> Option<(TokenKind, usize)>
    requires { 0 < length bytes.now }
    ensures found { IsFound bytes.now result }
    ensures within { IfSome result (λ x. (0 < x.1) × (x.1 ≤ length bytes.now)) }
{
    if is_letter(bytes[0]) {
        Some(wordlike(bytes))
    } else if is_digit(bytes[0]) {
        Some((TokenKind::Number, number(bytes)))
    } else {
        let len = symbol(bytes)?;
        Some((TokenKind::Symbol, len))
    }
}

/// The tokens of a text of at most 1,048,576 bytes, in order, each as long as possible. Spaces, tabs,
/// CR, LF and comments stand between them. `Byte` tells the first byte that is in no token, and
/// `Memory` that there was too little memory for the tokens. The rules are in `docs/package.md`.
pub fn tokens(alloc: Global, text: &[u8]) -> Result<Vec<Token>, LexErr>
    requires { length text.now ≤ 1048576 }
    ensures tokens { MatchResult result (λ v. Tokenizes text.now (Ok v.items)) (Refuses text.now) }
    ensures spans { IfOk result (λ v. All (λ t. (t.from < t.to) × (t.to ≤ length text.now)) v.items) }
    ensures in_order { IfOk result (λ v. AllPairs (λ t u. t.to ≤ u.from) v.items) }
{
    let mut found = Vec::new(alloc);
    let mut at = 0;
    'scan: while at < text.len() {
        if is_space(text[at]) {
            at += 1;
        } else if text[at] == b'#' {
            at = comment_end(text, at);
        } else {
            match first_token(&text[at..]) {
                Some((kind, len)) => {
                    let to = at + len;
                    found.push(Token {
                        kind,
                        from: at as u32,
                        to: to as u32,
                    })?;
                    at = to;
                }
                None => return Err(LexErr::Byte { at: at as u32 }),
            }
        }
    }
    Ok(found)
}
