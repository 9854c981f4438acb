//! Tokens, and why a text has none.
ghost use Rattle.std.specs.Prelude.{◌≡◌};
ghost use Rattle.vp_lex.specs.declared.token.LexErr.TheVariants.{Memory};

use std::alloc::{AllocError, AllocFailed};
use thiserror::Error;

/// The kind of a token. The spellings are in `docs/package.md`.
#[derive(Clone, Copy, Debug, PartialEq, Eq)]
pub enum TokenKind {
    /// A letter, then letters, digits and `_`, and no reserved word.
    Name,
    /// A name directly followed by `@`.
    Next,
    /// Digits, or digits with `/` or `.` and further digits directly behind.
    Number,
    /// A reserved word.
    Word,
    /// One of the symbols, of one byte or two.
    Symbol,
}

/// A token, which is a slice of its text: the bytes from the place `from` up to the place `to`,
/// which is the first behind it. Places are counted in bytes from the front of the text.
#[derive(Clone, Copy, Debug, PartialEq, Eq)]
pub struct Token {
    /// Its kind.
    pub kind: TokenKind,
    /// The place of the first byte.
    pub from: u32,
    /// The place behind the last byte.
    pub to: u32,
}

/// Why a text has no tokens.
#[derive(Clone, Copy, Debug, PartialEq, Eq, Error)]
pub enum LexErr {
    /// The byte at the place `at` is the first that is in no token, in no comment, and no space.
    #[error("the byte {at} is in no token")]
    Byte { at: u32 },
    /// There was too little memory for the tokens.
    #[error("out of memory")]
    Memory,
}

impl From<AllocError> for LexErr {
    ghost from_gives = { λ _ e. e ≡ Memory };

    fn from(_e: AllocError) -> LexErr {
        LexErr::Memory
    }
}

impl<T: Drop> From<AllocFailed<T>> for LexErr {
    ghost from_gives = { λ _ e. e ≡ Memory };

    fn from(_e: AllocFailed<T>) -> LexErr {
        LexErr::Memory
    }
}
