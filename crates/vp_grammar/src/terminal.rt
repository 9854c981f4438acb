//! Terminals: what the tokens of a package's text stand for in the grammar.
use vp_lex::ReservedWord;
use vp_terms::{Cmp, Ratio, Var};

/// Where a token stands in its text: from the byte `from` up to the byte `to`, which is the first
/// behind it, counted in bytes from 0.
#[derive(Clone, Copy, Debug, PartialEq, Eq)]
pub struct Span {
    /// The place of the first byte.
    pub from: u32,
    /// The place behind the last byte.
    pub to: u32,
}

/// A symbol that is no operator and no comparison.
#[derive(Clone, Copy, Debug, PartialEq, Eq)]
pub enum Symbol {
    /// `;`
    Semicolon,
    /// `,`
    Comma,
    /// `(`
    Open,
    /// `)`
    Close,
    /// `[`
    SquareOpen,
    /// `]`
    SquareClose,
    /// `{`
    BraceOpen,
    /// `}`
    BraceClose,
    /// `++`
    Choice,
    /// `'`
    Prime,
    /// `:=`
    Assign,
    /// `?`
    Question,
    /// `!`
    Bang,
}

/// An operator between expressions or formulas.
#[derive(Clone, Copy, Debug, PartialEq, Eq)]
pub enum Operator {
    /// `+`
    Plus,
    /// `-`
    Minus,
    /// `*`
    Star,
    /// `^`
    Caret,
    /// `&`
    Ampersand,
    /// `|`
    Bar,
}

/// What a token stands for.
#[derive(Clone, Copy, Debug, PartialEq, Eq)]
pub enum Terminal {
    /// A reserved word but `tau`, which is a variable.
    Word(ReservedWord),
    /// A symbol that is no operator and no comparison.
    Symbol(Symbol),
    /// `+`, `-`, `*`, `^`, `&` or `|`
    Operator(Operator),
    /// `<=`, `<`, `>=`, `>`, `=` or `!=`
    Compare(Cmp),
    /// A number, and whether it is a whole: digits alone.
    Number(Ratio, bool),
    /// A name, with the variable that it names; none where it isn't declared.
    Name(Span, Option<Var>),
    /// A next name or `tau`, with its variable; none where the name isn't declared.
    Variable(Span, Option<Var>),
}
