//! The tokens of a package's text: names, next names, numbers, reserved words and symbols, each as
//! long as possible, with spaces and comments between. The rules are in `docs/package.md`.
#![tactic(auto)]

mod byte;
pub mod laws;
mod scan;
mod token;
mod word;

pub use scan::tokens;
pub use token::{LexErr, Token, TokenKind};
pub use word::ReservedWord;
