//! The heading of a package.
ghost use Rattle.std.specs.Prelude.{Decides};
ghost use Rattle.vp_grammar.specs.Heading.{SpellsHeading};

use crate::front::{after_word, is_only, whole};
use crate::terminal::{Symbol, Terminal};
use vp_lex::ReservedWord;

/// Whether the terminals are `package`, a whole and `;`. What the whole is spelled like isn't said.
pub fn is_heading(terminals: &[Terminal]) -> bool
    ensures { Decides result (SpellsHeading terminals.now) }
{
    let Some(rest) = after_word(ReservedWord::Package, terminals) else {
        return false;
    };
    match whole(rest) {
        Some((_, rest)) => is_only(Symbol::Semicolon, rest),
        None => false,
    }
}
