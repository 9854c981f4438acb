//! Variables that may not stand where they do.
ghost use Rattle.std.specs.Prelude.{◌≡◌, ◌≤◌, length, map, All};
ghost use Rattle.vp_grammar.specs.Strays.{first_stray};
ghost use Rattle.vp_read.specs.Naming.{StandsIn};
ghost use Rattle.vp_read.specs.Pieces.{items};
ghost use Rattle.vp_read.specs.Reading.{ChecksVariables, first_stray_from, rule_of};

use crate::fault::ReadErr;
use crate::naming::string_of;
use crate::pieces::{CTRL, DOMAIN, FALLBACK, FLOW, INIT, SAFE, SLACK, TIME};
use std::alloc::Global;
use vp_grammar::{Rule, Span, Terminal, first_stray};
use vp_terms::{Kinds, NameText, Places};

/// Whether each variable may stand in a piece by its rule, or `Undeclared` with the first that may not
/// and the piece's number.
pub fn check_variables(
    alloc: Global,
    text: &[u8],
    rule: Rule,
    places: Places,
    number: u32,
    piece: &[Terminal],
) -> Result<(), ReadErr>
    requires within { All (StandsIn text.now) piece.now }
    requires few { length piece.now ≤ 1048576 }
    ensures { ChecksVariables text.now rule places number piece.now result }
{
    match first_stray(rule, places, piece) {
        Some(span) => Err(ReadErr::Undeclared {
            name: NameText::of(string_of(alloc, text, span)?),
            piece: number,
        }),
        None => Ok(()),
    }
}

// What may stand in the piece of a package of a number, from 5 on.
fn rule_of(number: u32) -> Rule
    ensures { result ≡ rule_of number }
{
    match number {
        0..=SAFE => Rule::Plain(Kinds::MODEL),
        CTRL => Rule::Controller,
        TIME => Rule::Plain(Kinds::TIME),
        FLOW => Rule::Flow,
        SLACK => Rule::Slack,
        DOMAIN => Rule::Plain(Kinds::DOMAIN),
        FALLBACK => Rule::Fallback,
        _ => Rule::Plain(Kinds::CERTIFICATE),
    }
}

/// The first variable of the pieces of a package from the fifth on that may not stand there, with its
/// piece's number.
pub(crate) fn first_stray_from(places: Places, pieces: &[Vec<Terminal>]) -> Option<(Span, u32)>
    requires few { length pieces.now ≤ 1048576 }
    requires short { All (λ v. length v.items ≤ 1048576) pieces.now }
    ensures { result ≡ first_stray_from places INIT (map items pieces.now) }
{
    for (i, piece) in pieces.iter().enumerate() {
        let number = i as u32 + INIT;
        if let Some(span) = first_stray(rule_of(number), places, piece) {
            return Some((span, number));
        }
    }
    None
}
