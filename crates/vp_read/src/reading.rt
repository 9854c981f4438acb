//! Packages from their text.
ghost use Rattle.std.specs.Prelude.{◌≡◌, ◌≤◌, drop, length, map, All, IfOk};
ghost use Rattle.vp_terms.specs.Certificates.{IsCertificate};
ghost use Rattle.vp_terms.specs.WellFormed.{IsWellFormed};
ghost use Rattle.vp_lex.specs.Tokens.{IsToken};
ghost use Rattle.vp_read.specs.Pieces.{items};
ghost use Rattle.vp_read.specs.Naming.{AreFew, StandsIn};
ghost use Rattle.vp_read.specs.Sections.{known_pieces};
ghost use Rattle.vp_read.specs.Reading.{AreShort, Checks, Drafts, Reads, ReadsPieces};

use crate::counts::{name_again, wrong_entries};
use crate::fault::ReadErr;
use crate::laws::packages_are_well_formed;
use crate::naming::{Scope, known_terminals, string_of};
use crate::pieces::{CONTROLS, cut, first_deep};
use crate::sections::{body, head};
use crate::strays::first_stray_from;
use crate::terminals::terminals;
use std::alloc::{AllocError, Global};
use vp_grammar::Terminal;
use vp_lex::{Token, tokens};
use vp_terms::{NameText, Names, Package};

// The most variables of a model.
const MOST_VARIABLES: u32 = 32;

/// The tokens and the pieces of a text of at most 1,048,576 bytes, of whatever grammar. The first that
/// holds of `Lex`, `Number` and `Deep` is told, or `Memory`.
pub fn read_pieces(alloc: Global, text: &[u8]) -> Result<(Vec<Token>, Vec<Vec<Terminal>>), ReadErr>
    requires { length text.now ≤ 1048576 }
    ensures reads { ReadsPieces text.now result }
    ensures tokens { IfOk result (λ x. All (λ t. IsToken text.now t) x.0.items) }
    ensures within { IfOk result (λ x. All (λ v. All (StandsIn text.now) v.items) x.1.items) }
    ensures few { IfOk result (λ x. length x.1.items ≤ 1048576) }
    ensures short { IfOk result (λ x. All (λ v. length v.items ≤ 1048576) x.1.items) }
{
    let tokens = tokens(alloc, text)?;
    let terminals = terminals(alloc, text, &tokens)?;
    let pieces = cut(alloc, &terminals)?;
    match first_deep(&pieces) {
        Some(piece) => Err(ReadErr::Deep { piece }),
        None => Ok((tokens, pieces)),
    }
}

/// The pieces of a text with the variables that their names name. Each list has at most 1,048,576 names.
pub fn known_pieces(
    alloc: Global,
    text: &[u8],
    names: &Names,
    pieces: &[Vec<Terminal>],
) -> Result<Vec<Vec<Terminal>>, AllocError>
    requires few { AreFew names.now }
    requires within { All (λ v. All (StandsIn text.now) v.items) pieces.now }
    requires short { All (λ v. length v.items ≤ 1048576) pieces.now }
    ensures known { IfOk result (λ v. map items v.items ≡ known_pieces text.now names.now (map items pieces.now)) }
    ensures count { IfOk result (λ v. length v.items ≡ length pieces.now) }
    ensures within { IfOk result (λ v. All (λ p. All (StandsIn text.now) p.items) v.items) }
    ensures short { IfOk result (λ v. All (λ p. length p.items ≤ 1048576) v.items) }
{
    let scope = Scope::of(alloc, names)?;
    let mut known = Vec::new(alloc);
    for piece in pieces {
        known.push(known_terminals(alloc, text, &scope, piece)?)?;
    }
    Ok(known)
}

// The package that a text is by the grammar, and its pieces whose names have their variables.
fn draft(alloc: Global, text: &[u8]) -> Result<(Package, Vec<Vec<Terminal>>), ReadErr>
    requires { length text.now ≤ 1048576 }
    ensures drafts { Drafts text.now result }
    ensures names { IfOk result (λ x. AreFew x.0.names) }
    ensures entries { IfOk result (λ x. AreShort x.0) }
    ensures within { IfOk result (λ x. All (λ v. All (StandsIn text.now) v.items) x.1.items) }
    ensures few { IfOk result (λ x. length x.1.items ≤ 1048576) }
    ensures short { IfOk result (λ x. All (λ v. length v.items ≤ 1048576) x.1.items) }
{
    let (tokens, pieces) = read_pieces(alloc, text)?;
    let names = head(alloc, text, &tokens, &pieces)?;
    let known = known_pieces(alloc, text, &names, &pieces)?;
    let pkg = body(alloc, names, &known)?;
    Ok((pkg, known))
}

// The pieces from the fifth on.
fn from_fifth(pieces: &[Vec<Terminal>]) -> &[Vec<Terminal>]
    ensures { result.now ≡ drop CONTROLS pieces.now }
{
    match pieces.get(CONTROLS as usize..) {
        Some(behind) => behind,
        None => &[],
    }
}

// Whether nothing refuses a package by its names and entries.
fn check(alloc: Global, text: &[u8], pkg: &Package, known: &[Vec<Terminal>]) -> Result<(), ReadErr>
    requires names { AreFew pkg.now.names }
    requires entries { AreShort pkg.now }
    requires within { All (λ v. All (StandsIn text.now) v.items) known.now }
    requires few { length known.now ≤ 1048576 }
    requires short { All (λ v. length v.items ≤ 1048576) known.now }
    ensures { Checks text.now pkg.now (map items known.now) result }
{
    let places = pkg.names.places();
    let count = places.count();
    if count > MOST_VARIABLES {
        return Err(ReadErr::Names { count });
    }
    if let Some(name) = name_again(&pkg.names) {
        return Err(ReadErr::Twice {
            name: NameText::of(name.to_string(alloc)?),
        });
    }
    if let Some((piece, count)) = wrong_entries(pkg) {
        return Err(ReadErr::Entries { piece, count });
    }
    match first_stray_from(places, from_fifth(known)) {
        Some((span, piece)) => Err(ReadErr::Undeclared {
            name: NameText::of(string_of(alloc, text, span)?),
            piece,
        }),
        None => Ok(()),
    }
}

/// Reads a text of at most 1,048,576 bytes as a package, or tells the first condition that refuses it.
/// The grammar, the conditions and their order are in `docs/package.md`.
pub fn read_package(alloc: Global, text: &[u8]) -> Result<Package, ReadErr>
    requires { length text.now ≤ 1048576 }
    ensures exact { Reads text.now result }
    ensures well_formed { IfOk result IsWellFormed }
    ensures certificates { IfOk result (λ pkg. All IsCertificate pkg.certs) }
{
    packages_are_well_formed();
    let (pkg, known) = draft(alloc, text)?;
    check(alloc, text, &pkg, &known)?;
    Ok(pkg)
}
