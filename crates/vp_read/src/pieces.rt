//! The pieces of a text.
ghost use Rattle.std.specs.Prelude.{◌≡◌, ◌≤◌, ◌<◌, ◌^◌, ◌∷◌, ℕ, List, drop, take, length, map, max, All, IfOk};
ghost use Rattle.vp_read.specs.Pieces.{cut, depth_behind, ends, first_deep, greatest_depth, is_deep, piece, items};

use std::alloc::{AllocError, Global};
use vp_grammar::{Symbol, Terminal};

// The numbers of the pieces of a package; from the last on they are certificates.
pub(crate) const HEADING: u32 = 1;

pub(crate) const PARAMS: u32 = 2;

pub(crate) const STATES: u32 = 3;

pub(crate) const CONTROLS: u32 = 4;

pub(crate) const INIT: u32 = 5;

pub(crate) const INV: u32 = 6;

pub(crate) const SAFE: u32 = 7;

pub(crate) const CTRL: u32 = 8;

pub(crate) const TIME: u32 = 9;

pub(crate) const FLOW: u32 = 10;

pub(crate) const SLACK: u32 = 11;

pub(crate) const DOMAIN: u32 = 12;

pub(crate) const FALLBACK: u32 = 13;

pub(crate) const FIRST_CERT: u32 = 14;

// The most terminals of a piece, and the most open brackets.
const MOST_TERMINALS: usize = 2048;

const MOST_OPEN: usize = 32;

// The bracket depth behind a terminal.
fn depth_behind(depth: usize, terminal: Terminal) -> usize
    requires { depth < 2 ^ 32 }
    ensures { result ≡ depth_behind depth terminal }
{
    match terminal {
        Terminal::Symbol(Symbol::Open | Symbol::SquareOpen | Symbol::BraceOpen) => depth + 1,
        Terminal::Symbol(Symbol::Close | Symbol::SquareClose | Symbol::BraceClose) => {
            depth.saturating_sub(1)
        }
        _ => depth,
    }
}

// Whether a terminal ends a piece.
fn ends(depth: usize, terminal: Terminal) -> bool
    ensures { result ≡ ends depth terminal }
{
    depth == 0 && matches!(terminal, Terminal::Symbol(Symbol::Semicolon))
}

// How many terminals the first piece has.
fn first_len(terminals: &[Terminal]) -> usize
    requires some { 0 < length terminals.now }
    requires few { length terminals.now ≤ 1048576 }
    ensures first { cut 0 terminals.now ≡ take result terminals.now ∷ cut 0 (drop result terminals.now) }
    ensures within { result ≤ length terminals.now }
    ensures positive { 0 < result }
{
    let mut depth = 0;
    for (i, terminal) in terminals.iter().enumerate() {
        if ends(depth, *terminal) {
            return i + 1;
        }
        depth = depth_behind(depth, *terminal);
    }
    terminals.len()
}

/// The pieces of the terminals of a text, one after another: each up to and with a `;` at bracket depth
/// 0, and what follows the last such `;` as a last one.
pub fn cut(alloc: Global, terminals: &[Terminal]) -> Result<Vec<Vec<Terminal>>, AllocError>
    requires { length terminals.now ≤ 1048576 }
    ensures pieces { IfOk result (λ v. map items v.items ≡ cut 0 terminals.now) }
    ensures short { IfOk result (λ v. All (λ p. length p.items ≤ length terminals.now) v.items) }
    ensures few { IfOk result (λ v. length v.items ≤ length terminals.now) }
{
    let mut found = Vec::new(alloc);
    let mut rest = terminals;
    'pieces: while !rest.is_empty() {
        let (first, behind) = rest.split_at(first_len(rest));
        let mut piece = Vec::new(alloc);
        piece.extend_from_slice(first)?;
        found.push(piece)?;
        rest = behind;
    }
    Ok(found)
}

// The greater of two numbers.
fn greater(a: usize, b: usize) -> usize
    ensures { result ≡ max a b }
{
    a.max(b)
}

// The greatest depth of a piece.
fn greatest_depth(terminals: &[Terminal]) -> usize
    requires { length terminals.now ≤ 1048576 }
    ensures { result ≡ greatest_depth 0 terminals.now }
{
    let mut depth = 0;
    let mut greatest = 0;
    for terminal in terminals {
        depth = depth_behind(depth, *terminal);
        greatest = greater(greatest, depth);
    }
    greatest
}

/// Whether a piece has more than 2,048 terminals or 32 open brackets.
pub(crate) fn is_deep(piece: &[Terminal]) -> bool
    requires { length piece.now ≤ 1048576 }
    ensures { result ≡ is_deep piece.now }
{
    piece.len() > MOST_TERMINALS || greatest_depth(piece) > MOST_OPEN
}

/// The number, from 1, of the first piece with more than 2,048 terminals or 32 open brackets.
pub fn first_deep(pieces: &[Vec<Terminal>]) -> Option<u32>
    requires few { length pieces.now ≤ 1048576 }
    requires short { All (λ v. length v.items ≤ 1048576) pieces.now }
    ensures { result ≡ first_deep 1 (map items pieces.now) }
{
    for (i, piece) in pieces.iter().enumerate() {
        if is_deep(piece) {
            return Some(i as u32 + 1);
        }
    }
    None
}

/// The piece of a number, from 1; behind the last stand empty ones.
pub fn piece(pieces: &[Vec<Terminal>], number: usize) -> &[Terminal]
    requires { 0 < number }
    ensures { result.now ≡ piece (map items pieces.now) number }
{
    match pieces.get(number - 1) {
        Some(piece) => piece.as_slice(),
        None => &[],
    }
}
