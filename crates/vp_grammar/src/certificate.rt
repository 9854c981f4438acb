//! Certificates from terminals.
ghost use Rattle.std.specs.Prelude.{ℕ, ◌≡◌, ◌<◌, ◌≤◌, length, map, List, MatchOption, IfOk};
ghost use Rattle.std.specs.List.{list_all};
ghost use Rattle.vp_terms.specs.Tree.{expr_tree};
ghost use Rattle.vp_terms.specs.declared.package.Part.{Part};
ghost use Rattle.vp_grammar.specs.Reads.{Reads, ReadsAll};
ghost use Rattle.vp_grammar.specs.Certificates.{SpellsCert, is_no_fraction};
ghost use Rattle.vp_terms.specs.Packages.{term_tree, cert_tree};
ghost use Rattle.vp_grammar.specs.CertificateReads.{IsLabel, IsProduct, MaybeOf, IsBracketed, AreSquares, IsStrict, IsSum, IsEquation, IsLater, AreTerms, IsPart, IsHead};
ghost use Rattle.vp_grammar.specs.declared.terminal.Terminal.{Terminal};

use crate::expression::expression;
use crate::fault::ParseErr;
use crate::front::{after_operator, after_symbol, after_word, first, is_only, whole};
use crate::terminal::{Operator, Symbol, Terminal};
use std::alloc::Global;
use vp_lex::ReservedWord;
use vp_terms::{Cert, CertTerm, Expr, Items, Part};

/// The label in front, and what follows it; beyond 32 bits it is read as the greatest.
fn label(terminals: &[Terminal]) -> Option<(u32, &[Terminal])>
    ensures { MatchOption result ((n : ℕ) (rest : List Terminal) → IsLabel terminals.now n rest → ⊥) (λ x. IsLabel terminals.now x.0 x.1.now) }
{
    match whole(terminals) {
        Some((number, rest)) => Some((number.min(u32::MAX as u64) as u32, rest)),
        None => None,
    }
}

/// Labels with `*` between and their `;`, and what follows.
fn product(alloc: Global, terminals: &[Terminal]) -> Result<(Vec<u32>, &[Terminal]), ParseErr>
    ensures reads { Reads (λ x. x.0.items) (λ x. x.1.now) (IsProduct terminals.now) result }
    ensures shorter { IfOk result (λ x. length x.1.now < length terminals.now) }
{
    let Some((first, mut rest)) = label(terminals) else {
        return Err(ParseErr::Form);
    };
    let mut found = vec![in alloc; first]?;
    'labels: while let Some(more) = after_operator(Operator::Star, rest) {
        let Some((next, after)) = label(more) else {
            return Err(ParseErr::Form);
        };
        found.push(next)?;
        rest = after;
    }
    match after_symbol(Symbol::Semicolon, rest) {
        Some(after) => Ok((found, after)),
        None => Err(ParseErr::Form),
    }
}

/// No labels, or `of` and some, with the `;`, and what follows.
fn labels(alloc: Global, terminals: &[Terminal]) -> Result<(Vec<u32>, &[Terminal]), ParseErr>
    ensures reads { Reads (λ x. x.0.items) (λ x. x.1.now) (MaybeOf terminals.now) result }
    ensures shorter { IfOk result (λ x. length x.1.now < length terminals.now) }
{
    match after_symbol(Symbol::Semicolon, terminals) {
        Some(rest) => Ok((Vec::new(alloc), rest)),
        None => match after_word(ReservedWord::Of, terminals) {
            Some(more) => product(alloc, more),
            None => Err(ParseErr::Form),
        },
    }
}

/// The expression in brackets in front, and what follows it.
fn bracketed(alloc: Global, terminals: &[Terminal]) -> Result<(Expr, &[Terminal]), ParseErr>
    ensures reads { Reads (λ x. expr_tree x.0) (λ x. x.1.now) (IsBracketed terminals.now) result }
    ensures shorter { IfOk result (λ x. length x.1.now < length terminals.now) }
{
    match after_symbol(Symbol::Open, terminals) {
        Some(more) => {
            let (inner, rest) = expression(alloc, more)?;
            match after_symbol(Symbol::Close, rest) {
                Some(after) => Ok((inner, after)),
                None => Err(ParseErr::Form),
            }
        }
        None => Err(ParseErr::Form),
    }
}

/// The squares in front, and what follows them.
fn squares(alloc: Global, terminals: &[Terminal]) -> Result<(Vec<Expr>, &[Terminal]), ParseErr>
    ensures reads { Reads (λ x. map expr_tree x.0.items) (λ x. x.1.now) (AreSquares terminals.now) result }
    ensures no_longer { IfOk result (λ x. length x.1.now ≤ length terminals.now) }
{
    let mut found = Vec::new(alloc);
    let mut rest = terminals;
    'squares: while let Some(more) = after_word(ReservedWord::Sq, rest) {
        let (square, after) = bracketed(alloc, more)?;
        found.push(square)?;
        rest = after;
    }
    Ok((found, rest))
}

/// The first term behind its `pos`, and what follows it.
fn strict(alloc: Global, terminals: &[Terminal]) -> Result<(CertTerm, &[Terminal]), ParseErr>
    ensures { Reads (λ x. term_tree x.0) (λ x. x.1.now) (IsStrict terminals.now) result }
{
    let Some((times, rest)) = whole(terminals) else {
        return Err(ParseErr::Form);
    };
    let (labels, after) = labels(alloc, rest)?;
    Ok((
        CertTerm::Pos {
            times,
            labels: Items::of(labels),
        },
        after,
    ))
}

/// A term of squares behind its `sum`, and what follows it.
fn sum(alloc: Global, terminals: &[Terminal]) -> Result<(CertTerm, &[Terminal]), ParseErr>
    ensures reads { Reads (λ x. term_tree x.0) (λ x. x.1.now) (IsSum terminals.now) result }
    ensures shorter { IfOk result (λ x. length x.1.now < length terminals.now) }
{
    let Some((times, rest)) = whole(terminals) else {
        return Err(ParseErr::Form);
    };
    let (squares, behind) = squares(alloc, rest)?;
    let (labels, after) = labels(alloc, behind)?;
    Ok((
        CertTerm::Sum {
            times,
            squares: Items::of(squares),
            labels: Items::of(labels),
        },
        after,
    ))
}

/// A multiple of an equation behind its `eq`, and what follows it.
fn equation(alloc: Global, terminals: &[Terminal]) -> Result<(CertTerm, &[Terminal]), ParseErr>
    ensures reads { Reads (λ x. term_tree x.0) (λ x. x.1.now) (IsEquation terminals.now) result }
    ensures shorter { IfOk result (λ x. length x.1.now < length terminals.now) }
{
    let Some((label, rest)) = label(terminals) else {
        return Err(ParseErr::Form);
    };
    let Some(more) = after_word(ReservedWord::Times, rest) else {
        return Err(ParseErr::Form);
    };
    let (times, behind) = bracketed(alloc, more)?;
    match after_symbol(Symbol::Semicolon, behind) {
        Some(after) => Ok((CertTerm::Eq { label, times }, after)),
        None => Err(ParseErr::Form),
    }
}

/// A term behind the first, and what follows it.
fn later(alloc: Global, terminals: &[Terminal]) -> Result<(CertTerm, &[Terminal]), ParseErr>
    ensures reads { Reads (λ x. term_tree x.0) (λ x. x.1.now) (IsLater terminals.now) result }
    ensures shorter { IfOk result (λ x. length x.1.now < length terminals.now) }
{
    match after_word(ReservedWord::Sum, terminals) {
        Some(more) => sum(alloc, more),
        None => match after_word(ReservedWord::Eq, terminals) {
            Some(more) => equation(alloc, more),
            None => Err(ParseErr::Form),
        },
    }
}

/// The terms with the `}` behind them, and what follows.
fn terms(alloc: Global, terminals: &[Terminal]) -> Result<(Vec<CertTerm>, &[Terminal]), ParseErr>
    ensures { Reads (λ x. map term_tree x.0.items) (λ x. x.1.now) (AreTerms terminals.now) result }
{
    let Some(more) = after_word(ReservedWord::Pos, terminals) else {
        return Err(ParseErr::Form);
    };
    let (first, mut rest) = strict(alloc, more)?;
    let mut found = vec![in alloc; first]?;
    'terms: loop {
        if let Some(after) = after_symbol(Symbol::BraceClose, rest) {
            return Ok((found, after));
        }
        let (term, after) = later(alloc, rest)?;
        found.push(term)?;
        rest = after;
    }
}

/// The part whose word stands in front, and what follows it.
fn part(terminals: &[Terminal]) -> Option<(Part, &[Terminal])>
    ensures { MatchOption result ((p : Part) (rest : List Terminal) → IsPart terminals.now p rest → ⊥) (λ x. IsPart terminals.now x.0 x.1.now) }
{
    match first(terminals) {
        Some((Terminal::Word(ReservedWord::Init), rest)) => Some((Part::Init, rest)),
        Some((Terminal::Word(ReservedWord::Safe), rest)) => Some((Part::Safe, rest)),
        Some((Terminal::Word(ReservedWord::Step), rest)) => Some((Part::Step, rest)),
        Some((Terminal::Word(ReservedWord::Fallback), rest)) => Some((Part::Fallback, rest)),
        _ => None,
    }
}

/// The certificate's part and its number, and what follows the `{`.
fn head(terminals: &[Terminal]) -> Option<(Part, u32, &[Terminal])>
    ensures { MatchOption result ((p : Part) (n : ℕ) (rest : List Terminal) → IsHead terminals.now p n rest → ⊥) (λ x. IsHead terminals.now x.0 x.1 x.2.now) }
{
    let Some(more) = after_word(ReservedWord::Cert, terminals) else {
        return None;
    };
    let Some((part, behind)) = part(more) else {
        return None;
    };
    let Some((number, last)) = label(behind) else {
        return None;
    };
    match after_symbol(Symbol::BraceOpen, last) {
        Some(rest) => Some((part, number, rest)),
        None => None,
    }
}

/// Whether the terminal is not a number with `/` or `.`.
fn is_no_fraction(terminal: &Terminal) -> bool
    ensures { result ≡ is_no_fraction terminal.now }
{
    match terminal {
        Terminal::Number(_, is_whole) => *is_whole,
        _ => true,
    }
}

/// Whether every number is a whole.
fn are_wholes(terminals: &[Terminal]) -> bool
    ensures { result ≡ list_all is_no_fraction terminals.now }
{
    terminals.iter().all(is_no_fraction)
}

/// The certificate that all of the terminals are.
pub fn whole_certificate(alloc: Global, terminals: &[Terminal]) -> Result<Cert, ParseErr>
    ensures { ReadsAll cert_tree (SpellsCert terminals.now) result }
{
    if !are_wholes(terminals) {
        return Err(ParseErr::Form);
    }
    let Some((part, number, more)) = head(terminals) else {
        return Err(ParseErr::Form);
    };
    let (terms, rest) = terms(alloc, more)?;
    if is_only(Symbol::Semicolon, rest) {
        Ok(Cert {
            part,
            number,
            terms: Items::of(terms),
        })
    } else {
        Err(ParseErr::Form)
    }
}
