//! The pieces of a package, each by the form that it is to have.
ghost use Rattle.std.specs.Prelude.{◌≡◌, ◌≤◌, ◌<◌, drop, length, map, string_bytes, Decides, All, IfOk, codes};
ghost use Rattle.vp_terms.specs.Tree.{expr_tree, formula_tree, prog_tree};
ghost use Rattle.vp_lex.specs.Tokens.{IsToken};
ghost use Rattle.vp_grammar.specs.FormulaReads.{SpellsFormulaPiece};
ghost use Rattle.vp_grammar.specs.Controllers.{SpellsController};
ghost use Rattle.vp_grammar.specs.Entries.{SpellsEntries, SpellsBounds, SpellsTimes};
ghost use Rattle.vp_terms.specs.Packages.{slack_tree};
ghost use Rattle.vp_lex.specs.declared.word.ReservedWord.TheVariants as word;
ghost use Rattle.vp_grammar.specs.declared.entries.Mark.TheVariants as mark;
ghost use Rattle.vp_read.specs.Pieces.{items, piece};
ghost use Rattle.vp_read.specs.Naming.{AreFew, IsWithin, StandsIn};
ghost use Rattle.vp_read.specs.Reading.{AreShort};
ghost use Rattle.vp_read.specs.Sections.{IsHeading, IsListed, ReadsBody, ReadsCerts, ReadsHead, ReadsPiece, of_form, second_text, spelled};

use crate::fault::ReadErr;
use crate::naming::string_of;
use crate::pieces::{
    CONTROLS, CTRL, DOMAIN, FALLBACK, FIRST_CERT, FLOW, HEADING, INIT, INV, PARAMS, SAFE, SLACK,
    STATES, TIME, piece,
};
use crate::terminals::token_text;
use std::alloc::{AllocError, Global};
use vp_grammar::{
    Mark, ParseErr, ReservedWord, Span, Terminal, formula_piece, whole_certificate,
    whole_controller, whole_entries,
};
use vp_lex::Token;
use vp_terms::{Cert, Expr, Formula, Items, NameList, Names, Package, Plant, Prog, Slack};

/// Why the piece of a number is not what it is to be.
pub(crate) fn refusal(number: u32, why: ParseErr) -> ReadErr
    ensures { result ≡ of_form number why }
{
    match why {
        ParseErr::Form => ReadErr::Section { piece: number },
        ParseErr::Memory => ReadErr::Memory,
    }
}

// A piece that is a word, a formula and `;`.
fn condition(
    alloc: Global,
    word: ReservedWord,
    number: u32,
    pieces: &[Vec<Terminal>],
) -> Result<Formula, ReadErr>
    requires { 0 < number }
    ensures { ReadsPiece formula_tree (SpellsFormulaPiece word (piece (map items pieces.now) number)) number result }
{
    match formula_piece(alloc, word, piece(pieces, number as usize)) {
        Ok(formula) => Ok(formula),
        Err(why) => Err(refusal(number, why)),
    }
}

// The controller.
fn controller(alloc: Global, pieces: &[Vec<Terminal>]) -> Result<Prog, ReadErr>
    ensures { ReadsPiece prog_tree (SpellsController (piece (map items pieces.now) CTRL)) CTRL result }
{
    match whole_controller(alloc, piece(pieces, CTRL as usize)) {
        Ok(program) => Ok(program),
        Err(why) => Err(refusal(CTRL, why)),
    }
}

// The bounds of the time.
fn times(alloc: Global, pieces: &[Vec<Terminal>]) -> Result<(Expr, Expr), ReadErr>
    ensures { ReadsPiece (λ x. (expr_tree x.0, expr_tree x.1)) (SpellsTimes (piece (map items pieces.now) TIME)) TIME result }
{
    match vp_grammar::times(alloc, piece(pieces, TIME as usize)) {
        Ok(bounds) => Ok(bounds),
        Err(why) => Err(refusal(TIME, why)),
    }
}

// A piece that lists expressions, each with its name.
fn entries(
    alloc: Global,
    word: ReservedWord,
    mark: Mark,
    number: u32,
    pieces: &[Vec<Terminal>],
) -> Result<Vec<Expr>, ReadErr>
    requires number { 0 < number }
    requires short { All (λ v. length v.items ≤ 1048576) pieces.now }
    ensures reads { ReadsPiece (λ v. map expr_tree v.items) (SpellsEntries word mark (piece (map items pieces.now) number)) number result }
    ensures few { IfOk result (λ v. length v.items ≤ 1048576) }
{
    match whole_entries(alloc, word, mark, piece(pieces, number as usize)) {
        Ok(exprs) => Ok(exprs),
        Err(why) => Err(refusal(number, why)),
    }
}

// The slack.
fn bounds(alloc: Global, pieces: &[Vec<Terminal>]) -> Result<Vec<Slack>, ReadErr>
    requires { All (λ v. length v.items ≤ 1048576) pieces.now }
    ensures reads { ReadsPiece (λ v. map slack_tree v.items) (SpellsBounds (piece (map items pieces.now) SLACK)) SLACK result }
    ensures few { IfOk result (λ v. length v.items ≤ 1048576) }
{
    match vp_grammar::bounds(alloc, piece(pieces, SLACK as usize)) {
        Ok(slack) => Ok(slack),
        Err(why) => Err(refusal(SLACK, why)),
    }
}

// Whether the first piece is `package 1;`.
fn is_heading(text: &[u8], tokens: &[Token], first: &[Terminal]) -> bool
    requires { All (λ t. IsToken text.now t) tokens.now }
    ensures { Decides result (IsHeading text.now tokens.now first.now) }
{
    vp_grammar::is_heading(first) && is_second(text, tokens)
}

// Whether the second token is spelled `1`.
fn is_second(text: &[u8], tokens: &[Token]) -> bool
    requires { All (λ t. IsToken text.now t) tokens.now }
    ensures { Decides result (second_text text.now tokens.now ≡ codes "1") }
{
    match tokens {
        [_, second, ..] => token_text(text, *second) == b"1".as_slice(),
        _ => false,
    }
}

// The names that spans of a text spell.
fn spelled(alloc: Global, text: &[u8], spans: &[Span]) -> Result<Vec<String>, AllocError>
    requires { All (IsWithin text.now) spans.now }
    ensures { IfOk result (λ v. map string_bytes v.items ≡ spelled text.now spans.now) }
{
    let mut names = Vec::new(alloc);
    for span in spans {
        names.push(string_of(alloc, text, *span)?)?;
    }
    Ok(names)
}

// A piece that lists names behind a word.
fn listed(
    alloc: Global,
    text: &[u8],
    word: ReservedWord,
    least: usize,
    number: u32,
    pieces: &[Vec<Terminal>],
) -> Result<NameList, ReadErr>
    requires number { 0 < number }
    requires within { All (λ v. All (StandsIn text.now) v.items) pieces.now }
    requires short { All (λ v. length v.items ≤ 1048576) pieces.now }
    ensures reads { ReadsPiece (λ l. l) (IsListed text.now word least (piece (map items pieces.now) number)) number result }
    ensures few { IfOk result (λ l. length l ≤ 1048576) }
{
    match vp_grammar::names(alloc, word, least, piece(pieces, number as usize)) {
        Ok(spans) => {
            let names = spelled(alloc, text, &spans)?;
            Ok(NameList::of(names))
        }
        Err(why) => Err(refusal(number, why)),
    }
}

/// The names that pieces 1 to 4 declare.
pub(crate) fn head(
    alloc: Global,
    text: &[u8],
    tokens: &[Token],
    pieces: &[Vec<Terminal>],
) -> Result<Names, ReadErr>
    requires tokens { All (λ t. IsToken text.now t) tokens.now }
    requires within { All (λ v. All (StandsIn text.now) v.items) pieces.now }
    requires short { All (λ v. length v.items ≤ 1048576) pieces.now }
    ensures reads { ReadsHead text.now tokens.now (map items pieces.now) result }
    ensures few { IfOk result AreFew }
{
    if !is_heading(text, tokens, piece(pieces, HEADING as usize)) {
        return Err(ReadErr::Section { piece: HEADING });
    }
    let params = listed(alloc, text, ReservedWord::Params, 0, PARAMS, pieces)?;
    let states = listed(alloc, text, ReservedWord::States, 1, STATES, pieces)?;
    let controls = listed(alloc, text, ReservedWord::Controls, 1, CONTROLS, pieces)?;
    Ok(Names {
        params,
        states,
        controls,
    })
}

// The certificates of the pieces behind the 13th.
fn certificates(alloc: Global, pieces: &[Vec<Terminal>]) -> Result<Vec<Cert>, ReadErr>
    requires { length pieces.now ≤ 1048576 }
    ensures { ReadsCerts FIRST_CERT (map items pieces.now) result }
{
    let mut certs = Vec::new(alloc);
    for (i, piece) in pieces.iter().enumerate() {
        match whole_certificate(alloc, piece) {
            Ok(cert) => certs.push(cert)?,
            Err(why) => return Err(refusal(i as u32 + FIRST_CERT, why)),
        }
    }
    Ok(certs)
}

// The pieces behind the 13th.
fn behind(pieces: &[Vec<Terminal>]) -> &[Vec<Terminal>]
    ensures { result.now ≡ drop FALLBACK pieces.now }
{
    match pieces.get(FALLBACK as usize..) {
        Some(behind) => behind,
        None => &[],
    }
}

/// The package of these names that the pieces from the fifth on describe.
pub(crate) fn body(
    alloc: Global,
    names: Names,
    pieces: &[Vec<Terminal>],
) -> Result<Package, ReadErr>
    requires few { length pieces.now ≤ 1048576 }
    requires short { All (λ v. length v.items ≤ 1048576) pieces.now }
    ensures reads { ReadsBody names (map items pieces.now) result }
    ensures short { IfOk result AreShort }
{
    let init = condition(alloc, ReservedWord::Init, INIT, pieces)?;
    let inv = condition(alloc, ReservedWord::Inv, INV, pieces)?;
    let safe = condition(alloc, ReservedWord::Safe, SAFE, pieces)?;
    let ctrl = controller(alloc, pieces)?;
    let (low, high) = times(alloc, pieces)?;
    let rates = entries(alloc, ReservedWord::Flow, Mark::Rate, FLOW, pieces)?;
    let slack = bounds(alloc, pieces)?;
    let domain = condition(alloc, ReservedWord::Domain, DOMAIN, pieces)?;
    let fallback = entries(
        alloc,
        ReservedWord::Fallback,
        Mark::Setting,
        FALLBACK,
        pieces,
    )?;
    let certs = certificates(alloc, behind(pieces))?;
    Ok(Package {
        names,
        init,
        inv,
        safe,
        ctrl,
        plant: Plant {
            low,
            high,
            rates: Items::of(rates),
            slack: Items::of(slack),
            domain,
        },
        fallback: Items::of(fallback),
        certs: Items::of(certs),
    })
}
