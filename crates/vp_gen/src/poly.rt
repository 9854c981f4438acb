//! The interval of a polynomial.
ghost use Rattle.std.specs.Prelude.{◌≡◌, ◌++◌, ◌+◌, ◌-◌, ◌<◌, ◌≤◌, ◌^◌, OnOk, unsigned_abs, []};
ghost use Rattle.vp_poly.specs.Poly.{norm};
ghost use Rattle.vp_gen.specs.PolyCode.{has_factors, factors_code, front_code, scaled_code, term_code, added_code, poly_code};

use crate::power::{emit_factor, emit_first};
use std::alloc::AllocError;
use vp_isa::Instr;
use vp_layout::{Home, emit_product};
use vp_poly::{Poly, Term};
use vp_words::Word;

/// Whether some exponent isn't 0.
fn has_factors(exponents: &[u8], homes: &[Home]) -> bool
    ensures { result ≡ has_factors exponents.now homes.now }
{
    let [k, exponents @ ..] = exponents else {
        return false;
    };
    let [_, homes @ ..] = homes else {
        return false;
    };
    *k != 0 || has_factors(exponents, homes)
}

/// Multiplies the interval in the cells d and d + 1 by these powers.
fn emit_factors(
    code: &mut Vec<Instr>,
    d: u16,
    exponents: &[u8],
    homes: &[Home],
) -> Result<(), AllocError>
    requires { d + 7 < 2 ^ 16 }
    ensures { OnOk result (code.new.items ≡ code.old.items ++ factors_code d exponents.now homes.now) }
{
    let [k, exponents @ ..] = exponents else {
        return Ok(());
    };
    let [v, homes @ ..] = homes else {
        return Ok(());
    };
    if *k != 0 {
        emit_factor(code, d, *k, *v)?;
    }
    emit_factors(code, d, exponents, homes)
}

/// The product of these powers, into the cells d and d + 1.
fn emit_front(
    code: &mut Vec<Instr>,
    d: u16,
    exponents: &[u8],
    homes: &[Home],
) -> Result<(), AllocError>
    requires { d + 7 < 2 ^ 16 }
    ensures { OnOk result (code.new.items ≡ code.old.items ++ front_code d exponents.now homes.now) }
{
    let [k, exponents @ ..] = exponents else {
        return Ok(());
    };
    let [v, homes @ ..] = homes else {
        return Ok(());
    };
    if *k == 0 {
        emit_front(code, d, exponents, homes)
    } else {
        emit_first(code, d, *k, *v)?;
        emit_factors(code, d, exponents, homes)
    }
}

/// The coefficient as a word.
fn coefficient(term: &Term) -> Word
    requires { unsigned_abs term.now.coef < 2 ^ 62 }
    ensures { result ≡ term.now.coef }
{
    Word::of(term.coef as i64).unwrap()
}

/// A term that has variables, into the cells d and d + 1.
fn emit_scaled(code: &mut Vec<Instr>, d: u16, term: &Term, homes: &[Home]) -> Result<(), AllocError>
    requires room { d + 9 < 2 ^ 16 }
    requires small { unsigned_abs term.now.coef < 2 ^ 62 }
    ensures { OnOk result (code.new.items ≡ code.old.items ++ scaled_code d term.now homes.now) }
{
    emit_front(code, d + 2, &term.mono.powers, homes)?;
    code.extend_from_slice(&[Instr::Const {
        d: d + 4,
        w: coefficient(term),
    }])?;
    let front = Home {
        lo: d + 2,
        hi: d + 3,
    };
    let point = Home {
        lo: d + 4,
        hi: d + 4,
    };
    emit_product(code, d, d + 5, front, point)
}

/// A term, into the cells d and d + 1.
fn emit_term(code: &mut Vec<Instr>, d: u16, term: &Term, homes: &[Home]) -> Result<(), AllocError>
    requires room { d + 9 < 2 ^ 16 }
    requires small { unsigned_abs term.now.coef < 2 ^ 62 }
    ensures { OnOk result (code.new.items ≡ code.old.items ++ term_code d term.now homes.now) }
{
    if has_factors(&term.mono.powers, homes) {
        return emit_scaled(code, d, term, homes);
    }
    let w = coefficient(term);
    code.extend_from_slice(&[Instr::Const { d, w }, Instr::Const { d: d + 1, w }])?;
    Ok(())
}

/// Adds a term to the interval in the cells d and d + 1.
fn emit_added(code: &mut Vec<Instr>, d: u16, term: &Term, homes: &[Home]) -> Result<(), AllocError>
    requires room { d + 11 < 2 ^ 16 }
    requires small { unsigned_abs term.now.coef < 2 ^ 62 }
    ensures { OnOk result (code.new.items ≡ code.old.items ++ added_code d term.now homes.now) }
{
    emit_term(code, d + 2, term, homes)?;
    code.extend_from_slice(&[
        Instr::AddD { d, a: d, b: d + 2 },
        Instr::AddU {
            d: d + 1,
            a: d + 1,
            b: d + 3,
        },
    ])?;
    Ok(())
}

/// The interval of zero, into the cells d and d + 1.
fn emit_zero(code: &mut Vec<Instr>, d: u16, homes: &[Home]) -> Result<(), AllocError>
    requires { d + 11 < 2 ^ 16 }
    ensures { OnOk result (code.new.items ≡ code.old.items ++ poly_code d [] homes.now) }
{
    let w = Word::ZERO;
    code.extend_from_slice(&[Instr::Const { d, w }, Instr::Const { d: d + 1, w }])?;
    Ok(())
}

/// The interval of a polynomial, into the cells d and d + 1.
pub(crate) fn emit_poly(
    code: &mut Vec<Instr>,
    d: u16,
    p: &Poly,
    homes: &[Home],
) -> Result<(), AllocError>
    requires room { d + 11 < 2 ^ 16 }
    requires small { norm p.now < 2 ^ 62 }
    ensures { OnOk result (code.new.items ≡ code.old.items ++ poly_code d p.now homes.now) }
{
    if p.len() == 0 {
        return emit_zero(code, d, homes);
    }
    emit_term(code, d, &p.term(0), homes)?;
    for k in 1..p.len() {
        emit_added(code, d, &p.term(k), homes)?;
    }
    Ok(())
}
