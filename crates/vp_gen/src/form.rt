//! The truth of a form.
ghost use Rattle.std.specs.Prelude.{◌≡◌, ◌++◌, ◌+◌, ◌<◌, ◌^◌, nat_le, OnOk, pos};
ghost use Rattle.vp_poly.specs.Poly.{norm};
ghost use Rattle.vp_logic.specs.Tree.{tree, trees};
ghost use Rattle.vp_layout.specs.Truths.{need, needs, IsSmall, AreSmall};
ghost use Rattle.vp_gen.specs.FormCode.{rel_code, atom_code, form_code, all_code, any_code};

use crate::poly::emit_poly;
use std::alloc::AllocError;
use vp_isa::Instr;
use vp_layout::{Home, MINUS_ONE, ONE, TWO, ZERO, need, needs};
use vp_logic::{Atom, Norm, Norms, Rel};
use vp_words::Word;

/// From the ends in the cells d + 1 and d + 2 to the truth in cell d.
fn emit_rel(code: &mut Vec<Instr>, d: u16, rel: Rel) -> Result<(), AllocError>
    requires { d + 3 < 2 ^ 16 }
    ensures { OnOk result (code.new.items ≡ code.old.items ++ rel_code d rel) }
{
    let (lo, hi, t) = (d + 1, d + 2, d + 3);
    match rel {
        Rel::Ge => code.extend_from_slice(&[
            Instr::Max {
                d,
                a: lo,
                b: MINUS_ONE,
            },
            Instr::Min { d, a: d, b: ZERO },
            Instr::Max { d: t, a: hi, b: d },
            Instr::Min {
                d: t,
                a: t,
                b: ZERO,
            },
            Instr::AddD { d, a: d, b: t },
            Instr::AddD { d, a: d, b: TWO },
        ])?,
        Rel::Gt => code.extend_from_slice(&[
            Instr::Max { d, a: lo, b: ZERO },
            Instr::Min { d, a: d, b: ONE },
            Instr::Max { d: t, a: hi, b: d },
            Instr::Min { d: t, a: t, b: ONE },
            Instr::AddD { d, a: d, b: t },
        ])?,
        Rel::Eq => code.extend_from_slice(&[
            Instr::Neg { d, a: hi },
            Instr::Min { d: t, a: lo, b: d },
            Instr::Max {
                d: t,
                a: t,
                b: MINUS_ONE,
            },
            Instr::Max { d, a: lo, b: d },
            Instr::Max { d, a: d, b: ZERO },
            Instr::Min { d, a: d, b: ONE },
            Instr::Neg { d, a: d },
            Instr::AddD { d, a: d, b: d },
            Instr::Min { d, a: d, b: t },
            Instr::AddD { d, a: d, b: TWO },
        ])?,
    }
    Ok(())
}

fn emit_atom(code: &mut Vec<Instr>, d: u16, atom: &Atom, homes: &[Home]) -> Result<(), AllocError>
    requires room { d + 12 < 2 ^ 16 }
    requires small { norm atom.now.poly < 2 ^ 62 }
    ensures { OnOk result (code.new.items ≡ code.old.items ++ atom_code d atom.now homes.now) }
{
    emit_poly(code, d + 1, &atom.poly, homes)?;
    emit_rel(code, d, atom.rel)
}

/// The truth of a form, into cell d.
#[cycle(emit)]
pub(crate) fn emit_form(
    code: &mut Vec<Instr>,
    d: u16,
    norm: &Norm,
    homes: &[Home],
) -> Result<(), AllocError>
    requires room { d + need (tree norm.now) + 12 < 2 ^ 16 }
    requires small { IsSmall (tree norm.now) }
    ensures { OnOk result (code.new.items ≡ code.old.items ++ form_code d (tree norm.now) homes.now) }
{
    match norm {
        Norm::Atom(atom) => emit_atom(code, d, atom, homes),
        Norm::And(members) => emit_all(code, d, members, homes),
        Norm::Or(members) => emit_any(code, d, members, homes),
    }
}

/// Of a list the member that holds most truths is worked out first: whether that is the first one.
fn comes_first(first: &Norm, rest: &Norms) -> bool
    ensures { result ≡ nat_le (needs (trees rest.now)) (need (tree first.now)) }
{
    needs(rest) <= need(first)
}

/// The least truth of these, into cell d.
#[cycle(emit)]
fn emit_all(
    code: &mut Vec<Instr>,
    d: u16,
    members: &Norms,
    homes: &[Home],
) -> Result<(), AllocError>
    requires room { d + needs (trees members.now) + 12 < 2 ^ 16 }
    requires small { AreSmall (trees members.now) }
    ensures { OnOk result (code.new.items ≡ code.old.items ++ all_code d (trees members.now) homes.now) }
{
    match members {
        Norms::End => code.extend_from_slice(&[Instr::Const { d, w: two() }]),
        Norms::More(first, rest) => {
            if comes_first(first, rest) {
                emit_form(code, d, first, homes)?;
                emit_all(code, d + 1, rest, homes)?;
            } else {
                emit_all(code, d, rest, homes)?;
                emit_form(code, d + 1, first, homes)?;
            }
            code.extend_from_slice(&[Instr::Min { d, a: d, b: d + 1 }])
        }
    }
}

/// The greatest truth of these, into cell d.
#[cycle(emit)]
fn emit_any(
    code: &mut Vec<Instr>,
    d: u16,
    members: &Norms,
    homes: &[Home],
) -> Result<(), AllocError>
    requires room { d + needs (trees members.now) + 12 < 2 ^ 16 }
    requires small { AreSmall (trees members.now) }
    ensures { OnOk result (code.new.items ≡ code.old.items ++ any_code d (trees members.now) homes.now) }
{
    match members {
        Norms::End => code.extend_from_slice(&[Instr::Const { d, w: Word::ZERO }]),
        Norms::More(first, rest) => {
            if comes_first(first, rest) {
                emit_form(code, d, first, homes)?;
                emit_any(code, d + 1, rest, homes)?;
            } else {
                emit_any(code, d, rest, homes)?;
                emit_form(code, d + 1, first, homes)?;
            }
            code.extend_from_slice(&[Instr::Max { d, a: d, b: d + 1 }])
        }
    }
}

/// The number 2.
fn two() -> Word
    ensures { result ≡ pos 2 }
{
    Word::of(2).unwrap()
}
