//! Tests of conjuncts, and the fallback's words.
ghost use Rattle.std.specs.Prelude.{◌≡◌, ◌+◌, ◌<◌, ◌≤◌, ◌^◌, length, map, sum_by, OnOk};
ghost use Rattle.vp_poly.specs.Poly.{norm};
ghost use Rattle.vp_logic.specs.Tree.{tree};
ghost use Rattle.vp_sandbox.specs.Sizes.{form_size, poly_size};
ghost use Rattle.vp_layout.specs.Truths.{need, IsSmall, AllNeed, AllSmall, SmallPolys};
ghost use Rattle.vp_layout.specs.Drafts.{mon_of, Appends, HasRoom};
ghost use Rattle.vp_gen.specs.CheckCode.{check_code, checks_code};
ghost use Rattle.vp_gen.specs.SandboxCode.{fallback_cell, same_code, word_code, words_code, work_cell};

use crate::form::emit_form;
use crate::poly::emit_poly;
use std::alloc::{AllocError, Global};
use vp_emit::Builder;
use vp_isa::{Instr, Mon};
use vp_layout::{Home, Monitor, push_block, push_yes};
use vp_logic::Norm;
use vp_poly::Poly;

/// The first of the cells of the fallback's words.
pub(crate) const FALLBACK: u16 = 68;

/// The first of the cells that are worked in.
pub(crate) const WORK: u16 = 84;

/// Tests a conjunct.
fn emit_check(
    alloc: Global,
    b: &mut Builder,
    form: &Norm,
    k: u32,
    monitor: Monitor,
    homes: &[Home],
) -> Result<(), AllocError>
    requires room { HasRoom b.old (form_size (tree form.now) + 8) }
    requires need { need (tree form.now) ≤ 16 }
    requires small { IsSmall (tree form.now) }
    ensures { OnOk result (Appends b.old b.new (λ p. check_code p work_cell (mon_of monitor k) (tree form.now) homes.now)) }
{
    let mut block = Vec::new(alloc);
    emit_form(&mut block, WORK, form, homes)?;
    push_block(b, &block)?;
    push_yes(b, WORK, monitor, k)
}

/// The low end in the first work cell goes to cell f where both ends are the same, and else it ends.
fn emit_same(b: &mut Builder, f: u16) -> Result<(), AllocError>
    requires { HasRoom b.old 3 }
    ensures { OnOk result (Appends b.old b.new (λ p. same_code p f)) }
{
    let same = b.label()?;
    b.push(Instr::Jeq {
        a: WORK,
        b: WORK + 1,
        t: same,
    })?;
    b.push(Instr::Halt { mon: Mon::Fallback })?;
    b.place(same);
    b.push(Instr::Copy { d: f, a: WORK })?;
    Ok(())
}

/// The one word of a polynomial, in cell f.
fn emit_word(
    alloc: Global,
    b: &mut Builder,
    f: u16,
    p: &Poly,
    homes: &[Home],
) -> Result<(), AllocError>
    requires room { HasRoom b.old (poly_size p.now + 6) }
    requires small { norm p.now < 2 ^ 62 }
    ensures { OnOk result (Appends b.old b.new (λ q. word_code q f p.now homes.now)) }
{
    let mut block = Vec::new(alloc);
    emit_poly(&mut block, WORK, p, homes)?;
    push_block(b, &block)?;
    emit_same(b, f)
}

/// Tests these conjuncts, one after another.
pub(crate) fn emit_checks(
    alloc: Global,
    b: &mut Builder,
    forms: &[Norm],
    monitor: Monitor,
    homes: &[Home],
) -> Result<(), AllocError>
    requires room { HasRoom b.old (sum_by (λ t. form_size t + 8) (map tree forms.now)) }
    requires few { length forms.now < 2 ^ 31 }
    requires need { AllNeed 16 (map tree forms.now) }
    requires small { AllSmall (map tree forms.now) }
    ensures { OnOk result (Appends b.old b.new (λ p. checks_code p work_cell (mon_of monitor) 1 (map tree forms.now) homes.now)) }
{
    for (i, form) in forms.iter().enumerate() {
        emit_check(alloc, b, form, i as u32 + 1, monitor, homes)?;
    }
    Ok(())
}

/// The words of these polynomials, from the fallback's first cell on.
pub(crate) fn emit_words(
    alloc: Global,
    b: &mut Builder,
    polys: &[Poly],
    homes: &[Home],
) -> Result<(), AllocError>
    requires room { HasRoom b.old (sum_by (λ p. poly_size p + 6) polys.now) }
    requires few { length polys.now ≤ 16 }
    requires small { SmallPolys polys.now }
    ensures { OnOk result (Appends b.old b.new (λ p. words_code p fallback_cell polys.now homes.now)) }
{
    for (i, poly) in polys.iter().enumerate() {
        emit_word(alloc, b, FALLBACK + i as u16, poly, homes)?;
    }
    Ok(())
}
