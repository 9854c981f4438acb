//! Pieces of code that every compiled code has.
ghost use Rattle.std.specs.Prelude.{◌≡◌, ◌+◌, ◌<◌, ◌^◌, ◌++◌, ◌∷◌, [], length, true, OnOk, pos, negsuc};
ghost use Rattle.vp_words.specs.Record.{IsValid};
ghost use Rattle.vp_layout.specs.Blocks.{copies, take_code, act_code, yes_code};
ghost use Rattle.vp_layout.specs.Drafts.{mon_of, no_jumps, Appends, HasRoom};

use crate::home::{Layout, MINUS_ONE, ONE, TWO, ZERO, record_cell};
use std::alloc::{AllocError, Global};
use vp_emit::Builder;
use vp_isa::{Instr, Mon};
use vp_words::{Counts, Kind, Word};

/// The monitors that are lists of conjuncts.
#[derive(Clone, Copy, Debug, PartialEq, Eq)]
pub enum Monitor {
    /// Those of the init monitor.
    Init,
    /// Those of the plant's monitor.
    Plant,
}

/// The violation that the monitor reports at its conjunct number k.
fn mon(monitor: Monitor, k: u32, unknown: bool) -> Mon
    ensures { result ≡ mon_of monitor k unknown }
{
    match monitor {
        Monitor::Init => Mon::Init { k, unknown },
        Monitor::Plant => Mon::Plant { k, unknown },
    }
}

/// Copies `n` cells from one place on to another.
#[tactic(auto, using(crate::proofs::Lists::copies_step))]
pub fn emit_copies(code: &mut Vec<Instr>, to: u16, from: u16, n: u8) -> Result<(), AllocError>
    requires to { to + n < 2 ^ 16 }
    requires from { from + n < 2 ^ 16 }
    ensures { OnOk result (code.new.items ≡ code.old.items ++ copies to from n) }
{
    for i in 0..n {
        code.push(Instr::Copy {
            d: to + u16::from(i),
            a: from + u16::from(i),
        })?;
    }
    Ok(())
}

/// Pushes a block without jumps.
pub fn push_block(b: &mut Builder, block: &[Instr]) -> Result<(), AllocError>
    requires room { HasRoom b.old (length block.now) }
    requires plain { no_jumps block.now ≡ true }
    ensures exact { OnOk result (b.new ≡ record b.old { pushed = b.old.pushed ++ block.now }) }
    ensures appends { OnOk result (Appends b.old b.new (λ _. block.now)) }
{
    for instr in block {
        b.push(*instr)?;
    }
    Ok(())
}

/// The number -1.
fn minus_one() -> Word
    ensures { result ≡ negsuc 0 }
{
    Word::of(-1).unwrap()
}

/// The number 2.
fn two() -> Word
    ensures { result ≡ pos 2 }
{
    Word::of(2).unwrap()
}

/// Takes a record of this kind, and writes the constants anew.
pub fn push_take(b: &mut Builder, counts: Counts, kind: Kind) -> Result<(), AllocError>
    requires counts { IsValid counts }
    requires room { HasRoom b.old 5 }
    ensures exact { OnOk result (b.new ≡ record b.old { pushed = b.old.pushed ++ take_code counts kind }) }
    ensures appends { OnOk result (Appends b.old b.new (λ _. take_code counts kind)) }
{
    push_block(
        b,
        &[
            Instr::Take {
                kind,
                d: record_cell(counts, kind),
            },
            Instr::Const {
                d: ZERO,
                w: Word::ZERO,
            },
            Instr::Const {
                d: ONE,
                w: Word::ONE,
            },
            Instr::Const { d: TWO, w: two() },
            Instr::Const {
                d: MINUS_ONE,
                w: minus_one(),
            },
        ],
    )
}

/// Acts with the words from cell d on, which become the controls.
pub fn push_act(
    alloc: Global,
    b: &mut Builder,
    counts: Counts,
    fallback: bool,
    d: u16,
) -> Result<(), AllocError>
    requires counts { IsValid counts }
    requires room { HasRoom b.old (1 + counts.controls) }
    requires cells { d + counts.controls < 2 ^ 16 }
    ensures { OnOk result (Appends b.old b.new (λ _. act_code counts fallback d)) }
{
    let mut block = Vec::new(alloc);
    block.push(Instr::Act { fallback, d })?;
    emit_copies(&mut block, Layout::of(counts).controls, d, counts.controls)?;
    push_block(b, &block)
}

/// Goes on where the truth in cell d is Yes, and else ends with the violation of conjunct k.
pub fn push_yes(b: &mut Builder, d: u16, monitor: Monitor, k: u32) -> Result<(), AllocError>
    requires { HasRoom b.old 4 }
    ensures { OnOk result (Appends b.old b.new (λ p. yes_code p d (mon_of monitor k))) }
{
    let ok = b.label()?;
    let unknown = b.label()?;
    b.push(Instr::Jge {
        a: d,
        b: TWO,
        t: ok,
    })?;
    b.push(Instr::Jge {
        a: d,
        b: ONE,
        t: unknown,
    })?;
    b.push(Instr::Halt {
        mon: mon(monitor, k, false),
    })?;
    b.place(unknown);
    b.push(Instr::Halt {
        mon: mon(monitor, k, true),
    })?;
    b.place(ok);
    Ok(())
}
