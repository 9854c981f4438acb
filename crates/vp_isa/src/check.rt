//! The first rule that code breaks.
ghost use Rattle.std.specs.Prelude.{◌≡◌, ◌≤◌, length};
ghost use Rattle.vp_words.specs.Record.{IsValid as AreCounts};
ghost use Rattle.vp_isa.specs.Valid.{size_fits, cells_used, refusal_at, first_refusal, refusal};

use crate::code::{CheckErr, Code};
use crate::instr::Instr;
use vp_words::{Counts, fields};

/// Whether the sizes are within their limits.
fn fits_limits(code: &Code) -> bool
    ensures { result ≡ size_fits code.now }
{
    let count = code.instrs.get().len();
    code.counts.is_valid()
        && count >= 1
        && count <= 65_536
        && code.cells <= 8_192
        && (code.head as usize) < count
}

/// One past the greatest cell that an instruction uses.
fn count_cells(counts: Counts, instr: &Instr) -> u32
    requires { AreCounts counts }
    ensures { result ≡ cells_used counts instr.now }
{
    match *instr {
        Instr::Const { d, .. } => u32::from(d) + 1,
        Instr::Copy { d, a } | Instr::Neg { d, a } => u32::from(d.max(a)) + 1,
        Instr::Min { d, a, b }
        | Instr::Max { d, a, b }
        | Instr::AddD { d, a, b }
        | Instr::AddU { d, a, b }
        | Instr::MulD { d, a, b }
        | Instr::MulU { d, a, b } => u32::from(d.max(a.max(b))) + 1,
        Instr::Jge { a, b, .. } | Instr::Jgt { a, b, .. } | Instr::Jeq { a, b, .. } => u32::from(
            a.max(b),
        ) + 1,
        Instr::Take { kind, d } => u32::from(d) + u32::from(fields(kind, counts)),
        Instr::Act { d, .. } => u32::from(d) + u32::from(counts.controls),
        Instr::Jmp { .. } | Instr::Halt { .. } => 0,
    }
}

/// What is wrong with an instruction.
fn refusal_of_instr(code: &Code, at: u32, instr: &Instr) -> Option<CheckErr>
    requires { AreCounts code.now.counts }
    ensures { result ≡ refusal_at code.now at instr.now }
{
    if code.cells < count_cells(code.counts, instr) {
        return Some(CheckErr::Cell { at });
    }
    let target = instr.target()?;
    if code.instrs.get().len() <= target as usize {
        Some(CheckErr::Target { at })
    } else if target <= at && target != code.head {
        Some(CheckErr::Back { at })
    } else {
        None
    }
}

/// What is wrong with the first instruction that breaks a rule.
fn refusal_of_instrs(code: &Code) -> Option<CheckErr>
    requires counts { AreCounts code.now.counts }
    requires short { length code.now.instrs ≤ 65536 }
    ensures { result ≡ first_refusal code.now 0 code.now.instrs }
{
    let mut at = 0;
    for instr in code.instrs.get() {
        if let Some(refusal) = refusal_of_instr(code, at, instr) {
            return Some(refusal);
        }
        at += 1;
    }
    None
}

/// The first rule that code breaks.
pub(crate) fn first_refusal_of(code: &Code) -> Option<CheckErr>
    ensures { result ≡ refusal code.now }
{
    if !fits_limits(code) {
        return Some(CheckErr::Size);
    }
    let instrs = code.instrs.get();
    if !instrs[0].is_take() {
        return Some(CheckErr::Shape { at: 0 });
    }
    if !instrs[code.head as usize].is_take() {
        return Some(CheckErr::Shape { at: code.head });
    }
    if let Some(refusal) = refusal_of_instrs(code) {
        return Some(refusal);
    }
    if instrs[instrs.len() - 1].never_falls() {
        None
    } else {
        Some(CheckErr::Fall)
    }
}
