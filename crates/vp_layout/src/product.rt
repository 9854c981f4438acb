//! The product of two intervals.
ghost use Rattle.std.specs.Prelude.{◌≡◌, ◌++◌, ◌+◌, ◌<◌, ◌^◌, OnOk};
ghost use Rattle.vp_layout.specs.Blocks.{product_code};

use crate::home::Home;
use std::alloc::AllocError;
use vp_isa::Instr;

/// Multiplies the intervals at two homes into the cells d and d + 1, by way of the cell t.
pub fn emit_product(
    code: &mut Vec<Instr>,
    d: u16,
    t: u16,
    v: Home,
    w: Home,
) -> Result<(), AllocError>
    requires { d + 1 < 2 ^ 16 }
    ensures { OnOk result (code.new.items ≡ code.old.items ++ product_code d t v w) }
{
    let e = d + 1;
    code.extend_from_slice(&[
        Instr::MulD {
            d,
            a: v.lo,
            b: w.lo,
        },
        Instr::MulD {
            d: t,
            a: v.lo,
            b: w.hi,
        },
        Instr::Min { d, a: d, b: t },
        Instr::MulD {
            d: t,
            a: v.hi,
            b: w.lo,
        },
        Instr::Min { d, a: d, b: t },
        Instr::MulD {
            d: t,
            a: v.hi,
            b: w.hi,
        },
        Instr::Min { d, a: d, b: t },
        Instr::MulU {
            d: e,
            a: v.lo,
            b: w.lo,
        },
        Instr::MulU {
            d: t,
            a: v.lo,
            b: w.hi,
        },
        Instr::Max { d: e, a: e, b: t },
        Instr::MulU {
            d: t,
            a: v.hi,
            b: w.lo,
        },
        Instr::Max { d: e, a: e, b: t },
        Instr::MulU {
            d: t,
            a: v.hi,
            b: w.hi,
        },
        Instr::Max { d: e, a: e, b: t },
    ])?;
    Ok(())
}
