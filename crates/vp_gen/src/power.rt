//! The powers of an interval.
ghost use Rattle.std.specs.Prelude.{◌≡◌, ◌++◌, ◌+◌, ◌-◌, ◌<◌, ◌≤◌, ◌^◌, OnOk};
ghost use Rattle.vp_gen.specs.PowerCode.{even_code, power_code, first_code, factor_code};

use std::alloc::AllocError;
use vp_isa::Instr;
use vp_layout::{Home, ZERO, emit_product};

/// The power more + 2, which is even, into the cells d and d + 1.
fn emit_even(code: &mut Vec<Instr>, d: u16, more: u8, v: Home) -> Result<(), AllocError>
    requires { d + 3 < 2 ^ 16 }
    ensures { OnOk result (code.new.items ≡ code.old.items ++ even_code d more v) }
{
    let (a, b) = (d + 2, d + 3);
    code.extend_from_slice(&[
        Instr::Neg { d: a, a: v.hi },
        Instr::Max {
            d: a,
            a: v.lo,
            b: a,
        },
        Instr::Max { d: a, a, b: ZERO },
        Instr::Neg { d: b, a: v.lo },
        Instr::Max {
            d: b,
            a: b,
            b: v.hi,
        },
        Instr::MulD { d, a, b: a },
        Instr::MulU { d: d + 1, a: b, b },
    ])?;
    for _step in 0..more {
        code.extend_from_slice(&[
            Instr::MulD { d, a: d, b: a },
            Instr::MulU {
                d: d + 1,
                a: d + 1,
                b,
            },
        ])?;
    }
    Ok(())
}

/// A power from the second on, into the cells d and d + 1.
fn emit_power(code: &mut Vec<Instr>, d: u16, k: u8, v: Home) -> Result<(), AllocError>
    requires room { d + 5 < 2 ^ 16 }
    requires second { 2 ≤ k }
    ensures { OnOk result (code.new.items ≡ code.old.items ++ power_code d k v) }
{
    if k % 2 == 0 {
        emit_even(code, d, k - 2, v)
    } else {
        emit_even(code, d + 2, k - 3, v)?;
        let even = Home {
            lo: d + 2,
            hi: d + 3,
        };
        emit_product(code, d, d + 4, v, even)
    }
}

/// The first factor of a term, into the cells d and d + 1.
pub(crate) fn emit_first(code: &mut Vec<Instr>, d: u16, k: u8, v: Home) -> Result<(), AllocError>
    requires room { d + 5 < 2 ^ 16 }
    requires first { 1 ≤ k }
    ensures { OnOk result (code.new.items ≡ code.old.items ++ first_code d k v) }
{
    if k == 1 {
        code.extend_from_slice(&[
            Instr::Copy { d, a: v.lo },
            Instr::Copy { d: d + 1, a: v.hi },
        ])?;
        Ok(())
    } else {
        emit_power(code, d, k, v)
    }
}

/// A further factor of a term: the interval in the cells d and d + 1 is multiplied by it.
pub(crate) fn emit_factor(code: &mut Vec<Instr>, d: u16, k: u8, v: Home) -> Result<(), AllocError>
    requires room { d + 7 < 2 ^ 16 }
    requires first { 1 ≤ k }
    ensures { OnOk result (code.new.items ≡ code.old.items ++ factor_code d k v) }
{
    let here = Home { lo: d, hi: d + 1 };
    if k == 1 {
        emit_product(code, d + 4, d + 6, here, v)?;
    } else {
        emit_power(code, d + 2, k, v)?;
        let power = Home {
            lo: d + 2,
            hi: d + 3,
        };
        emit_product(code, d + 4, d + 6, here, power)?;
    }
    code.extend_from_slice(&[
        Instr::Copy { d, a: d + 4 },
        Instr::Copy { d: d + 1, a: d + 5 },
    ])?;
    Ok(())
}
