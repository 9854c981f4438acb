//! The instructions.
ghost use Rattle.std.specs.Prelude.{◌≡◌, Some};

use vp_words::{Kind, Word};

/// The monitor that a HALT names, with the number of its conjunct and whether its truth is unknown
/// or false.
#[derive(Clone, Copy, Debug, PartialEq, Eq)]
pub enum Mon {
    /// The conjunct `k` of the initial condition, from 1.
    Init { k: u32, unknown: bool },
    /// The conjunct `k` of the plant's monitor, from 1.
    Plant { k: u32, unknown: bool },
    /// A fallback whose value isn't known to be one word.
    Fallback,
}

/// An instruction. `d`, `a` and `b` are places of cells, `t` is the place of an instruction.
#[derive(Clone, Copy, Debug, PartialEq, Eq)]
pub enum Instr {
    /// Cell d becomes a word.
    Const { d: u16, w: Word },
    /// Cell d becomes cell a.
    Copy { d: u16, a: u16 },
    /// Cell d becomes the negative of cell a.
    Neg { d: u16, a: u16 },
    /// Cell d becomes the lesser of the cells a and b.
    Min { d: u16, a: u16, b: u16 },
    /// Cell d becomes the greater of the cells a and b.
    Max { d: u16, a: u16, b: u16 },
    /// Cell d becomes the sum, rounded down.
    AddD { d: u16, a: u16, b: u16 },
    /// Cell d becomes the sum, rounded up.
    AddU { d: u16, a: u16, b: u16 },
    /// Cell d becomes the product, rounded down.
    MulD { d: u16, a: u16, b: u16 },
    /// Cell d becomes the product, rounded up.
    MulU { d: u16, a: u16, b: u16 },
    /// Goes to t.
    Jmp { t: u32 },
    /// Goes to t where cell a is at least cell b.
    Jge { a: u16, b: u16, t: u32 },
    /// Goes to t where cell a is above cell b.
    Jgt { a: u16, b: u16, t: u32 },
    /// Goes to t where cell a equals cell b.
    Jeq { a: u16, b: u16, t: u32 },
    /// The words of the due record go to the cells from d on.
    Take { kind: Kind, d: u16 },
    /// The reply is an act with the words from cell d on, one for each control.
    Act { fallback: bool, d: u16 },
    /// The reply is a violation, and the machine is ended.
    Halt { mon: Mon },
}

impl Instr {
    ghost use Rattle.vp_isa.specs.Valid.{target_of, is_take, never_falls};

    /// The place where it may jump to, if it is a jump.
    pub fn target(&self) -> Option<u32>
        ensures { result ≡ target_of self.now }
    {
        match *self {
            Instr::Jmp { t } | Instr::Jge { t, .. } | Instr::Jgt { t, .. } | Instr::Jeq { t, .. } =>
                Some(t),
            _ => None,
        }
    }

    /// Whether it takes a record.
    pub fn is_take(&self) -> bool
        ensures { result ≡ is_take (Some self.now) }
    {
        matches!(self, Instr::Take { .. })
    }

    /// Whether the following instruction is never executed after it.
    pub(crate) fn never_falls(&self) -> bool
        ensures { result ≡ never_falls (Some self.now) }
    {
        matches!(self, Instr::Jmp { .. } | Instr::Halt { .. })
    }
}
