//! Code, and code that keeps the rules of the machine.
ghost use Rattle.std.specs.Prelude.{◌≡◌, MatchResult, None, Some};
ghost use Rattle.vp_isa.specs.Valid.{IsValid, refusal};

use crate::check::first_refusal_of;
use crate::instr::Instr;
use std::marker::Model;
use thiserror::Error;
use vp_words::Counts;

/// A list of instructions.
#[derive(Debug, Drop)]
pub struct Instrs {
    items: Vec<Instr>,
}

impl Model for Instrs {
    ghost use Rattle.std.specs.Prelude.{List};
    ghost use Rattle.vp_isa.specs.declared.instr.Instr.{Instr};

    ghost Value = { List Instr };

    ghost view = { λ i. i.items.items };
}

impl Instrs {
    /// The list of these instructions. It takes no memory.
    pub fn of(items: Vec<Instr>) -> Instrs
        ensures { result ≡ items.items }
    {
        Instrs { items }
    }

    /// Lends the instructions.
    pub fn get(&self) -> &[Instr]
        ensures { result.now ≡ self.now }
    {
        &self.items
    }
}

/// Instructions for a machine of so many cells. A jump back leads to the instruction at `head`.
#[derive(Debug, Drop)]
pub struct Code {
    /// How many parameters, states and controls its records speak of.
    pub counts: Counts,
    /// How many cells the machine has.
    pub cells: u32,
    /// The place of the TAKE where each round begins.
    pub head: u32,
    /// The instructions, in the order of their places.
    pub instrs: Instrs,
}

/// The first rule that refused code breaks.
#[derive(Clone, Copy, Debug, PartialEq, Eq, Error)]
pub enum CheckErr {
    /// The counts aren't valid, there are 0 or more than 65,536 instructions or more than 8,192
    /// cells, or the head isn't the place of an instruction.
    #[error("size")]
    Size,
    /// The instruction there isn't a TAKE: `at` is 0 or the head.
    #[error("shape {at}")]
    Shape { at: u32 },
    /// The instruction there uses a cell that the machine doesn't have.
    #[error("cell {at}")]
    Cell { at: u32 },
    /// The target of the instruction there isn't the place of an instruction.
    #[error("target {at}")]
    Target { at: u32 },
    /// The target of the instruction there is at most its own place, and isn't the head.
    #[error("back {at}")]
    Back { at: u32 },
    /// The last instruction is neither JMP nor HALT.
    #[error("fall")]
    Fall,
}

/// Code that keeps the rules.
#[derive(Debug, Drop)]
pub struct Checked {
    code: Code,
}

impl Model for Checked {
    ghost use Rattle.std.specs.Prelude.{◌≡◌, None};
    ghost use Rattle.vp_isa.specs.declared.code.Code.{Code};
    ghost use Rattle.vp_isa.specs.Valid.{IsValid, refusal};

    ghost Value = { Code };

    ghost view = { λ c. c.code };

    ghost invariant = { λ c. (refusal c.code ≡ None) × IsValid c.code };
}

impl Checked {
    /// Checks code. The error is the first rule that it breaks, and the code is then given up.
    pub fn of(code: Code) -> Result<Checked, CheckErr>
        ensures { MatchResult result (λ c. (c ≡ code) × (refusal code ≡ None)) (λ e. refusal code ≡ Some e) }
    {
        match first_refusal_of(&code) {
            Some(refusal) => Err(refusal),
            None => Ok(Checked { code }),
        }
    }

    /// Lends the code.
    pub fn code(&self) -> &Code
        ensures code { result.now ≡ self.now }
        ensures accepted { refusal self.now ≡ None }
        ensures valid { IsValid self.now }
    {
        &self.code
    }
}
