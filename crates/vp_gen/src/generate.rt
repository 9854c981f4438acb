//! From a sandbox to checked code.
ghost use Rattle.std.specs.Prelude.{MatchResult};
ghost use Rattle.vp_sandbox.specs.Fits.{Fits};
ghost use Rattle.vp_gen.specs.Compiled.{IsCodeOf, Refuses};

use crate::build::build;
use std::alloc::Global;
use thiserror::Error;
use vp_isa::Checked;
use vp_isa::laws::{block_is_run, blocks_split, rules_are_exact, runs_compose};
use vp_layout::laws::{
    acts_become_controls, codes_that_reply_agree, next_states_become_states, records_are_taken,
};
use vp_sandbox::laws::choices_keep_the_fallback;
use vp_sandbox::{Sandbox, sizes};

/// The most instructions that a code may have.
const INSTRS: u64 = 65_536;

/// The most cells.
const CELLS: u64 = 8_192;

/// Why a sandbox has no code.
#[derive(Clone, Copy, Debug, PartialEq, Eq, Error)]
pub enum GenErr {
    /// Its sizes give so many instructions, more than 65,536.
    #[error("long {count}")]
    Long { count: u64 },
    /// Its sizes give so many cells, more than 8,192.
    #[error("cells {count}")]
    Cells { count: u64 },
    /// There was no memory.
    #[error("memory")]
    Memory,
}

/// The code of a sandbox: on every list of valid due records its replies are the sandbox's, and what
/// it has due is the same.
pub fn compile(alloc: Global, s: &Sandbox) -> Result<Checked, GenErr>
    requires { Fits s.now }
    ensures { MatchResult result (IsCodeOf s.now) (Refuses s.now) }
{
    let sizes = sizes(s);
    if sizes.instrs > INSTRS {
        return Err(GenErr::Long {
            count: sizes.instrs,
        });
    }
    if sizes.cells > CELLS {
        return Err(GenErr::Cells { count: sizes.cells });
    }
    runs_compose();
    block_is_run();
    blocks_split();
    rules_are_exact();
    records_are_taken();
    acts_become_controls();
    next_states_become_states();
    choices_keep_the_fallback();
    codes_that_reply_agree();
    let Ok(code) = build(alloc, s) else {
        return Err(GenErr::Memory);
    };
    match Checked::of(code) {
        Ok(checked) => Ok(checked),
        Err(_) => unreachable!(),
    }
}
