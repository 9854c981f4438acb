//! The machine, between two records.
ghost use Rattle.std.specs.Prelude.{◌≡◌, ◌+◌, ◌≤◌, ◌↔◌, IfOk, length};
ghost use Rattle.vp_words.specs.declared.record.Turn.TheVariants.{Answered, Ended};
ghost use Rattle.vp_words.specs.declared.record.Due.TheVariants.{Ended as NoneDue};
ghost use Rattle.vp_words.specs.Record.{ActFits, IsValid as AreCounts};
ghost use Rattle.vp_isa.specs.Valid.{IsValid};
ghost use Rattle.vp_isa.specs.Machine.{fresh, due_of, answer, HasDueCount, IsStanding};
ghost use Rattle.vp_vm.specs.Parts.{answer_with};

use crate::execute::{Position, instr_at, run_to_stop, take_words};
use crate::steps::Steps;
use std::alloc::{AllocError, Global};
use std::marker::Model;
use std::sync::ledger::Ledger;
use vp_isa::{Checked, Code, Instr};
use vp_words::{Counts, Due, Reply, Turn, Word};

/// The reply to a record, and how many instructions were executed for it.
#[derive(Clone, Copy, Debug, PartialEq, Eq)]
pub struct VmReply {
    /// The reply.
    pub reply: Reply,
    /// How many instructions.
    pub ran: u32,
}

/// A machine with its code. It stands at a TAKE, or is ended by a violation.
#[derive(Debug, Drop)]
pub struct Machine {
    code: Checked,
    cells: Vec<Word>,
    at: Position,
}

impl Model for Machine {
    ghost use Rattle.vp_words.specs.declared.record.Reply.TheVariants.{Ok};
    ghost use Rattle.vp_isa.specs.Valid.{IsValid};
    ghost use Rattle.vp_isa.specs.Machine.{Running, IsStanding};
    ghost use Rattle.vp_vm.specs.Parts.{state};

    ghost Value = { Running };

    ghost view = { λ m. record { code = m.code; state = state m.cells.items m.at Ok } };

    ghost invariant = { λ m. IsValid m.code × IsStanding m.code (state m.cells.items m.at Ok) };
}

impl Machine {
    /// A machine at its first instruction, with zeros in its cells. It takes all the memory that it
    /// ever uses.
    pub fn new(alloc: Global, code: Checked) -> Result<Machine, AllocError>
        ensures { IfOk result (λ m. m ≡ record { code = code; state = fresh code }) }
    {
        let count = code.code().cells as usize;
        Ok(Machine {
            cells: vec![in alloc; Word::ZERO; count]?,
            at: Position {
                place: 0,
                ended: false,
            },
            code,
        })
    }

    /// Lends its code.
    pub fn code(&self) -> &Code
        ensures code { result.now ≡ self.now.code }
        ensures valid { IsValid self.now.code }
    {
        self.code.code()
    }

    /// The counts of its code.
    pub fn counts(&self) -> Counts
        ensures counts { result ≡ self.now.code.counts }
        ensures valid { AreCounts result }
    {
        self.code.code().counts
    }

    /// The kind of record that is due, or `Ended` after a violation.
    pub fn due(&self) -> Due
        ensures due { result ≡ due_of self.now.code self.now.state }
        ensures stands { IsStanding self.now.code self.now.state }
    {
        if self.at.ended {
            return Due::Ended;
        }
        match instr_at(self.code.code(), self.at.place) {
            Instr::Take { kind, .. } => kind.due(),
            _ => unreachable!(),
        }
    }

    /// Answers the words of the due record. It takes no memory.
    ///
    /// `Ended` says that nothing was due, and then nothing changes.
    pub fn give<L: Ledger>(
        &mut self,
        words: &[Word],
        out: &mut VmReply,
        steps: &mut Steps<L>,
    ) -> Turn
        requires { HasDueCount self.old.code self.old.state words.now }
        ensures ended { (result ≡ Ended) ↔ (due_of self.old.code self.old.state ≡ NoneDue) }
        ensures same { result ≡ Ended → (self.new ≡ self.old) × (out.new ≡ out.old) × (steps.new ≡ steps.old) }
        ensures answer { result ≡ Answered → answer self.old.code words.now self.old.state ≡ answer_with out.new self.new.state }
        ensures code { self.new.code ≡ self.old.code }
        ensures ran { result ≡ Answered → out.new.ran ≤ length self.old.code.instrs }
        ensures steps { result ≡ Answered → steps.new ≡ steps.old + out.new.ran }
        ensures act { result ≡ Answered → ActFits out.new.reply }
    {
        if self.at.ended {
            return Turn::Ended;
        }
        let code = self.code.code();
        let start = take_words(code, &mut self.cells, self.at.place, words, steps);
        let mut reply = Reply::Ok;
        let (at, ran) = run_to_stop(code, &mut self.cells, start, &mut reply, steps);
        self.at = at;
        *out = VmReply {
            reply,
            ran: ran + 1,
        };
        Turn::Answered
    }
}
