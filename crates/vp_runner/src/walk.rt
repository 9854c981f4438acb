//! A walk over bytes: a line that is held, and the answers to the lines before it.
ghost use Rattle.std.specs.Prelude.{◌≡◌, ◌+◌, ◌<◌, ◌≤◌, ◌^◌, ◌++◌, [], OnOk, false, length, take};
ghost use Rattle.vp_runner.specs.Progress.{IsCaused, Prints};
ghost use Rattle.vp_stream.specs.Pieces.{held_after, held_of};
ghost use Rattle.vp_stream.specs.Run.{bad_at};

use crate::ends::{Cause, End, Fed};
use crate::progress::{Answer, Progress};
use vp_outside::{Failed, Sink, write_all};
use vp_stream::{Ending, LineTurn, Lines, write_end_line};

/// Why a walk goes no further.
#[derive(Clone, Copy, Debug)]
pub(crate) enum Halt {
    /// A line ended the run.
    Ended(Ending),
    /// A write failed.
    Failed,
}

impl From<Halt> for Cause {
    ghost use Rattle.vp_runner.specs.Halts.{cause_of};

    ghost from_gives = { λ h c. c ≡ cause_of h };

    fn from(halt: Halt) -> Cause {
        match halt {
            Halt::Ended(Ending::Violated) => Cause::Violated,
            Halt::Ended(Ending::BadLine { line }) => Cause::BadLine { line },
            Halt::Failed => Cause::Failed,
        }
    }
}

impl From<Halt> for Fed {
    ghost use Rattle.vp_runner.specs.Halts.{fed_of};

    ghost from_gives = { λ h f. f ≡ fed_of h };

    fn from(halt: Halt) -> Fed {
        match halt {
            Halt::Ended(Ending::Violated) => Fed::Violated,
            Halt::Ended(Ending::BadLine { line }) => Fed::BadLine { line },
            Halt::Failed => Fed::Failed,
        }
    }
}

impl From<Halt> for End {
    ghost use Rattle.vp_runner.specs.Halts.{end_of};

    ghost from_gives = { λ h e. e ≡ end_of h };

    fn from(halt: Halt) -> End {
        match halt {
            Halt::Ended(Ending::Violated) => End::Violated,
            Halt::Ended(Ending::BadLine { line }) => End::BadLine { line },
            Halt::Failed => End::Failed,
        }
    }
}

/// The line that is held, and how far the run has come.
#[derive(Debug, Drop)]
pub(crate) struct Walk {
    pub(crate) progress: Progress,
    pub(crate) line: Lines,
}

/// Prints what a line gives.
fn print<Si: Sink>(sink: &mut Si, out: &[u8; 1024], answer: Answer) -> Result<(), Halt>
    requires { answer.len ≤ 1024 }
    ensures walk { Prints result answer.ending (take answer.len out.now) (Si.written sink.old) (Si.written sink.new) }
    ensures cause { IsCaused result (Si.faults sink.old) (Si.faults sink.new) }
{
    match write_all(sink, &out[..answer.len]) {
        Ok(()) => match answer.ending {
            None => Ok(()),
            Some(ending) => Err(Halt::Ended(ending)),
        },
        Err(Failed) => Err(Halt::Failed),
    }
}

impl Walk {
    ghost use Rattle.vp_runner.specs.Progress.{Closes, HasRoom, Walks, byte_gives, held_gives, piece_gives, standing};

    /// Answers the line that is held, as a whole one, and starts the next.
    pub(crate) fn answer_held<Si: Sink>(&mut self, sink: &mut Si) -> Result<(), Halt>
        requires lines { self.old.progress.lines + 1 < 2 ^ 64 }
        requires rounds { self.old.progress.rounds ≤ self.old.progress.lines }
        ensures walk { Walks result (held_gives self.old) (standing self.new.progress) (Si.written sink.old) (Si.written sink.new) }
        ensures cause { IsCaused result (Si.faults sink.old) (Si.faults sink.new) }
        ensures code { self.new.progress.machine.code ≡ self.old.progress.machine.code }
        ensures line { self.new.line ≡ record { text = []; ended = false } }
        ensures lines { self.new.progress.lines ≡ self.old.progress.lines + 1 }
        ensures rounds { self.new.progress.rounds ≤ self.new.progress.lines }
    {
        let mut out = [0; 1024];
        let answer = self.progress.answer_line(self.line.text(), &mut out);
        self.line.clear();
        print(sink, &out, answer)
    }

    /// Says that the line that is held is too long.
    fn refuse<Si: Sink>(&mut self, sink: &mut Si) -> Result<(), Halt>
        requires { self.old.progress.lines + 1 < 2 ^ 64 }
        ensures walk { Walks result (bad_at (standing self.old.progress)) (standing self.new.progress) (Si.written sink.old) (Si.written sink.new) }
        ensures cause { IsCaused result (Si.faults sink.old) (Si.faults sink.new) }
        ensures code { self.new.progress.machine.code ≡ self.old.progress.machine.code }
    {
        let mut out = [0; 1024];
        let answer = self.progress.refuse(&mut out);
        print(sink, &out, answer)
    }

    /// Takes one byte.
    fn take_byte<Si: Sink>(&mut self, byte: u8, sink: &mut Si) -> Result<(), Halt>
        requires { HasRoom self.old 1 }
        ensures walk { Walks result (byte_gives self.old byte) (standing self.new.progress) (Si.written sink.old) (Si.written sink.new) }
        ensures cause { IsCaused result (Si.faults sink.old) (Si.faults sink.new) }
        ensures code { self.new.progress.machine.code ≡ self.old.progress.machine.code }
        ensures line { OnOk result (self.new.line ≡ record { text = held_after self.old.line.text byte; ended = false }) }
        ensures short { OnOk result (length self.new.line.text ≤ 4096) }
        ensures lines { OnOk result (self.new.progress.lines + length self.new.line.text ≤
            self.old.progress.lines + length self.old.line.text + 1) }
        ensures rounds { OnOk result (self.new.progress.rounds ≤ self.new.progress.lines) }
    {
        match self.line.next_byte(byte) {
            LineTurn::More => Ok(()),
            LineTurn::Line => self.answer_held(sink),
            LineTurn::TooLong => self.refuse(sink),
        }
    }

    /// Takes the bytes of a piece: each line's reply is printed before the next byte is looked at.
    pub(crate) fn take<Si: Sink>(&mut self, piece: &[u8], sink: &mut Si) -> Result<(), Halt>
        requires { HasRoom self.old (length piece.now) }
        ensures walk { Walks result (piece_gives self.old piece.now) (standing self.new.progress) (Si.written sink.old) (Si.written sink.new) }
        ensures cause { IsCaused result (Si.faults sink.old) (Si.faults sink.new) }
        ensures code { self.new.progress.machine.code ≡ self.old.progress.machine.code }
        ensures held { OnOk result (self.new.line.text ≡ held_of (self.old.line.text ++ piece.now)) }
        ensures room { OnOk result (HasRoom self.new 0) }
        ensures lines { OnOk result (self.new.progress.lines + length self.new.line.text ≤
            self.old.progress.lines + length self.old.line.text + length piece.now) }
    {
        for byte in piece {
            self.take_byte(*byte, sink)?;
        }
        Ok(())
    }

    /// Answers the line that is held, which counts where it has bytes, and prints the end line with the
    /// number of sensings that were answered.
    pub(crate) fn finish<Si: Sink>(&mut self, sink: &mut Si) -> Result<u64, Halt>
        requires lines { self.old.progress.lines + 1 < 2 ^ 64 }
        requires rounds { self.old.progress.rounds ≤ self.old.progress.lines }
        ensures text { Closes result (held_gives self.old) (Si.written sink.old) (Si.written sink.new) }
        ensures cause { IsCaused result (Si.faults sink.old) (Si.faults sink.new) }
        ensures code { self.new.progress.machine.code ≡ self.old.progress.machine.code }
    {
        self.answer_held(sink)?;
        let rounds = self.progress.rounds;
        let mut out = [0; 1024];
        let len = write_end_line(rounds, &mut out);
        match write_all(sink, &out[..len]) {
            Ok(()) => Ok(rounds),
            Err(Failed) => Err(Halt::Failed),
        }
    }
}
