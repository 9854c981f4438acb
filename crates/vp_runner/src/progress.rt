//! One line at a time: a machine, and how far its run has come.
ghost use Rattle.std.specs.Prelude.{◌≡◌, ◌+◌, ◌<◌, ◌≤◌, ◌^◌, IfNone, IfSome, length};
ghost use Rattle.vp_stream.specs.Run.{bad_at, ending_after, line_answer, rounds_of};

use std::marker::Brand;
use std::sync::ledger::{Blank, Ledger};
use vp_stream::{Ending, content, is_skipped, read_record, write_bad_line, write_reply};
use vp_vm::{Machine, Steps, VmReply};
use vp_words::{Kind, Record, Reply, Word};

/// A machine, the number of lines so far, and the number of sensings that were answered.
#[derive(Debug, Drop)]
pub(crate) struct Progress {
    pub(crate) machine: Machine,
    pub(crate) lines: u64,
    pub(crate) rounds: u64,
}

/// How many bytes were written for a line, and how it ends the run if it does.
#[derive(Clone, Copy, Debug)]
pub(crate) struct Answer {
    pub(crate) len: usize,
    pub(crate) ending: Option<Ending>,
}

/// How many sensings a record is.
fn rounds_of(kind: Kind) -> u64
    ensures count { result ≡ rounds_of kind }
    ensures few { result ≤ 1 }
{
    match kind {
        Kind::Sense => 1,
        _ => 0,
    }
}

/// How a reply ends the run, if it does.
fn ending_after(reply: &Reply) -> Option<Ending>
    ensures { result ≡ ending_after reply.now }
{
    match reply {
        Reply::Violation(_) => Some(Ending::Violated),
        _ => None,
    }
}

impl Progress {
    ghost use Rattle.vp_runner.specs.Progress.{Gave, IsDueNow, answerer, due_gives, record_gives, standing};

    /// The record of a line, where it is the due one.
    fn due_record(&self, line: &[u8]) -> Option<Record>
        ensures none { IfNone result (due_gives self.now line.now ≡ bad_at (standing self.now)) }
        ensures some { IfSome result (λ r. due_gives self.now line.now ≡ record_gives self.now r) }
        ensures due { IfSome result (IsDueNow self.now) }
    {
        let kind = self.machine.due().kind()?;
        let mut record = Record {
            kind,
            words: [Word::ZERO; 64],
            len: 0,
        };
        match read_record(line, kind, self.machine.counts(), &mut record) {
            Ok(()) => Some(record),
            Err(_) => None,
        }
    }

    /// Says that the next line is bad.
    pub(crate) fn refuse(&mut self, out: &mut [u8; 1024]) -> Answer
        requires { self.old.lines + 1 < 2 ^ 64 }
        ensures walk { Gave (bad_at (standing self.old)) out.new result self.new }
        ensures code { self.new.machine.code ≡ self.old.machine.code }
        ensures lines { self.new.lines ≡ self.old.lines + 1 }
        ensures rounds { self.new.rounds ≡ self.old.rounds }
    {
        let line = self.lines + 1;
        self.lines = line;
        Answer {
            len: write_bad_line(line, out),
            ending: Some(Ending::BadLine { line }),
        }
    }

    /// Answers the due record, by a machine with this counter of steps.
    fn answer_counted<L: Ledger>(
        &mut self,
        found: &Record,
        steps: &mut Steps<L>,
        out: &mut [u8; 1024],
    ) -> Answer
        requires lines { self.old.lines + 1 < 2 ^ 64 }
        requires rounds { self.old.rounds ≤ self.old.lines }
        requires due { IsDueNow self.old found.now }
        ensures walk { Gave (record_gives self.old found.now) out.new result self.new }
        ensures code { self.new.machine.code ≡ self.old.machine.code }
        ensures lines { self.new.lines ≡ self.old.lines + 1 }
        ensures rounds { self.new.rounds ≤ self.new.lines }
    {
        let words = &found.words[..usize::from(found.len)];
        let mut given = VmReply {
            reply: Reply::Ok,
            ran: 0,
        };
        let _turn = self.machine.give(words, &mut given, steps);
        self.lines += 1;
        self.rounds += rounds_of(found.kind);
        Answer {
            len: write_reply(&given.reply, out),
            ending: ending_after(&given.reply),
        }
    }

    /// Answers the due record, with a new counter of steps.
    fn answer_over<L: Ledger>(
        &mut self,
        found: &Record,
        blank: Blank,
        out: &mut [u8; 1024],
    ) -> Answer
        requires name { blank.name ≡ L.name }
        requires parts { blank.parts ≡ L.parts }
        requires some { 0 < blank.parts }
        requires lines { self.old.lines + 1 < 2 ^ 64 }
        requires rounds { self.old.rounds ≤ self.old.lines }
        requires due { IsDueNow self.old found.now }
        ensures walk { Gave (record_gives self.old found.now) out.new result self.new }
        ensures code { self.new.machine.code ≡ self.old.machine.code }
        ensures lines { self.new.lines ≡ self.old.lines + 1 }
        ensures rounds { self.new.rounds ≤ self.new.lines }
    {
        self.answer_counted(found, &mut Steps::<L>::new(blank), out)
    }

    /// Answers one whole line of at most 4,096 bytes: writes what is due for it at the front of `out`.
    pub(crate) fn answer_line(&mut self, line: &[u8], out: &mut [u8; 1024]) -> Answer
        requires short { length line.now ≤ 4096 }
        requires lines { self.old.lines + 1 < 2 ^ 64 }
        requires rounds { self.old.rounds ≤ self.old.lines }
        ensures walk { Gave (line_answer (answerer self.old) (standing self.old) line.now) out.new result self.new }
        ensures code { self.new.machine.code ≡ self.old.machine.code }
        ensures lines { self.new.lines ≡ self.old.lines + 1 }
        ensures rounds { self.new.rounds ≤ self.new.lines }
    {
        let line = content(line);
        if is_skipped(line) {
            self.lines += 1;
            return Answer {
                len: 0,
                ending: None,
            };
        }
        match self.due_record(line) {
            Some(record) => self.answer_over::<Brand>(&record, Blank::new(1), out),
            None => self.refuse(out),
        }
    }
}
