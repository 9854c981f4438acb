//! Runs over a source.
ghost use Rattle.std.specs.Prelude.{[], ◌≡◌, ◌+◌, ◌<◌, ◌≤◌, ◌^◌, IfSome, List, None, Some, length, ℕ};
ghost use Rattle.std.specs.Io.KnownBytes.{IsAtEnd};
ghost use Rattle.vp_isa.specs.Answering.{machine_of};
ghost use Rattle.vp_outside.specs.Causes.{Rose};
ghost use Rattle.vp_outside.specs.Content.{Tells};
ghost use Rattle.vp_stream.specs.declared.verdict.Verdict.TheVariants as verdict;
ghost use Rattle.vp_stream.specs.Run.{run};
ghost use Rattle.vp_runner.specs.Ends.{AreCauses, EndsOf, PrintsInTime, PrintsTaken};
ghost use Rattle.vp_runner.specs.Sessions.{StandsFor};
ghost use Rattle.vp_runner.specs.Taking.{Takes, end_fed, end_finished};

use crate::ends::{End, Fed, RunEnd};
use crate::session::Session;
use vp_outside::{Sink, Source};

/// The most bytes that are taken: `2^62`.
const INPUT_LIMIT: u64 = 1 << 62;

/// How many bytes the next read may give: a buffer full, but no more than are left to the limit.
fn room(taken: u64) -> usize
    requires { taken < 2 ^ 62 }
    ensures some { 0 < result }
    ensures buffer { result ≤ 4096 }
    ensures limit { taken + result ≤ 2 ^ 62 }
{
    (INPUT_LIMIT - taken).min(4096) as usize
}

/// How a run ends behind a piece, if it does.
fn end_fed(fed: Fed) -> Option<RunEnd>
    ensures { result ≡ end_fed fed }
{
    match fed {
        Fed::Going => None,
        Fed::Violated => Some(RunEnd::Violated),
        Fed::BadLine { .. } => Some(RunEnd::BadLine),
        Fed::Failed | Fed::Ended(_) => Some(RunEnd::WriteFault),
    }
}

/// How a run ends behind the end of the input.
fn end_finished(end: End) -> RunEnd
    ensures { result ≡ end_finished end }
{
    match end {
        End::Done { .. } => RunEnd::Done,
        End::Violated => RunEnd::Violated,
        End::BadLine { .. } => RunEnd::BadLine,
        End::Failed | End::Ended(_) => RunEnd::WriteFault,
    }
}

/// Takes the bytes of one read, or the end of the input.
fn step<So: Source, Si: Sink>(
    session: &mut Session,
    source: &mut So,
    sink: &mut Si,
    buf: &mut [u8; 4096],
) -> Option<RunEnd>
    requires few { session.old.fed < 2 ^ 62 }
    requires going { session.old.cause ≡ None }
    ensures text { (bytes : List ℕ) → StandsFor session.old.code bytes session.old →
        Takes result session.old.code bytes session.new (So.left source.old) (So.left source.new) (Si.written sink.old) (Si.written sink.new) }
    ensures causes { AreCauses result (So.faults source.old) (So.faults source.new) (Si.faults sink.old) (Si.faults sink.new) }
    ensures code { session.new.code ≡ session.old.code }
{
    let room = room(session.fed());
    match source.read(&mut buf[..room]) {
        Ok(0) => Some(end_finished(session.finish(sink))),
        Ok(count) => end_fed(session.feed(&buf[..count], sink)),
        Err(_) => Some(RunEnd::ReadFault),
    }
}

/// Runs a session over a source, from its first byte to its end: reads pieces of at most 4,096 bytes,
/// and prints each reply before the byte behind its line is looked at. It takes no memory.
pub fn run_stream<So: Source, Si: Sink>(
    session: &mut Session,
    source: &mut So,
    sink: &mut Si,
) -> RunEnd
    requires fresh { StandsFor session.old.code [] session.old }
    // The text is that of the run over what the source had left, and the answer its verdict.
    ensures text { EndsOf (machine_of session.old.code) result (So.left source.old) (Si.written sink.old) (Si.written sink.new) }
    // It is done where no count rose and the run of what the source had left is done.
    ensures complete { ¬ Rose (So.faults source.old) (So.faults source.new) → ¬ Rose (Si.faults sink.old) (Si.faults sink.new) →
        ((bytes : List ℕ) → Tells (So.left source.old) bytes → (run (machine_of session.old.code) bytes).verdict ≡ verdict.Done) → result ≡ RunEnd.Done }
    ensures read_to_end { result ≡ RunEnd.Done → IsAtEnd (So.left source.new) }
    ensures too_much { result ≡ RunEnd.TooMuch → session.new.fed ≡ 2 ^ 62 }
    // A fault is answered only where its object's count rose; else the counts are as before. What it leaves.
    ensures causes { AreCauses (Some result) (So.faults source.old) (So.faults source.new) (Si.faults sink.old) (Si.faults sink.new) }
    ensures read_text { result ≡ RunEnd.ReadFault →
        PrintsTaken (machine_of session.old.code) (So.left source.old) (So.left source.new) (Si.written sink.old) (Si.written sink.new) }
    ensures write_text { result ≡ RunEnd.WriteFault →
        PrintsInTime (machine_of session.old.code) (So.left source.old) (So.left source.new) (Si.written sink.old) (Si.written sink.new) }
    ensures code { session.new.code ≡ session.old.code }
{
    let mut buf = [0; 4096];
    'reads: while session.fed() < INPUT_LIMIT {
        if let Some(end) = step(session, source, sink, &mut buf) {
            return end;
        }
    }
    RunEnd::TooMuch
}
