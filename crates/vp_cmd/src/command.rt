//! The top call.
ghost use Rattle.std.specs.Prelude.{[], ◌≡◌, ◌≢◌, ◌⊎◌, false, true};
ghost use Rattle.std.specs.Io.KnownBytes.{IsAtEnd};
ghost use Rattle.vp_isa.specs.Answering.{machine_of};
ghost use Rattle.vp_runner.specs.Ends.{PrintsInTime, PrintsTaken};
ghost use Rattle.vp_runner.specs.Sessions.{StandsFor};
ghost use Rattle.vp_cmd.specs.Clauses.{Answers, Completes, Fulfils, IsAnswered, IsCaused, IsOwnName, IsUnopened, LeavesInTime, LeavesTaken, NoFault, Shows};
ghost use Rattle.vp_cmd.specs.Commands.{chosen, reads_input, texts};
ghost use Rattle.vp_cmd.specs.Dues.{IsOwed};
ghost use Rattle.vp_cmd.specs.Printed.{IsPrinted};
ghost use Rattle.vp_cmd.specs.Steps.{IsStreamed, Prints, RunsOver, status_at};

use crate::opening::{Halt, Task, open};
use crate::outcome::Outcome;
use crate::status::Status;
use std::alloc::Global;
use vp_outside::{Sink, Source, Store, write_all};
use vp_runner::{RunEnd, Session, run_stream};

const USAGE: &[u8] =
    b"usage: vphy check P | compile P | exec I | run P | list P | log P C | selftest SEED N | demo\n";

/// Prints a text under a status.
fn print<Si: Sink>(out: &mut Si, status: Status, text: &[u8]) -> Status
    requires { IsPrinted status }
    ensures text { Prints (record { status = status; text = text.now }) result (Si.written out.old) (Si.written out.new) }
    ensures cause { IsCaused Status.WriteFault result (Si.faults out.old) (Si.faults out.new) }
{
    match write_all(out, text) {
        Ok(()) => status,
        Err(_) => Status::WriteFault,
    }
}

/// Prints what is due.
fn print_due<Si: Sink>(out: &mut Si, due: Outcome) -> Status
    ensures printed { IsPrinted due.status }
    ensures text { Prints due result (Si.written out.old) (Si.written out.new) }
    ensures cause { IsCaused Status.WriteFault result (Si.faults out.old) (Si.faults out.new) }
{
    print(out, due.status, &due.text)
}

fn status_at(end: RunEnd) -> Status
    ensures { result ≡ status_at end }
{
    match end {
        RunEnd::Done => Status::Done,
        RunEnd::Violated => Status::Violation,
        RunEnd::BadLine => Status::BadLine,
        RunEnd::ReadFault => Status::ReadFault,
        RunEnd::WriteFault => Status::WriteFault,
        RunEnd::TooMuch => Status::TooMuch,
    }
}

/// Runs a new session over the input.
fn stream<So: Source, Si: Sink>(mut session: Session, input: &mut So, out: &mut Si) -> Status
    requires { StandsFor session.code [] session }
    ensures content { RunsOver session.code result (So.left input.old) (Si.written out.old) (Si.written out.new) }
    ensures streamed { IsStreamed result }
    ensures read_to_end { result ≡ Status.Done → IsAtEnd (So.left input.new) }
    ensures read_cause { IsCaused Status.ReadFault result (So.faults input.old) (So.faults input.new) }
    ensures read_text { result ≡ Status.ReadFault →
        PrintsTaken (machine_of session.code) (So.left input.old) (So.left input.new) (Si.written out.old) (Si.written out.new) }
    ensures write_cause { IsCaused Status.WriteFault result (Si.faults out.old) (Si.faults out.new) }
    ensures write_text { result ≡ Status.WriteFault →
        PrintsInTime (machine_of session.code) (So.left input.old) (So.left input.new) (Si.written out.old) (Si.written out.new) }
{
    status_at(run_stream(&mut session, input, out))
}

/// Does what the words after the program's name say, and answers the exit status. The commands and
/// all that they print are described in `docs/commands.md`.
pub fn vphy<St: Store, So: Source, Si: Sink>(
    alloc: Global,
    words: &[String],
    store: &mut St,
    input: &mut So,
    out: &mut Si,
) -> Status
    // The status and the bytes are those of something that is due, or memory ran out and nothing was
    // written, or something outside failed. Where no count of faults rose, nothing outside failed.
    ensures content { Fulfils (IsOwed (St.files store.old) (So.left input.old) (chosen (texts words.now)))
        result (Si.written out.old) (Si.written out.new) }
    ensures complete { NoFault (St.faults store.old) (St.faults store.new)
        (So.faults input.old) (So.faults input.new) (Si.faults out.old) (Si.faults out.new) →
        Completes (IsOwed (St.files store.old) (So.left input.old) (chosen (texts words.now)))
        result (Si.written out.old) (Si.written out.new) }

    // Where `check` is done, the invariant of its package is inductive, and its model keeps its claim. Where
    // `compile` or `demo` is, the bytes are the image of a code that runs as the package's sandbox does.
    ensures shows { result ≡ Status.Done → Shows (St.files store.old) (chosen (texts words.now))
        (Si.written out.old) (Si.written out.new) }

    // Where `exec` or `run` has answered, the bytes are the text of the code's run over the input. That of
    // `run` runs as the package's sandbox does. It guards the model: over every input each history that the
    // records before a violation represent is a sampled run, safe at each sensing, and no monitor that is
    // Yes is reported.
    ensures answers { reads_input (chosen (texts words.now)) ≡ true → IsAnswered result →
        Answers (St.files store.old) (chosen (texts words.now)) result
        (So.left input.old) (Si.written out.old) (Si.written out.new) }

    // A fault is answered only where its object's count rose; else that count is as it was.
    ensures store_cause { IsCaused Status.StoreFault result (St.faults store.old) (St.faults store.new) }
    ensures read_cause { IsCaused Status.ReadFault result (So.faults input.old) (So.faults input.new) }
    ensures write_cause { IsCaused Status.WriteFault result (Si.faults out.old) (Si.faults out.new) }

    // What a fault leaves, and which objects it can be of.
    ensures store_name { result ≡ Status.StoreFault → IsOwnName (St.files store.old) (chosen (texts words.now)) (St.failed store.new) }
    ensures kept_name { result ≢ Status.StoreFault → St.failed store.new ≡ St.failed store.old }
    ensures read_text { result ≡ Status.ReadFault → LeavesTaken (St.files store.old) (chosen (texts words.now))
        (So.left input.old) (So.left input.new) (Si.written out.old) (Si.written out.new) }
    ensures write_text { result ≡ Status.WriteFault → (input.new ≡ input.old) ⊎ LeavesInTime (St.files store.old)
        (chosen (texts words.now)) (So.left input.old) (So.left input.new) (Si.written out.old) (Si.written out.new) }
    ensures silent { (result ≡ Status.StoreFault) ⊎ (result ≡ Status.WantOfMemory) → out.new ≡ out.old }

    // How much of the input was read.
    ensures read_to_end { result ≡ Status.Done → reads_input (chosen (texts words.now)) ≡ true → IsAtEnd (So.left input.new) }
    ensures unread { reads_input (chosen (texts words.now)) ≡ false → input.new ≡ input.old }
    ensures unopened { IsUnopened result → input.new ≡ input.old }
{
    match open(alloc, words, store) {
        Ok(Task::Usage) => print(out, Status::Usage, USAGE),
        Ok(Task::Print(due)) => print_due(out, due),
        Ok(Task::Stream(session)) => stream(session, input, out),
        Err(Halt::Due(due)) => print_due(out, due),
        Err(Halt::StoreFault) => Status::StoreFault,
        Err(Halt::WantOfMemory) => Status::WantOfMemory,
    }
}
