//! How a run ends.
ghost use Rattle.std.specs.Prelude.{◌≡◌};
ghost use Rattle.vp_stream.specs.Run.{verdict_of};

/// How a line ends a run. The rules are in `docs/stream.md`.
#[derive(Clone, Copy, Debug, PartialEq, Eq)]
pub enum Ending {
    /// The reply to its record is a violation.
    Violated,
    /// The line is too long, or not the due record. `line` is its number, counted from 1 over all lines.
    BadLine { line: u64 },
}

/// How a run ends. The rules are in `docs/stream.md`.
#[derive(Clone, Copy, Debug, PartialEq, Eq)]
pub enum Verdict {
    /// All lines were skipped or answered, and the input ended.
    Done,
    /// The last line printed is a violation.
    Violated,
    /// The last line printed says that a line is bad: too long, or not the due record.
    BadLine,
    /// The input has `2^62` bytes or more, and the first `2^62` of them had not ended the run.
    TooMuch,
}

impl From<Ending> for Verdict {
    ghost from_gives = { λ e v. v ≡ verdict_of e };

    fn from(ending: Ending) -> Verdict {
        match ending {
            Ending::Violated => Verdict::Violated,
            Ending::BadLine { .. } => Verdict::BadLine,
        }
    }
}
