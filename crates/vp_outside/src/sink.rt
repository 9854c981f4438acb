ghost use Rattle.std.specs.Prelude.{◌<◌, ◌^◌, List, Option, ℕ, length, OnOk, OnErr};
ghost use Rattle.std.specs.Io.KnownBytes.{Appends, WriteAppends};
ghost use Rattle.vp_outside.specs.Causes.{HasCause};
ghost use Rattle.vp_outside.specs.Content.{AppendsPart, TakesSome};

use crate::Failed;

/// Takes bytes in order.
pub trait Sink {
    /// The bytes that were written; `None` where the sink does not tell them.
    ghost written: { Self → Option (List ℕ) };

    /// How often it has failed. The count never falls, stays at `u64::MAX`, and an `Ok` leaves it.
    ghost faults: { Self → ℕ };

    /// Writes a front of the piece, which is not empty, and answers how many bytes it took, at least one.
    /// After `Failed` nothing was appended.
    fn write(&mut self, piece: &[u8]) -> Result<usize, Failed>
        requires { 0 < length piece.now }
        ensures bound { TakesSome result piece.now }
        ensures bytes { WriteAppends (written self.old) (written self.new) result piece.now }
        ensures cause { HasCause (faults self.old) (faults self.new) result };

    /// A `u64` holds the count.
    ghost bounded: { (sink : Self) → faults sink < 2 ^ 64 };
}

/// Writes the whole piece, in as many writes as the sink needs. After `Failed` a front of the piece
/// was appended that is not all of it. `Ok` means that no write failed.
pub fn write_all<S: Sink>(sink: &mut S, piece: &[u8]) -> Result<(), Failed>
    ensures ok { OnOk result (Appends (S.written sink.old) (S.written sink.new) piece.now) }
    ensures err { OnErr result (AppendsPart (S.written sink.old) (S.written sink.new) piece.now) }
    ensures cause { HasCause (S.faults sink.old) (S.faults sink.new) result }
{
    let mut done = 0;
    while done < piece.len() {
        done += sink.write(&piece[done..])?;
    }
    Ok(())
}
