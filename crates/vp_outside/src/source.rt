ghost use Rattle.std.specs.Prelude.{◌<◌, ◌^◌, List, Option, ℕ, length};
ghost use Rattle.std.specs.Io.{ReadsAtMost};
ghost use Rattle.std.specs.Io.KnownBytes.{ReadConsumes};
ghost use Rattle.vp_outside.specs.Causes.{HasCause};

use crate::Failed;

/// Gives bytes in order.
pub trait Source {
    /// The bytes that are left; `None` where the source does not tell them.
    ghost left: { Self → Option (List ℕ) };

    /// How often it has failed. The count never falls, stays at `u64::MAX`, and an `Ok` leaves it.
    ghost faults: { Self → ℕ };

    /// Reads into the front of the buffer, which is not empty, and answers how many bytes it gave.
    /// `Ok(0)` is the end of the input. After `Failed` the bytes that were left are left still.
    fn read(&mut self, buf: &mut [u8]) -> Result<usize, Failed>
        requires { 0 < length buf.old }
        ensures bound { ReadsAtMost result buf.new }
        ensures bytes { ReadConsumes (left self.old) (left self.new) result buf.new }
        ensures cause { HasCause (faults self.old) (faults self.new) result };

    /// A `u64` holds the count.
    ghost bounded: { (source : Self) → faults source < 2 ^ 64 };
}
