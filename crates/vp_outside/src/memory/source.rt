ghost use Rattle.std.specs.Prelude.{◌≡◌, ◌+◌, ◌-◌, ◌<◌, ◌≤◌, ◌↔◌, min, length, drop, take, slice_get, Some, Contains, IsErr, IfOk, OnErr};
ghost use Rattle.std.specs.Io.{ReadsAtMost};
ghost use Rattle.std.specs.Io.KnownBytes.{ReadConsumes};
ghost use Rattle.vp_outside.specs.Causes.{HasCause};
ghost use Rattle.vp_outside.specs.Counts.{next_count, held_count, held_count-bounded};
ghost use Rattle.vp_outside.specs.Planned.{cut_short};

use crate::{Failed, Listed, Source};

/// Bytes to read. Call number k, from 0, fails where k stands in `fails`. Else it gives as many of
/// the bytes left as fit in the buffer, but no more than `cuts[k]`, counted as at least 1, where
/// `cuts` is so long.
#[derive(Debug, Drop)]
pub struct MemSource {
    /// All bytes, those that were read among them.
    pub bytes: Listed<u8>,
    /// How many bytes were read.
    pub at: usize,
    /// The most bytes that each call gives.
    pub cuts: Listed<u32>,
    /// The numbers of the calls that fail.
    pub fails: Listed<u64>,
    /// How many calls there were; stays at `u64::MAX`.
    pub calls: u64,
    /// How many calls failed; stays at `u64::MAX`.
    pub faults: u64,
}

/// The bytes from a place on, none past the end.
fn from_place(bytes: &[u8], at: usize) -> &[u8]
    ensures { result.now ≡ drop at bytes.now }
{
    if at < bytes.len() { &bytes[at..] } else { &[] }
}

/// No more bytes than the cut of the call allows, where there is one.
fn cut_count(cuts: &[u32], call: u64, count: usize) -> usize
    ensures cut { result ≡ cut_short (slice_get cuts.now call) count }
    ensures within { result ≤ count }
    ensures some { 0 < count → 0 < result }
{
    match cuts.get(call as usize) {
        Some(&cut) => count.min(cut.max(1) as usize),
        None => count,
    }
}

/// Copies the first `count` bytes into the front of the buffer.
fn copy_front(bytes: &[u8], buf: &mut [u8], count: usize)
    requires available { count ≤ length bytes.now }
    requires fits { count ≤ length buf.old }
    ensures copied { take count buf.new ≡ take count bytes.now }
    ensures rest { drop count buf.new ≡ drop count buf.old }
{
    buf[..count].copy_from_slice(&bytes[..count]);
}

impl Source for MemSource {
    ghost left = { λ s. Some (drop s.at s.bytes) };

    ghost faults = { λ s. held_count s.faults };

    ghost bounded = { λ s. held_count-bounded s.faults };

    fn read(&mut self, buf: &mut [u8]) -> Result<usize, Failed>
        requires { 0 < length buf.old }
        ensures bound { ReadsAtMost result buf.new }
        ensures bytes { ReadConsumes (Some (drop self.old.at self.old.bytes))
            (Some (drop self.new.at self.new.bytes)) result buf.new }
        ensures cause { HasCause (held_count self.old.faults) (held_count self.new.faults) result }
        ensures fails { IsErr result ↔ Contains self.old.fails self.old.calls }
        ensures count { IfOk result (λ n. n ≡ cut_short (slice_get self.old.cuts self.old.calls)
            (min (length self.old.bytes - self.old.at) (length buf.old))) }
        ensures ok { IfOk result (λ n. self.new ≡ record self.old {
          at = self.old.at + n;
          calls = next_count self.old.calls;
        }) }
        ensures err { OnErr result (self.new ≡ record self.old {
          calls = next_count self.old.calls;
          faults = next_count self.old.faults;
        }) }
        ensures rest { IfOk result (λ n. drop n buf.new ≡ drop n buf.old) }
        ensures untouched { OnErr result (buf.new ≡ buf.old) }
    {
        let call = self.calls;
        self.calls = call.saturating_add(1);
        if self.fails.get().contains(&call) {
            self.faults = self.faults.saturating_add(1);
            return Err(Failed);
        }
        let left = from_place(self.bytes.get(), self.at);
        let count = cut_count(self.cuts.get(), call, left.len().min(buf.len()));
        copy_front(left, buf, count);
        self.at += count;
        Ok(count)
    }
}
