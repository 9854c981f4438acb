ghost use Rattle.std.specs.Prelude.{◌≡◌, [], Some, map, IsErrOf, IfNone, IfSome, OnSome, OnOk, OnErr};
ghost use Rattle.vp_outside.specs.Causes.{HasLoadCause};
ghost use Rattle.vp_outside.specs.Counts.{next_count, held_count, held_count-bounded};
ghost use Rattle.vp_outside.specs.Content.{Stays};
ghost use Rattle.vp_outside.specs.Files.{file_of};
ghost use Rattle.vp_outside.specs.Loading.{file_named, IsLookup, Loads, FillsUpTo};
ghost use Rattle.vp_outside.specs.Planned.{IsDueToFail};

use crate::{Files, Listed, LoadErr, Loaded, Store, Text};
use std::alloc::Global;

/// Named files. Call number k, from 0, fails where k stands in `fails` or no file has the name.
/// Every call counts, whatever it answers.
#[derive(Debug, Drop)]
pub struct MemStore {
    /// The files, of which the first with a name counts.
    pub files: Files,
    /// The numbers of the calls that fail.
    pub fails: Listed<u64>,
    /// How many calls there were; stays at `u64::MAX`.
    pub calls: u64,
    /// How many calls failed; stays at `u64::MAX`.
    pub faults: u64,
    /// The name whose load failed last.
    pub failed: Text,
}

/// The content of the first file with the name.
fn find_file<'a>(files: &'a [(String, Vec<u8>)], name: &str) -> Option<&'a [u8]>
    ensures { IsLookup result (file_named name.now (map file_of files.now)) }
{
    for file in files {
        if file.0.as_str() == name {
            return Some(file.1.as_slice());
        }
    }
    None
}

/// The content that a load gives by plan; `None` where it fails.
fn planned_file<'a>(
    files: &'a [(String, Vec<u8>)],
    fails: &[u64],
    call: u64,
    name: &str,
) -> Option<&'a [u8]>
    ensures none { IfNone result
        (IsDueToFail fails.now call (file_named name.now (map file_of files.now))) }
    ensures some { OnSome result
        (¬ IsDueToFail fails.now call (file_named name.now (map file_of files.now))) }
    ensures content { IfSome result
        (λ bytes. file_named name.now (map file_of files.now) ≡ Some bytes.now) }
{
    if fails.contains(&call) {
        return None;
    }
    find_file(files, name)
}

impl Store for MemStore {
    ghost files = { λ s. Some s.files };

    ghost faults = { λ s. held_count s.faults };

    ghost failed = { λ s. s.failed };

    ghost bounded = { λ s. held_count-bounded s.faults };

    fn load(
        &mut self,
        alloc: Global,
        name: &str,
        max: u32,
        into: &mut Vec<u8>,
    ) -> Result<Loaded, LoadErr>
        ensures files { Stays (Some self.old.files) (Some self.new.files) }
        ensures content { Loads (file_named name.now self.old.files) max result into.new.items }
        ensures bound { FillsUpTo max result into.new.items }
        ensures cause { HasLoadCause (held_count self.old.faults) (held_count self.new.faults)
            self.old.failed self.new.failed name.now result }

        // A load fails exactly by its plan, but that it may find no memory in place of any answer.
        ensures fails { IsErrOf result LoadErr.Failed →
            IsDueToFail self.old.fails self.old.calls (file_named name.now self.old.files) }
        ensures loads { OnOk result
            (¬ IsDueToFail self.old.fails self.old.calls (file_named name.now self.old.files)) }

        ensures ok { OnOk result (self.new ≡ record self.old { calls = next_count self.old.calls }) }
        ensures failed { IsErrOf result LoadErr.Failed → self.new ≡ record self.old {
          calls = next_count self.old.calls;
          faults = next_count self.old.faults;
          failed = name.now;
        } }
        ensures memory { IsErrOf result LoadErr.Memory →
            self.new ≡ record self.old { calls = next_count self.old.calls } }
        ensures emptied { OnErr result (into.new.items ≡ []) }
    {
        into.clear();
        let call = self.calls;
        self.calls = call.saturating_add(1);
        let copy = String::from_str(alloc, name)?;
        let Some(bytes) = planned_file(self.files.get(), self.fails.get(), call, name) else {
            self.faults = self.faults.saturating_add(1);
            self.failed = Text::of(copy);
            return Err(LoadErr::Failed);
        };
        if bytes.len() > max as usize {
            return Ok(Loaded::TooLong);
        }
        into.extend_from_slice(bytes)?;
        Ok(Loaded::Whole)
    }
}
