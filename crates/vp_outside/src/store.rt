ghost use Rattle.std.specs.Prelude.{◌≡◌, ◌<◌, ◌^◌, List, Option, ℕ, IfSome};
ghost use Rattle.vp_outside.specs.Causes.{HasLoadCause};
ghost use Rattle.vp_outside.specs.Content.{Stays};
ghost use Rattle.vp_outside.specs.Loading.{NamedFile, file_named, Loads, FillsUpTo};
ghost use Rattle.vp_outside.specs.declared.store.LoadErr.TheVariants.{Memory};

use std::alloc::{AllocError, Global};

/// How a load went.
#[derive(Clone, Copy, Debug, PartialEq, Eq)]
pub enum Loaded {
    /// The whole file was loaded.
    Whole,
    /// The file is longer than the caller allows, and nothing was loaded.
    TooLong,
}

/// Why a load gave no answer.
#[derive(Clone, Copy, Debug, PartialEq, Eq)]
pub enum LoadErr {
    /// The file is not there or could not be read: a fault of the store.
    Failed,
    /// There was no memory for the name or for the content.
    Memory,
}

impl From<AllocError> for LoadErr {
    ghost from_gives = { λ _ e. e ≡ Memory };

    fn from(_: AllocError) -> LoadErr {
        LoadErr::Memory
    }
}

/// Keeps named files.
pub trait Store {
    /// The files in order, of which the first with a name counts; `None` where the store does not tell them.
    ghost files: { Self → Option (List NamedFile) };

    /// How often it has failed. The count never falls and stays at `u64::MAX`.
    ghost faults: { Self → ℕ };

    /// The name whose load failed last: a load that does not answer `Failed` leaves it, and the count.
    ghost failed: { Self → List ℕ };

    /// Empties `into` and fills it with the named file, where that has at most `max` bytes.
    /// After an `Err` the content of `into` is open.
    fn load(
        &mut self,
        alloc: Global,
        name: &str,
        max: u32,
        into: &mut Vec<u8>,
    ) -> Result<Loaded, LoadErr>
        ensures files { Stays (files self.old) (files self.new) }
        ensures content { IfSome (files self.old)
            (λ files. Loads (file_named name.now files) max result into.new.items) }
        ensures bound { FillsUpTo max result into.new.items }
        ensures cause { HasLoadCause (faults self.old) (faults self.new)
            (failed self.old) (failed self.new) name.now result };

    /// A `u64` holds the count.
    ghost bounded: { (store : Self) → faults store < 2 ^ 64 };
}
