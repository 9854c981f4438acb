//! Why a package is refused.

use std::alloc::AllocError;
use vp_cert::CertWhy;
use vp_monitor::MonErr;
use vp_read::ReadErr;
use vp_terms::Part;

/// Why a text is refused: the first condition that holds, in the order of `docs/acceptance.md`. `Read` and
/// the others hold no want of memory.
#[derive(Debug, Drop)]
pub enum Refusal {
    /// The text is no package.
    Read(ReadErr),
    /// The package has no monitors, or an obligation has too many cases.
    Monitor(MonErr),
    /// The certificate of this case isn't taken. It is the first such case.
    Cert {
        /// The obligation of the case.
        part: Part,
        /// Its number among the cases of that obligation, from 1.
        number: u32,
        /// Why.
        why: CertWhy,
    },
    /// There are more certificates than cases.
    Extra,
    /// There was too little memory.
    Memory,
}

impl From<AllocError> for Refusal {
    ghost use Rattle.std.specs.Prelude.{◌≡◌};
    ghost use Rattle.vp_synth.specs.declared.refusal.Refusal.TheVariants.{Memory};

    ghost from_gives = { λ _ r. r ≡ Memory };

    fn from(_error: AllocError) -> Refusal {
        Refusal::Memory
    }
}

impl From<ReadErr> for Refusal {
    ghost use Rattle.std.specs.Prelude.{◌≡◌};
    ghost use Rattle.vp_synth.specs.Errors.{of_read};

    ghost from_gives = { λ e r. r ≡ of_read e };

    fn from(error: ReadErr) -> Refusal {
        match error {
            ReadErr::Memory => Refusal::Memory,
            error => Refusal::Read(error),
        }
    }
}

impl From<MonErr> for Refusal {
    ghost use Rattle.std.specs.Prelude.{◌≡◌};
    ghost use Rattle.vp_synth.specs.Errors.{of_monitors};

    ghost from_gives = { λ e r. r ≡ of_monitors e };

    fn from(error: MonErr) -> Refusal {
        match error {
            MonErr::Memory => Refusal::Memory,
            error => Refusal::Monitor(error),
        }
    }
}
