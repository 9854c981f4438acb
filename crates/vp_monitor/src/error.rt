//! Why a package has no monitors or no obligations.

use std::alloc::{AllocError, AllocFailed};
use vp_ctrl::PathErr;
use vp_poly::PolyErr;
use vp_terms::{NameList, NameText, Part};

/// A place in a package where expressions may be over (`docs/polynomials.md`).
#[derive(Clone, Copy, Debug, PartialEq, Eq)]
pub enum Place {
    /// The initial condition.
    Init,
    /// The invariant.
    Inv,
    /// What is asked.
    Safe,
    /// The controller.
    Ctrl,
    /// The flow of the state of this number, or its right side.
    Flow(u32),
    /// The bounds of the time.
    Time,
    /// The slack of the state of this number.
    Slack(u32),
    /// The domain.
    Domain,
    /// The fallback of the control of this number.
    Fallback(u32),
}

/// Why a package has no monitors, or they have no obligations: the first condition that holds, in the
/// order of `docs/monitors.md`.
#[derive(Debug, Drop)]
pub enum MonErr {
    /// At this place an expression or a comparison is over, or its comparisons have more than 65,536
    /// terms.
    Wide { place: Place },
    /// There are more than 256 paths: their number, or 2^64 - 1 where it is greater.
    Paths { count: u64 },
    /// On some path a control that `:= *` has given changes again: the first such control along the
    /// first such path.
    Hidden { name: NameText },
    /// This state's right side has degree above 1 in the states. It is the first such state.
    NotLinear { name: NameText },
    /// These states reach themselves by the uses of states in right sides.
    Cycle { names: NameList },
    /// The fallback's polynomial of this control has a denominator other than 1. It is the first
    /// such control.
    Fraction { name: NameText },
    /// This obligation has more than 256 cases, and is the first with more: their number, or
    /// 2^64 - 1 where it is greater.
    Cases { part: Part, count: u64 },
    /// There was too little memory.
    Memory,
}

impl From<AllocError> for MonErr {
    ghost use Rattle.std.specs.Prelude.{◌≡◌};
    ghost use Rattle.vp_monitor.specs.declared.error.MonErr.TheVariants.{Memory};

    ghost from_gives = { λ _ e. e ≡ Memory };

    fn from(_error: AllocError) -> MonErr {
        MonErr::Memory
    }
}

impl<T: Drop> From<AllocFailed<T>> for MonErr {
    ghost use Rattle.std.specs.Prelude.{◌≡◌};
    ghost use Rattle.vp_monitor.specs.declared.error.MonErr.TheVariants.{Memory};

    ghost from_gives = { λ _ e. e ≡ Memory };

    fn from(_error: AllocFailed<T>) -> MonErr {
        MonErr::Memory
    }
}

impl From<PathErr> for MonErr {
    ghost use Rattle.std.specs.Prelude.{◌≡◌};
    ghost use Rattle.vp_monitor.specs.Errors.{of_paths};

    ghost from_gives = { λ e f. f ≡ of_paths e };

    fn from(error: PathErr) -> MonErr {
        match error {
            PathErr::Paths { count } => MonErr::Paths { count },
            PathErr::Hidden { name } => MonErr::Hidden { name },
            PathErr::Wide => MonErr::Wide { place: Place::Ctrl },
            PathErr::Memory => MonErr::Memory,
        }
    }
}

impl MonErr {
    ghost use Rattle.std.specs.Prelude.{◌≡◌};
    ghost use Rattle.vp_monitor.specs.Errors.{of_poly};

    /// Why there is no polynomial at this place.
    pub(crate) fn at(place: Place, error: PolyErr) -> MonErr
        ensures { result ≡ of_poly place error }
    {
        match error {
            PolyErr::Wide => MonErr::Wide { place },
            PolyErr::Memory => MonErr::Memory,
        }
    }
}
