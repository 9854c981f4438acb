//! Why the flow of a package isn't given.
ghost use Rattle.std.specs.Prelude.{◌≡◌};
ghost use Rattle.vp_flow.specs.declared.error.FlowErr.TheVariants.{Memory};

use std::alloc::{AllocError, AllocFailed};
use vp_terms::{NameList, NameText};

/// Why the flow of a package isn't given: the first condition that holds, in this order. They are
/// described in `docs/monitors.md`.
#[derive(Debug, Drop)]
pub enum FlowErr {
    /// The weight of this state's right side is over the limits. It is the first such state.
    Rate { name: NameText },
    /// A monomial of this state's right side has degree above 1 in the states. It is the first such
    /// state.
    NotLinear { name: NameText },
    /// These states reach themselves by the uses of states in right sides.
    Cycle { names: NameList },
    /// The weight of this state's flow is over the limits. It is the first such state.
    Wide { name: NameText },
    /// There was too little memory.
    Memory,
}

impl From<AllocError> for FlowErr {
    ghost from_gives = { λ _ e. e ≡ Memory };

    fn from(_e: AllocError) -> FlowErr {
        FlowErr::Memory
    }
}

impl<T: Drop> From<AllocFailed<T>> for FlowErr {
    ghost from_gives = { λ _ e. e ≡ Memory };

    fn from(_e: AllocFailed<T>) -> FlowErr {
        FlowErr::Memory
    }
}
