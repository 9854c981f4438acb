//! Why no tree is read.
ghost use Rattle.std.specs.Prelude.{◌≡◌};
ghost use Rattle.vp_grammar.specs.declared.fault.ParseErr.TheVariants.{Memory};

use std::alloc::{AllocError, AllocFailed};

/// Why no tree is read.
#[derive(Clone, Copy, Debug, PartialEq, Eq)]
pub enum ParseErr {
    /// The terminals don't have the form of the grammar.
    Form,
    /// There was too little memory for the tree.
    Memory,
}

impl From<AllocError> for ParseErr {
    ghost from_gives = { λ _ e. e ≡ Memory };

    fn from(_e: AllocError) -> ParseErr {
        ParseErr::Memory
    }
}

impl<T: Drop> From<AllocFailed<T>> for ParseErr {
    ghost from_gives = { λ _ e. e ≡ Memory };

    fn from(_e: AllocFailed<T>) -> ParseErr {
        ParseErr::Memory
    }
}
