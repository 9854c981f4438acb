//! Why bytes are no image.
ghost use Rattle.std.specs.Prelude.{◌≡◌};
ghost use Rattle.vp_image.specs.declared.image.ImageErr.TheVariants.{Memory};

use std::alloc::{AllocError, AllocFailed};
use thiserror::Error;
use vp_isa::CheckErr;

/// The first reason for which bytes are no image.
#[derive(Clone, Copy, Debug, PartialEq, Eq, Error)]
pub enum ImageErr {
    /// The bytes don't begin with `VPHY`.
    #[error("magic")]
    Magic,
    /// Bytes 4 and 5 are there, and aren't the version 1: they are `n`.
    #[error("version {n}")]
    Version { n: u16 },
    /// There are fewer than 19 bytes, or not as many as the number of instructions in bytes 15 to
    /// 18 asks for: 19, 12 for each, and 64.
    #[error("length")]
    Length,
    /// The last 32 bytes aren't the SHA-256 digest of all bytes before.
    #[error("digest")]
    Digest,
    /// The 12 bytes of the instruction with the number `at`, the first of these, are no instruction.
    #[error("instr {at}")]
    Instr { at: u32 },
    /// The code breaks a rule.
    #[error("check {0}")]
    Check(CheckErr),
    /// There was too little memory for the instructions.
    #[error("out of memory")]
    Memory,
}

impl From<AllocError> for ImageErr {
    ghost from_gives = { λ _ e. e ≡ Memory };

    fn from(_e: AllocError) -> ImageErr {
        ImageErr::Memory
    }
}

impl<T: Drop> From<AllocFailed<T>> for ImageErr {
    ghost from_gives = { λ _ e. e ≡ Memory };

    fn from(_e: AllocFailed<T>) -> ImageErr {
        ImageErr::Memory
    }
}
