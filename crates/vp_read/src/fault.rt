//! Why a text is no package.
ghost use Rattle.std.specs.Prelude.{◌≡◌};
ghost use Rattle.vp_read.specs.declared.fault.ReadErr.TheVariants.{Memory};

use std::alloc::{AllocError, AllocFailed};
use vp_lex::LexErr;
use vp_terms::NameText;

/// Why a text is no package: the first condition that holds, in this order over the whole text. They
/// are described in `docs/package.md`.
#[derive(Debug, Drop)]
pub enum ReadErr {
    /// The byte at this place, from 0, is the first that is in no token.
    Lex { at: u32 },
    /// The first refused number begins at this byte: a part of its fraction is 2^62 or more, or its
    /// denominator is 0.
    Number { at: u32 },
    /// The piece of this number, from 1, is the first with more than 2,048 tokens or 32 open brackets.
    /// For a part that is read alone it is 0.
    Deep { piece: u32 },
    /// The first piece that hasn't the form of the grammar, or the number behind the last piece where
    /// there are fewer than 13. For a part that is read alone it is 0.
    Section { piece: u32 },
    /// The names make this many variables, which is more than 32.
    Names { count: u32 },
    /// This is the first name that is declared a second time.
    Twice { name: NameText },
    /// This piece has this many entries, and not one for each state or control.
    Entries { piece: u32, count: u32 },
    /// This name, next name or `tau` may not stand in this piece, or isn't the one that is due there. A
    /// next name has its `@`. For a part that is read alone the piece is 0.
    Undeclared { name: NameText, piece: u32 },
    /// There was too little memory.
    Memory,
}

impl From<LexErr> for ReadErr {
    ghost use Rattle.vp_read.specs.Faults.{of_lex};

    ghost from_gives = { λ e f. f ≡ of_lex e };

    fn from(e: LexErr) -> ReadErr {
        match e {
            LexErr::Byte { at } => ReadErr::Lex { at },
            LexErr::Memory => ReadErr::Memory,
        }
    }
}

impl From<AllocError> for ReadErr {
    ghost from_gives = { λ _ e. e ≡ Memory };

    fn from(_e: AllocError) -> ReadErr {
        ReadErr::Memory
    }
}

impl<T: Drop> From<AllocFailed<T>> for ReadErr {
    ghost from_gives = { λ _ e. e ≡ Memory };

    fn from(_e: AllocFailed<T>) -> ReadErr {
        ReadErr::Memory
    }
}
