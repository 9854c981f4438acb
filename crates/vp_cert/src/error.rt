//! Why a certificate is refused.
use vp_poly::{Mono, PolyErr};

/// Why a certificate doesn't refute a case, in the order in which it is told.
#[derive(Clone, Copy, Debug, PartialEq, Eq)]
pub enum CertErr {
    /// A label is none of the case's, or its atom isn't of the kind that the term asks for.
    Label,
    /// The first term isn't a positive number times strict atoms.
    NotStrict,
    /// An expression is over, or a bound of `docs/certificates.md` is passed.
    Wide,
    /// The sum of all terms has a coefficient that isn't 0.
    NotZero {
        /// The first monomial with one, in the order of `docs/polynomials.md`.
        monomial: Mono,
        /// Its coefficient.
        coefficient: i128,
    },
    /// There was too little memory for the sum.
    Memory,
}

impl From<PolyErr> for CertErr {
    ghost use Rattle.std.specs.Prelude.{◌≡◌};
    ghost use Rattle.vp_cert.specs.Refusals.{from_poly};

    ghost from_gives = { λ p e. e ≡ from_poly p };

    fn from(error: PolyErr) -> CertErr {
        match error {
            PolyErr::Wide => CertErr::Wide,
            PolyErr::Memory => CertErr::Memory,
        }
    }
}

/// Why the certificate that is due for a case isn't taken.
#[derive(Clone, Copy, Debug, PartialEq, Eq)]
pub enum CertWhy {
    /// The next certificate is none of that case, or there is none.
    Missing,
    /// It is there and doesn't refute the case.
    Wrong(CertErr),
}
