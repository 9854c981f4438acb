//! Monomials and terms.

ghost use Rattle.std.specs.Prelude.{◌≡◌, ◌+◌, ◌<◌, sum, pos, ◌*ℤ◌, FitsSigned};
ghost use Rattle.std.proofs.Common.{rules};
ghost use Rattle.std.specs.Int.{w128};
ghost use Rattle.std.specs.Cmp.{partial_order_from_own_ties};
ghost use Rattle.std.specs.Cmp.Rules.{comparing};
ghost use Rattle.std.specs.Cmp.Lexicographic.{slice_cmp};
ghost use Rattle.std.specs.Ordering.{int_eq, nat_cmp, on, flip_args, then_cmp, as_partial_cmp};

use std::cmp::Ordering;

/// The exponent of each variable's place.
#[derive(Clone, Copy, Debug, PartialEq, Eq)]
pub struct Mono {
    /// The exponents, by place.
    pub powers: [u8; 32],
}

/// A monomial with its coefficient.
#[derive(Clone, Copy, Debug, PartialEq, Eq)]
pub struct Term {
    /// The monomial.
    pub mono: Mono,
    /// The coefficient.
    pub coef: i128,
}

impl Mono {
    /// The sum of all exponents.
    pub fn degree(&self) -> u32
        ensures { result ≡ sum self.now.powers }
    {
        let mut total = 0;
        for power in &self.powers {
            total += u32::from(*power);
        }
        total
    }
}

/// The greater degree stands first, and then the greater power at the first place that differs.
impl Ord for Mono {
    ghost use Rattle.vp_poly.specs.Poly.{mono_cmp};

    ghost cmp = { mono_cmp };

    ghost total = { Prim.search (comparing, rules) };

    ghost matches_partial_cmp = { Prim.search (comparing, rules) };

    ghost matches_eq = { Prim.search (comparing, rules) };

    fn cmp(&self, other: &Mono) -> Ordering {
        other
            .degree()
            .cmp(&self.degree())
            .then(other.powers.cmp(&self.powers))
    }
}

impl PartialOrd for Mono {
    ghost use Rattle.vp_poly.specs.Poly.{mono_cmp};

    ghost partial_cmp = { as_partial_cmp mono_cmp };

    ghost laws = { partial_order_from_own_ties (Prim.search (comparing, rules)) (Prim.search (comparing, rules)) };

    fn partial_cmp(&self, other: &Mono) -> Option<Ordering> {
        Some(self.cmp(other))
    }
}

impl Mono {
    ghost use Rattle.vp_poly.specs.Product.{added};

    /// The product of the two monomials.
    #[tactic(auto, using(crate::proofs::RowLaws::added_each))]
    pub(crate) fn times(&self, other: &Mono) -> Mono
        requires { sum self.now.powers + sum other.now.powers < 256 }
        ensures { result.powers ≡ added self.now.powers other.now.powers }
    {
        let mut powers = self.powers;
        for k in 0..32 {
            powers[k] += other.powers[k];
        }
        Mono { powers }
    }
}

impl Mono {
    ghost use Rattle.vp_poly.specs.Places.{IsRenaming};
    ghost use Rattle.vp_poly.specs.Renaming.{moved};

    // The exponent of each place k at the place `to[k]`.
    #[tactic(auto, using(crate::proofs::Moving::moving))]
    fn moved(&self, to: &[u8; 32]) -> Mono
        requires { IsRenaming to.now }
        ensures { result.powers ≡ moved to.now self.now.powers }
    {
        let mut powers = [0; 32];
        for k in 0..32 {
            powers[to[k] as usize] = self.powers[k];
        }
        Mono { powers }
    }
}

impl Term {
    ghost use Rattle.vp_poly.specs.Product.{term_product};
    ghost use Rattle.vp_poly.specs.Places.{IsRenaming};
    ghost use Rattle.vp_poly.specs.Renaming.{term_moved};

    /// The term with its exponents moved: that of each place k stands at the place `to[k]`.
    pub(crate) fn moved(&self, to: &[u8; 32]) -> Term
        requires { IsRenaming to.now }
        ensures { result ≡ term_moved to.now self.now }
    {
        Term {
            mono: self.mono.moved(to),
            coef: self.coef,
        }
    }

    pub(crate) fn is_zero(&self) -> bool
        ensures { result ≡ int_eq self.now.coef (pos 0) }
    {
        self.coef == 0
    }

    /// The product of the two terms.
    pub(crate) fn times(&self, other: &Term) -> Term
        requires low { sum self.now.mono.powers + sum other.now.mono.powers < 256 }
        requires fits { FitsSigned w128 (self.now.coef *ℤ other.now.coef) }
        ensures { result ≡ term_product self.now other.now }
    {
        Term {
            mono: self.mono.times(&other.mono),
            coef: self.coef * other.coef,
        }
    }
}
