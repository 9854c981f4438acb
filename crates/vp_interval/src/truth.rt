//! Three truths, and what an interval tells of a number's sign.
ghost use Rattle.std.specs.Prelude.{◌≡◌, ◌↔◌, IsTrue, pos};
ghost use Rattle.vp_terms.specs.Rational.{Rational, whole};
ghost use Rattle.vp_terms.specs.Meaning.{compares};
ghost use Rattle.vp_terms.specs.declared.formula.Cmp.TheVariants as cmp;
ghost use Rattle.vp_interval.specs.Interval.{ends};
ghost use Rattle.vp_interval.specs.Represents.{Represents};
ghost use Rattle.vp_interval.specs.Truth.{Tells, least, greatest, at_least_zero, above_zero, equal_to_zero};

use crate::Interval;
use vp_words::{Word, ge, gt, same};

/// What is known of a statement about the values that boxes represent.
#[derive(Clone, Copy, PartialEq, Eq, PartialOrd, Ord, Debug)]
pub enum Truth {
    /// It holds for none of them.
    No,
    /// Nothing.
    Maybe,
    /// It holds for all of them.
    Yes,
}

impl Truth {
    /// Whether it is `Yes`.
    pub fn is_yes(self) -> bool
        ensures { IsTrue result ↔ (self ≡ Truth.Yes) }
    {
        matches!(self, Truth::Yes)
    }

    /// The truth that both statements hold: the lesser of the two.
    pub fn and(self, other: Truth) -> Truth
        ensures { result ≡ least self other }
    {
        match (self, other) {
            (Truth::No, _) | (_, Truth::No) => Truth::No,
            (Truth::Maybe, _) | (_, Truth::Maybe) => Truth::Maybe,
            (Truth::Yes, Truth::Yes) => Truth::Yes,
        }
    }

    /// The truth that one of them holds: the greater of the two.
    pub fn or(self, other: Truth) -> Truth
        ensures { result ≡ greatest self other }
    {
        match (self, other) {
            (Truth::Yes, _) | (_, Truth::Yes) => Truth::Yes,
            (Truth::Maybe, _) | (_, Truth::Maybe) => Truth::Maybe,
            (Truth::No, Truth::No) => Truth::No,
        }
    }
}

impl Interval {
    /// Whether what the interval represents is at least 0.
    pub fn at_least_zero(&self) -> Truth
        ensures exact { result ≡ at_least_zero (ends self.now) }
        ensures meaning { (q : Rational) → Represents (ends self.now) q →
            Tells result (compares cmp.Ge q (whole (pos 0))) }
    {
        if ge(self.lo, Word::ZERO) {
            Truth::Yes
        } else if gt(Word::ZERO, self.hi) {
            Truth::No
        } else {
            Truth::Maybe
        }
    }

    /// Whether it is above 0.
    pub fn above_zero(&self) -> Truth
        ensures exact { result ≡ above_zero (ends self.now) }
        ensures meaning { (q : Rational) → Represents (ends self.now) q →
            Tells result (compares cmp.Gt q (whole (pos 0))) }
    {
        if gt(self.lo, Word::ZERO) {
            Truth::Yes
        } else if ge(Word::ZERO, self.hi) {
            Truth::No
        } else {
            Truth::Maybe
        }
    }

    /// Whether it is 0.
    pub fn equal_to_zero(&self) -> Truth
        ensures exact { result ≡ equal_to_zero (ends self.now) }
        ensures meaning { (q : Rational) → Represents (ends self.now) q →
            Tells result (compares cmp.Eq q (whole (pos 0))) }
    {
        if same(self.lo, Word::ZERO) && same(self.hi, Word::ZERO) {
            Truth::Yes
        } else if gt(self.lo, Word::ZERO) || gt(Word::ZERO, self.hi) {
            Truth::No
        } else {
            Truth::Maybe
        }
    }
}
