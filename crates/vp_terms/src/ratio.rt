//! Fractions in lowest terms.
ghost use Rattle.std.specs.Prelude.{◌≡◌, ◌^◌, ◌<◌, ℤ, pos, ◌*ℤ◌, ◌<ℤ◌, unsigned_abs, IsSome, MatchOption};
ghost use Rattle.vp_terms.specs.Lowest.{IsLowest};

use crate::Cmp;
use crate::number::{difference, fraction, gcd, orders, product, sum, with_sign_of};

/// A fraction in lowest terms: the denominator is at least 1, only 1 divides both parts, and both
/// are below 2^62 in size. So two fractions are the same exactly where they have the same value.
#[derive(Clone, Copy, Debug, PartialEq, Eq)]
pub struct Ratio {
    /// The numerator, with the sign.
    pub num: i128,
    /// The denominator.
    pub den: i128,
    pub ghost lowest: { IsLowest num den },
}

// No part is as large as this.
const LIMIT: u128 = 1 << 62;

impl Ratio {
    ghost use Rattle.std.specs.Prelude.{◌≡◌, ◌^◌, ◌<◌, ℕ, ℤ, pos, ◌*ℤ◌, ◌<ℤ◌, unsigned_abs, IsSome, IfSome, MatchOption, ◌↔◌};
    ghost use Rattle.vp_terms.specs.Number.{number};
    ghost use Rattle.vp_terms.specs.Ratios.{IsQuotient, IsNumber};
    ghost use Rattle.vp_terms.specs.Rational.{Equals, sum, difference, product, power};
    ghost use Rattle.vp_terms.specs.Meaning.{rational, compares};
    ghost use Rattle.vp_terms.specs.Evaluation.{IsResult, PowersAreSmall};

    /// The number that a text writes: digits, digits `/` digits, or digits `.` digits. None where
    /// the text is no such token, where a denominator is 0, and where a part of the fraction as it
    /// is written is 2^62 or more; of a decimal these parts are the number of all its digits and
    /// the power of ten under it.
    pub fn of_text(text: &[u8]) -> Option<Ratio>
        ensures { MatchOption result (number text.now ≡ None) (IsNumber text.now) }
    {
        let (num, den) = fraction(text)?;
        Ratio::reduced(num as i128, den as i128)
    }

    /// The fraction num / den in lowest terms. None exactly where its lowest terms are not below 2^62 in size.
    pub fn reduced(num: i128, den: i128) -> Option<Ratio>
        requires { pos 0 <ℤ den }
        ensures exact { MatchOption result ((r : Ratio) → ¬ IsQuotient num den r) (IsQuotient num den) }
        ensures small { unsigned_abs num < 2 ^ 62 → unsigned_abs den < 2 ^ 62 → IsSome result }
    {
        let above = num.unsigned_abs();
        let under = den.unsigned_abs();
        let divisor = gcd(above, under);
        let size = above / divisor;
        let below = under / divisor;
        if size >= LIMIT || below >= LIMIT {
            return None;
        }
        let num = with_sign_of(num, size);
        let den = with_sign_of(den, below);
        Some(Ratio { num, den })
    }

    /// The sum. None exactly where its lowest terms are not below 2^62 in size.
    pub fn plus(self, other: Ratio) -> Option<Ratio>
        ensures { IsResult (sum (rational self) (rational other)) result }
    {
        let left = product(self.num, other.den);
        let right = product(other.num, self.den);
        let den = product(self.den, other.den);
        Ratio::reduced(sum(left, right), den)
    }

    /// The difference. None exactly where its lowest terms are not below 2^62 in size.
    pub fn minus(self, other: Ratio) -> Option<Ratio>
        ensures { IsResult (difference (rational self) (rational other)) result }
    {
        let left = product(self.num, other.den);
        let right = product(other.num, self.den);
        let den = product(self.den, other.den);
        Ratio::reduced(difference(left, right), den)
    }

    /// The product. None exactly where its lowest terms are not below 2^62 in size.
    pub fn times(self, other: Ratio) -> Option<Ratio>
        ensures { IsResult (product (rational self) (rational other)) result }
    {
        let num = product(self.num, other.num);
        let den = product(self.den, other.den);
        Ratio::reduced(num, den)
    }

    /// The repeated product; the power 0 is 1. None exactly where the lowest terms of it or of a
    /// lower power are not below 2^62 in size.
    pub fn to_power(self, exponent: u32) -> Option<Ratio>
        ensures exact { IfSome result (λ r. Equals (rational r) (power (rational self) exponent)) }
        ensures small { IsSome result ↔ PowersAreSmall (rational self) exponent }
    {
        match exponent {
            0 => Some(Ratio { num: 1, den: 1 }),
            _ => self.times(self.to_power(exponent - 1)?),
        }
    }

    /// Whether the two values compare so.
    pub fn compares(self, cmp: Cmp, other: Ratio) -> bool
        ensures { result ≡ compares cmp (rational self) (rational other) }
    {
        let left = product(self.num, other.den);
        let right = product(other.num, self.den);
        orders(cmp, left, right)
    }
}
