//! The words and their arithmetic.
ghost use Rattle.std.specs.Prelude.{◌≡◌, ◌≢◌, ◌≤◌, ◌↔◌, ◌≤ℤ◌, ◌<ℤ◌, ◌+ℤ◌, ◌*ℤ◌, pos, neg_ℤ, int_lt, not, IsTrue, IsSome, IfSome};
ghost use Rattle.std.specs.Int.{int_min, int_max};
ghost use Rattle.std.specs.Ordering.{int_eq};
ghost use Rattle.vp_words.specs.Number.{IsWord, greatest, least, inf, minus_inf, rounded_down, rounded_up, lower_sum, upper_sum, lower_product, upper_product, infinity_of, is_finite, is_infinite};
ghost use Rattle.vp_words.specs.Ends.{encloses};

use std::marker::Model;

/// A whole number of at most 2^63 - 2 in size, or one of two infinities: 64 bits in all. A contract
/// sees the `i64` that the word holds.
#[derive(Clone, Copy, PartialEq, Eq, Debug)]
pub struct Word {
    value: i64,
}

impl Model for Word {
    ghost use Rattle.std.specs.Prelude.{ℤ};
    ghost use Rattle.vp_words.specs.Number.{IsWord};

    ghost Value = { ℤ };

    ghost view = { λ w. w.value };

    ghost invariant = { λ w. IsWord w.value };

    ghost inverse = { λ z. record { value = z } };
}

impl Word {
    /// The number 0.
    pub const ZERO: Word = Word { value: 0 };

    /// The number 1.
    pub const ONE: Word = Word { value: 1 };

    /// The greatest finite word, 2^63 - 2.
    pub const GREATEST: Word = Word {
        value: i64::MAX - 1,
    };

    /// The least finite word, the negative of the greatest.
    pub const LEAST: Word = Word {
        value: 1 - i64::MAX,
    };

    /// The infinity above each number, held as 2^63 - 1.
    pub const INF: Word = Word { value: i64::MAX };

    /// The infinity below each number, held as the negative of the other.
    pub const MINUS_INF: Word = Word { value: -i64::MAX };

    /// The word that holds `value`; only `i64::MIN` has none.
    pub fn of(value: i64) -> Option<Word>
        ensures some { IsSome result ↔ IsWord value }
        ensures value { IfSome result (λ w. w ≡ value) }
    {
        if value == i64::MIN {
            None
        } else {
            Some(Word { value })
        }
    }

    /// The number that the word holds, where an infinity is 2^63 - 1 or its negative.
    pub fn value(self) -> i64
        ensures value { result ≡ self }
        ensures range { IsWord self }
    {
        self.value
    }

    // The finite word of a size.
    pub(crate) fn finite(size: u64) -> Word
        requires { size ≤ 9_223_372_036_854_775_806 }
        ensures { result ≡ pos size }
    {
        Word { value: size as i64 }
    }

    fn is_zero(self) -> bool
        ensures { result ≡ int_eq self (pos 0) }
    {
        self == Word::ZERO
    }

    fn is_inf(self) -> bool
        ensures { result ≡ int_eq self inf }
    {
        self == Word::INF
    }

    fn is_minus_inf(self) -> bool
        ensures { result ≡ int_eq self minus_inf }
    {
        self == Word::MINUS_INF
    }

    fn is_infinite(self) -> bool
        ensures { result ≡ is_infinite self }
    {
        self.is_minus_inf() || self.is_inf()
    }

    /// Whether the word is a number, and no infinity.
    pub fn is_finite(self) -> bool
        ensures { result ≡ is_finite self }
    {
        !self.is_infinite()
    }

    // The greatest word at or below a number, where `inf` is above each number.
    fn rounded_down(exact: i128) -> Word
        ensures { result ≡ rounded_down exact }
    {
        if exact > Word::GREATEST.value as i128 {
            Word::GREATEST
        } else if exact < Word::LEAST.value as i128 {
            Word::MINUS_INF
        } else {
            Word {
                value: exact as i64,
            }
        }
    }

    // The least word at or above a number, where `-inf` is below each number.
    fn rounded_up(exact: i128) -> Word
        ensures { result ≡ rounded_up exact }
    {
        if exact > Word::GREATEST.value as i128 {
            Word::INF
        } else if exact < Word::LEAST.value as i128 {
            Word::LEAST
        } else {
            Word {
                value: exact as i64,
            }
        }
    }
}

/// The negative; `neg` of an infinity is the other one.
pub fn neg(a: Word) -> Word
    ensures { result ≡ neg_ℤ a }
{
    Word { value: -a.value }
}

/// The lesser of two words.
pub fn min(a: Word, b: Word) -> Word
    ensures { result ≡ int_min a b }
{
    if b.value < a.value { b } else { a }
}

/// The greater of two words.
pub fn max(a: Word, b: Word) -> Word
    ensures { result ≡ int_max a b }
{
    if b.value < a.value { a } else { b }
}

/// Whether `a` is at least `b`.
pub fn ge(a: Word, b: Word) -> bool
    ensures test { result ≡ not (int_lt a b) }
    ensures order { IsTrue result ↔ (b ≤ℤ a) }
{
    a.value >= b.value
}

/// Whether `a` is above `b`.
pub fn gt(a: Word, b: Word) -> bool
    ensures test { result ≡ int_lt b a }
    ensures order { IsTrue result ↔ (b <ℤ a) }
{
    a.value > b.value
}

/// Whether `a` and `b` are the same word.
pub fn same(a: Word, b: Word) -> bool
    ensures test { result ≡ int_eq a b }
    ensures equal { IsTrue result ↔ (a ≡ b) }
{
    a.value == b.value
}

/// Whether two words are the ends of an interval: `low` is at most `high` and not `inf`, and `high`
/// is not `-inf`.
pub fn encloses(low: Word, high: Word) -> bool
    ensures { result ≡ encloses low high }
{
    ge(high, low) && !low.is_inf() && !high.is_minus_inf()
}

/// The sum as a low end, rounded down: `-inf` wins over `inf`.
pub fn add_down(a: Word, b: Word) -> Word
    ensures { result ≡ lower_sum a b }
{
    if a.is_minus_inf() || b.is_minus_inf() {
        Word::MINUS_INF
    } else if a.is_inf() || b.is_inf() {
        Word::INF
    } else {
        Word::rounded_down(exact_sum(a, b))
    }
}

/// The sum as a high end, rounded up: `inf` wins over `-inf`.
pub fn add_up(a: Word, b: Word) -> Word
    ensures { result ≡ upper_sum a b }
{
    if a.is_inf() || b.is_inf() {
        Word::INF
    } else if a.is_minus_inf() || b.is_minus_inf() {
        Word::MINUS_INF
    } else {
        Word::rounded_up(exact_sum(a, b))
    }
}

/// The product as a low end, rounded down: 0 times an infinity is 0.
pub fn mul_down(a: Word, b: Word) -> Word
    ensures { result ≡ lower_product a b }
{
    if a.is_zero() || b.is_zero() {
        Word::ZERO
    } else if a.is_infinite() || b.is_infinite() {
        infinite_product(a, b)
    } else {
        Word::rounded_down(exact_product(a, b))
    }
}

/// The product as a high end, rounded up: 0 times an infinity is 0.
pub fn mul_up(a: Word, b: Word) -> Word
    ensures { result ≡ upper_product a b }
{
    if a.is_zero() || b.is_zero() {
        Word::ZERO
    } else if a.is_infinite() || b.is_infinite() {
        infinite_product(a, b)
    } else {
        Word::rounded_up(exact_product(a, b))
    }
}

fn exact_sum(a: Word, b: Word) -> i128
    ensures { result ≡ a +ℤ b }
{
    a.value as i128 + b.value as i128
}

fn exact_product(a: Word, b: Word) -> i128
    ensures { result ≡ a *ℤ b }
{
    a.value as i128 * b.value as i128
}

// The infinity with the sign of the product of two words that are not 0.
fn infinite_product(a: Word, b: Word) -> Word
    requires left { a ≢ pos 0 }
    requires right { b ≢ pos 0 }
    ensures { result ≡ infinity_of (a *ℤ b) }
{
    if (a.value < 0) == (b.value < 0) {
        Word::INF
    } else {
        Word::MINUS_INF
    }
}
