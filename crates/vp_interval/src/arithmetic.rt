//! Sums, products and powers of intervals. The rules stand in docs/sandbox.md.
ghost use Rattle.std.specs.Prelude.{◌≡◌, ◌≤◌, ◌-◌, ◌%◌};
ghost use Rattle.vp_words.specs.Number.{lower_product, upper_product, least_product, greatest_product};
ghost use Rattle.vp_terms.specs.Rational.{Rational, sum as rational_sum, product as rational_product, power as rational_power};
ghost use Rattle.vp_interval.specs.Interval.{ends};
ghost use Rattle.vp_interval.specs.Represents.{Represents};
ghost use Rattle.vp_interval.specs.Rounding.{sum, product, power, even_power, multiplied};

use crate::Interval;
use vp_words::{Word, add_down, add_up, max, min, mul_down, mul_up, neg};

/// The sums of what the two represent.
pub fn add(v: Interval, w: Interval) -> Interval
    ensures exact { ends result ≡ sum (ends v) (ends w) }
    ensures meaning { (q r : Rational) → Represents (ends v) q → Represents (ends w) r →
        Represents (ends result) (rational_sum q r) }
{
    Interval {
        lo: add_down(v.lo, w.lo),
        hi: add_up(v.hi, w.hi),
    }
}

/// The products of what the two represent.
pub fn mul(v: Interval, w: Interval) -> Interval
    ensures exact { ends result ≡ product (ends v) (ends w) }
    ensures meaning { (q r : Rational) → Represents (ends v) q → Represents (ends w) r →
        Represents (ends result) (rational_product q r) }
{
    Interval {
        lo: least_product(&v, &w),
        hi: greatest_product(&v, &w),
    }
}

// The least of the four products of ends, rounded down.
fn least_product(v: &Interval, w: &Interval) -> Word
    ensures { result ≡ least_product v.now.lo v.now.hi w.now.lo w.now.hi }
{
    min(
        min(mul_down(v.lo, w.lo), mul_down(v.lo, w.hi)),
        min(mul_down(v.hi, w.lo), mul_down(v.hi, w.hi)),
    )
}

// The greatest of the four, rounded up.
fn greatest_product(v: &Interval, w: &Interval) -> Word
    ensures { result ≡ greatest_product v.now.lo v.now.hi w.now.lo w.now.hi }
{
    max(
        max(mul_up(v.lo, w.lo), mul_up(v.lo, w.hi)),
        max(mul_up(v.hi, w.lo), mul_up(v.hi, w.hi)),
    )
}

/// The powers with exponent `k` of what the interval represents.
pub fn pow(v: Interval, k: u8) -> Interval
    requires { 1 ≤ k }
    ensures exact { ends result ≡ power (ends v) k }
    ensures meaning { (q : Rational) → Represents (ends v) q →
        Represents (ends result) (rational_power q k) }
{
    if k == 1 {
        v
    } else if k % 2 == 0 {
        even_power(&v, k)
    } else {
        let below = even_power(&v, k - 1);
        mul(v, below)
    }
}

fn even_power(v: &Interval, k: u8) -> Interval
    requires some { 1 ≤ k }
    requires even { k % 2 ≡ 0 }
    ensures exact { ends result ≡ even_power (ends v.now) k }
    ensures meaning { (q : Rational) → Represents (ends v.now) q →
        Represents (ends result) (rational_power q k) }
{
    let least = max(max(v.lo, neg(v.hi)), Word::ZERO);
    let greatest = max(neg(v.lo), v.hi);
    Interval {
        lo: multiplied_down(least, k),
        hi: multiplied_up(greatest, k),
    }
}

// The word `k` times as a factor, from the left, each product rounded down.
fn multiplied_down(word: Word, k: u8) -> Word
    requires { 1 ≤ k }
    ensures { result ≡ multiplied lower_product word (k - 1) }
{
    let mut product = word;
    for _ in 1..k {
        product = mul_down(product, word);
    }
    product
}

// The same, each product rounded up.
fn multiplied_up(word: Word, k: u8) -> Word
    requires { 1 ≤ k }
    ensures { result ≡ multiplied upper_product word (k - 1) }
{
    let mut product = word;
    for _ in 1..k {
        product = mul_up(product, word);
    }
    product
}
