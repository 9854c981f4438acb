//! The text of numbers, and arithmetic on the parts of fractions.
ghost use Rattle.std.specs.Prelude.{◌≡◌, ◌^◌, ◌<◌, ℕ, ◌+ℤ◌, ◌-ℤ◌, ◌*ℤ◌, unsigned_abs};
ghost use Rattle.std.specs.Char.{is_ascii_digit};
ghost use Rattle.std.specs.List.{prefix_len};
ghost use Rattle.std.specs.Int.{IsGcd};
ghost use Rattle.vp_terms.specs.Lowest.{with_sign_of};
ghost use Rattle.vp_terms.specs.Order.{orders};
ghost use Rattle.vp_terms.specs.Number.{number, number_from, decimal_from, read_on, small_power};

use crate::Cmp;

// Both parts of a fraction that is read are below this.
const LIMIT: u64 = 1 << 62;

/// The fraction that a number token writes, as it stands.
#[tactic(auto, using(crate::proofs::Tokens::prefixes))]
pub(crate) fn fraction(text: &[u8]) -> Option<(u64, u64)>
    ensures { result ≡ number text.now }
{
    let (front, rest) = text.split_at(digit_count(text));
    fraction_from(front, rest)
}

// The fraction that digits with what follows them write.
#[tactic(auto, using(crate::proofs::Tokens::tokens))]
fn fraction_from(front: &[u8], rest: &[u8]) -> Option<(u64, u64)>
    ensures { result ≡ number_from front.now rest.now }
{
    let whole = read_digits(0, front)?;
    match rest {
        [] => Some((whole, 1)),
        [b'/', below @ ..] => match read_digits(0, below)? {
            0 => None,
            den => Some((whole, den)),
        },
        [b'.', decimals @ ..] => decimal_from(whole, decimals),
        _ => None,
    }
}

// The fraction of a decimal, from the number before the `.` and the digits behind it.
#[tactic(auto, using(crate::proofs::Tokens::decimals))]
fn decimal_from(whole: u64, decimals: &[u8]) -> Option<(u64, u64)>
    requires { whole < 2 ^ 62 }
    ensures { result ≡ decimal_from whole decimals.now }
{
    let num = read_digits(whole, decimals)?;
    let den = power_of_ten(decimals.len())?;
    Some((num, den))
}

// How many digits the text begins with.
fn digit_count(text: &[u8]) -> usize
    ensures { result ≡ prefix_len is_ascii_digit text.now }
{
    for (i, byte) in text.iter().enumerate() {
        if !byte.is_ascii_digit() {
            return i;
        }
    }
    text.len()
}

// The number that the digits write behind those of `before`.
#[tactic(auto, using(crate::proofs::Reading::reading))]
fn read_digits(before: u64, digits: &[u8]) -> Option<u64>
    requires { before < 2 ^ 62 }
    ensures { result ≡ read_on before digits.now }
{
    if digits.is_empty() {
        return None;
    }
    let mut number = before;
    for digit in digits {
        if !digit.is_ascii_digit() {
            return None;
        }
        let longer = number as u128 * 10 + (*digit - b'0') as u128;
        if longer >= LIMIT as u128 {
            return None;
        }
        number = longer as u64;
    }
    Some(number)
}

// The power of ten, where it is below 2^62.
#[tactic(auto, using(crate::proofs::Tens::tens))]
fn power_of_ten(exponent: usize) -> Option<u64>
    ensures { result ≡ small_power exponent }
{
    if exponent > 18 {
        return None;
    }
    Some(10_u64.pow(exponent as u32))
}

/// The number of this size with the sign of `like`.
pub(crate) fn with_sign_of(like: i128, size: u128) -> i128
    requires { size < 2 ^ 62 }
    ensures { result ≡ with_sign_of like size }
{
    let size = size as i128;
    if like < 0 { -size } else { size }
}

/// The greatest common divisor, by Euclid's algorithm.
pub(crate) fn gcd(a: u128, b: u128) -> u128
    ensures { IsGcd a b result }
{
    let mut x = a;
    let mut y = b;
    while y != 0 {
        let rest = x % y;
        x = y;
        y = rest;
    }
    x
}

/// The product of two parts.
pub(crate) fn product(a: i128, b: i128) -> i128
    requires left { unsigned_abs a < 2 ^ 62 }
    requires right { unsigned_abs b < 2 ^ 62 }
    ensures value { result ≡ a *ℤ b }
    ensures size { unsigned_abs result < 2 ^ 124 }
{
    a * b
}

/// The sum of two such products.
pub(crate) fn sum(a: i128, b: i128) -> i128
    requires left { unsigned_abs a < 2 ^ 124 }
    requires right { unsigned_abs b < 2 ^ 124 }
    ensures { result ≡ a +ℤ b }
{
    a + b
}

/// The difference of two such products.
pub(crate) fn difference(a: i128, b: i128) -> i128
    requires left { unsigned_abs a < 2 ^ 124 }
    requires right { unsigned_abs b < 2 ^ 124 }
    ensures { result ≡ a -ℤ b }
{
    a - b
}

/// Whether two whole numbers compare so.
pub(crate) fn orders(cmp: Cmp, a: i128, b: i128) -> bool
    ensures { result ≡ orders cmp a b }
{
    match cmp {
        Cmp::Le => a <= b,
        Cmp::Lt => a < b,
        Cmp::Ge => a >= b,
        Cmp::Gt => a > b,
        Cmp::Eq => a == b,
        Cmp::Ne => a != b,
    }
}
