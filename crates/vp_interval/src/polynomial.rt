//! The interval of a polynomial. The rules stand in docs/sandbox.md.
ghost use Rattle.std.specs.Prelude.{◌≡◌, ◌<◌, ◌^◌, length, map, unsigned_abs, pos};
ghost use Rattle.std.specs.List.{reduce};
ghost use Rattle.std.specs.Option.{option_map};
ghost use Rattle.vp_words.specs.Number.{IsFinite};
ghost use Rattle.vp_terms.specs.Rational.{Rational};
ghost use Rattle.vp_poly.specs.Places.{IsBelow, AreBelow};
ghost use Rattle.vp_poly.specs.Value.{Point, value_at};
ghost use Rattle.vp_interval.specs.Interval.{ends};
ghost use Rattle.vp_interval.specs.Polynomial.{AreSmall, powers_of, joined, of_term, interval_of};
ghost use Rattle.vp_interval.specs.Represents.{Represents, RepresentEach};
ghost use Rattle.vp_interval.specs.Rounding.{sum, product};

use crate::{Interval, add, mul, pow};
use vp_poly::{Poly, Term};
use vp_words::Word;

/// The values of a polynomial where the values of each place stand in its box.
pub fn of_poly(p: &Poly, boxes: &[Interval]) -> Interval
    requires places { AreBelow (length boxes.now) p.now }
    requires small { AreSmall p.now }
    ensures exact { ends result ≡ interval_of (map ends boxes.now) p.now }
    ensures meaning { (x : Point) → RepresentEach (map ends boxes.now) x →
        Represents (ends result) (value_at p.now x) }
{
    let mut total = None;
    for k in 0..p.len() {
        total = Some(plus(total, of_term(&p.term(k), boxes)));
    }
    match total {
        Some(total) => total,
        None => Interval::point(Word::ZERO),
    }
}

// A further term added, if there are some already.
fn plus(total: Option<Interval>, term: Interval) -> Interval
    ensures { ends result ≡ joined sum (option_map ends total) (ends term) }
{
    match total {
        Some(total) => add(total, term),
        None => term,
    }
}

// A further factor multiplied, if there are some already.
fn times(earlier: Option<Interval>, factor: Interval) -> Interval
    ensures { ends result ≡ joined product (option_map ends earlier) (ends factor) }
{
    match earlier {
        Some(earlier) => mul(earlier, factor),
        None => factor,
    }
}

// The values of a term.
fn of_term(term: &Term, boxes: &[Interval]) -> Interval
    requires places { IsBelow (length boxes.now) term.now.mono.powers }
    requires small { unsigned_abs term.now.coef < 2 ^ 62 }
    ensures { ends result ≡ of_term (map ends boxes.now) term.now }
{
    let powers = of_powers(&term.mono.powers, boxes);
    times(powers, Interval::point(coefficient(term)))
}

// The coefficient as a word.
fn coefficient(term: &Term) -> Word
    requires { unsigned_abs term.now.coef < 2 ^ 62 }
    ensures value { result ≡ term.now.coef }
    ensures finite { IsFinite result }
{
    Word::of(term.coef as i64).unwrap()
}

// The product of the powers, if any exponent is above 0.
fn of_powers(powers: &[u8; 32], boxes: &[Interval]) -> Option<Interval>
    requires { IsBelow (length boxes.now) powers.now }
    ensures { option_map ends result ≡ reduce product (powers_of powers.now (map ends boxes.now)) }
{
    let mut total = None;
    for (place, power) in powers.iter().enumerate() {
        if *power > 0 {
            total = Some(times(total, pow(boxes[place], *power)));
        }
    }
    total
}
