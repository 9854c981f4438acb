ghost use Rattle.std.specs.Prelude.{◌≡◌, ◌<◌, ◌^◌, IfOk, length};
ghost use Rattle.vp_poly.specs.Poly.{IsPoly, norm};
ghost use Rattle.vp_logic.specs.Tree.{tree};
ghost use Rattle.vp_interval.specs.Formula.{FormFits};

use std::alloc::Global;
use std::process::Abort;
use std::test::Fail;
use vp_interval::{Interval, Truth, add, first_not_yes, mul, of_poly, pow, truth_of};
use vp_logic::{Atom, Norm, Norms, Rel};
use vp_poly::{Mono, Poly, Term};
use vp_words::{Word, read_word};

type Pair = (&'static str, &'static str);

fn word(text: &str) -> Result<Word, Fail> {
    match text {
        "fin" => Ok(Word::GREATEST),
        "-fin" => Ok(Word::LEAST),
        number => Ok(read_word(number.as_bytes())?),
    }
}

fn interval((lo, hi): Pair) -> Result<Interval, Fail> {
    Ok(Interval::of(word(lo)?, word(hi)?).ok_or("no interval")?)
}

#[test]
fn ends_of_intervals(rt: HostRuntime) -> Result<(), Fail> {
    let rows = [
        ("500", "502", true),
        ("502", "500", false),
        ("7", "7", true),
        ("inf", "inf", false),
        ("-inf", "-inf", false),
        ("-inf", "inf", true),
        ("-inf", "502", true),
    ];
    for (lo, hi, valid) in rows {
        assert_eq!(rt;
            Interval::of(word(lo)?, word(hi)?).is_some(),
            valid,
            "{lo} {hi}"
        );
    }
    Ok(())
}

#[test]
fn sums_and_products(rt: HostRuntime) -> Result<(), Fail> {
    let sums = [
        (("500", "502"), ("-62", "-62"), ("438", "440")),
        (("fin", "fin"), ("0", "fin"), ("fin", "inf")),
        (("-inf", "1"), ("2", "inf"), ("-inf", "inf")),
    ];
    for (v, w, sum) in sums {
        assert_eq!(rt;
            add(interval(v)?, interval(w)?),
            interval(sum)?,
            "{v:?} {w:?}"
        );
    }
    let products = [
        (("0", "0"), ("-inf", "inf"), ("0", "0")),
        (("1", "inf"), ("-inf", "-1"), ("-inf", "-1")),
        (("fin", "fin"), ("2", "2"), ("fin", "inf")),
        (("-fin", "-fin"), ("2", "2"), ("-inf", "-fin")),
    ];
    for (v, w, product) in products {
        assert_eq!(rt;
            mul(interval(v)?, interval(w)?),
            interval(product)?,
            "{v:?} {w:?}"
        );
    }
    Ok(())
}

#[test]
fn powers(rt: HostRuntime) -> Result<(), Fail> {
    let rows = [
        (("-3", "2"), 1, ("-3", "2")),
        (("-3", "2"), 2, ("0", "9")),
        (("-3", "2"), 3, ("-27", "18")),
        (("-3", "-2"), 2, ("4", "9")),
        (("2", "3"), 4, ("16", "81")),
        (("-inf", "2"), 2, ("0", "inf")),
    ];
    for (v, k, power) in rows {
        assert!(rt; k >= 1);
        assert_eq!(rt; pow(interval(v)?, k), interval(power)?, "{v:?} {k}");
    }
    Ok(())
}

#[test]
fn signs(rt: HostRuntime) -> Result<(), Fail> {
    let rows = [
        (("1", "5"), Truth::Yes, Truth::Yes, Truth::No),
        (("0", "5"), Truth::Yes, Truth::Maybe, Truth::Maybe),
        (("0", "0"), Truth::Yes, Truth::No, Truth::Yes),
        (("-1", "1"), Truth::Maybe, Truth::Maybe, Truth::Maybe),
        (("-5", "0"), Truth::Maybe, Truth::No, Truth::Maybe),
        (("-5", "-1"), Truth::No, Truth::No, Truth::No),
        (("1", "1"), Truth::Yes, Truth::Yes, Truth::No),
        (("9", "inf"), Truth::Yes, Truth::Yes, Truth::No),
        (("-inf", "11"), Truth::Maybe, Truth::Maybe, Truth::Maybe),
        (("-inf", "-41"), Truth::No, Truth::No, Truth::No),
    ];
    for (v, at_least, above, equal) in rows {
        let value = interval(v)?;
        assert_eq!(rt; value.at_least_zero(), at_least, "{v:?}");
        assert_eq!(rt; value.above_zero(), above, "{v:?}");
        assert_eq!(rt; value.equal_to_zero(), equal, "{v:?}");
    }
    Ok(())
}

#[test]
fn pairs_of_truths(rt: HostRuntime) {
    let rows = [
        (Truth::No, Truth::No, Truth::No, Truth::No),
        (Truth::No, Truth::Maybe, Truth::No, Truth::Maybe),
        (Truth::No, Truth::Yes, Truth::No, Truth::Yes),
        (Truth::Maybe, Truth::Maybe, Truth::Maybe, Truth::Maybe),
        (Truth::Maybe, Truth::Yes, Truth::Maybe, Truth::Yes),
        (Truth::Yes, Truth::Yes, Truth::Yes, Truth::Yes),
    ];
    for (a, b, both, either) in rows {
        assert_eq!(rt; (a.and(b), b.and(a)), (both, both), "{a:?} {b:?}");
        assert_eq!(rt; (a.or(b), b.or(a)), (either, either), "{a:?} {b:?}");
    }
}

// A term: its coefficient, and each place that stands as often as its exponent says.
type Row = (i128, &'static [usize]);

fn term(rt: &impl Abort, (coef, places): Row) -> Term {
    let mut powers = [0; 32];
    for place in places {
        assert!(rt; *place < 32 && powers[*place] < 12);
        powers[*place] += 1;
    }
    Term {
        mono: Mono { powers },
        coef,
    }
}

// The sum of the terms.
fn polynomial(rt: &impl Abort, alloc: Global, rows: &[Row]) -> Result<Poly, Fail>
    ensures canonical { IfOk result IsPoly }
    ensures small { IfOk result (λ p. norm p < 2 ^ 62) }
{
    let mut sum = Poly::single(
        alloc,
        Term {
            mono: Mono { powers: [0; 32] },
            coef: 0,
        },
    )?;
    for row in rows {
        let next = term(rt, *row);
        assert!(rt; next.mono.degree() <= 12 && next.coef < 1 << 60 && next.coef > -(1 << 60));
        let next = Poly::single(alloc, next)?;
        assert!(rt; sum.norm() < 1 << 61 && sum.len() < 99 && next.len() < 99);
        sum = sum.add(alloc, &next)?;
    }
    assert!(rt; sum.norm() < 1 << 62);
    Ok(sum)
}

// Boxes of the first places; the others are [0, 0].
fn boxes(rt: &impl Abort, pairs: &[Pair]) -> Result<[Interval; 32], Fail>
    ensures { IfOk result (λ b. length b ≡ 32) }
{
    let mut boxes = [Interval::point(Word::ZERO); 32];
    for (place, pair) in pairs.iter().enumerate() {
        assert!(rt; place < 32);
        boxes[place] = interval(*pair)?;
    }
    Ok(boxes)
}

// The tank's plant conjuncts on its level, over the places H, x, f, next x, next f, tau.
const LEVEL_LOW: [Row; 4] = [(-1, &[2, 5]), (-1, &[1]), (1, &[3]), (1, &[5])];

const LEVEL_HIGH: [Row; 4] = [(1, &[2, 5]), (1, &[1]), (-1, &[3]), (1, &[5])];

// The values of those places.
const STEADY: [Pair; 6] = [
    ("1000", "1000"),
    ("500", "502"),
    ("5", "5"),
    ("551", "553"),
    ("0", "0"),
    ("10", "10"),
];

const WIDE: [Pair; 6] = [
    ("1000", "1000"),
    ("500", "502"),
    ("5", "5"),
    ("540", "553"),
    ("0", "0"),
    ("10", "10"),
];

const HIGH: [Pair; 6] = [
    ("1000", "1000"),
    ("500", "502"),
    ("5", "5"),
    ("600", "601"),
    ("0", "0"),
    ("10", "10"),
];

const UNBOUNDED: [Pair; 6] = [
    ("1000", "1000"),
    ("-inf", "502"),
    ("5", "5"),
    ("551", "553"),
    ("0", "0"),
    ("10", "10"),
];

#[tactic(auto, using(vp_interval::proofs::Fitting::fitting))]
fn check_polynomial(
    rt: &impl Abort,
    alloc: Global,
    terms: &[Row],
    pairs: &[Pair],
    want: Pair,
) -> Result<(), Fail> {
    let p = polynomial(rt, alloc, terms)?;
    let boxes = boxes(rt, pairs)?;
    assert_eq!(rt; of_poly(&p, &boxes), interval(want)?, "{want:?}");
    Ok(())
}

#[test]
fn polynomials(rt: HostRuntime) -> Result<(), Fail> {
    let alloc = rt.alloc();
    check_polynomial(&rt, alloc, &[], &[], ("0", "0"))?;
    check_polynomial(&rt, alloc, &[(-7, &[])], &[], ("-7", "-7"))?;
    check_polynomial(&rt, alloc, &LEVEL_LOW, &STEADY, ("9", "13"))?;
    check_polynomial(&rt, alloc, &LEVEL_HIGH, &STEADY, ("7", "11"))?;
    check_polynomial(&rt, alloc, &LEVEL_LOW, &WIDE, ("-2", "13"))?;
    check_polynomial(&rt, alloc, &LEVEL_LOW, &HIGH, ("58", "61"))?;
    check_polynomial(&rt, alloc, &LEVEL_HIGH, &HIGH, ("-41", "-38"))?;
    check_polynomial(&rt, alloc, &LEVEL_LOW, &UNBOUNDED, ("9", "inf"))?;
    check_polynomial(&rt, alloc, &LEVEL_HIGH, &UNBOUNDED, ("-inf", "11"))?;
    let difference = [(1, [0].as_slice()), (-1, [1].as_slice())];
    check_polynomial(
        &rt,
        alloc,
        &difference,
        &[("fin", "fin"), ("-fin", "0")],
        ("fin", "inf"),
    )?;
    let cube = [(-1, [0, 0, 0].as_slice()), (8, [].as_slice())];
    check_polynomial(&rt, alloc, &cube, &[("-3", "2")], ("-10", "35"))
}

// The polynomial with these terms, at least 0.
fn at_least(rt: &impl Abort, alloc: Global, terms: &[Row]) -> Result<Norm, Fail>
    ensures { IfOk result (λ n. FormFits 32 (tree n)) }
{
    let poly = polynomial(rt, alloc, terms)?;
    Ok(Norm::Atom(Atom { poly, rel: Rel::Ge }))
}

// The truths of the two conjuncts, the first that isn't Yes, and the truths of the `And` and the `Or`.
fn check_conjuncts(
    rt: &impl Abort,
    alloc: Global,
    pairs: &[Pair],
    truths: [Truth; 2],
    first: Option<(u32, Truth)>,
) -> Result<(), Fail> {
    let boxes = boxes(rt, pairs)?;
    let parts = [
        at_least(rt, alloc, &LEVEL_LOW)?,
        at_least(rt, alloc, &LEVEL_HIGH)?,
    ];
    assert_eq!(rt; truth_of(&parts[0], &boxes), truths[0]);
    assert_eq!(rt; truth_of(&parts[1], &boxes), truths[1]);
    assert_eq!(rt; first_not_yes(&parts, &boxes), first);
    Ok(())
}

#[test]
fn conjuncts(rt: HostRuntime) -> Result<(), Fail> {
    let alloc = rt.alloc();
    let (yes, maybe, no) = (Truth::Yes, Truth::Maybe, Truth::No);
    check_conjuncts(&rt, alloc, &STEADY, [yes, yes], None)?;
    check_conjuncts(&rt, alloc, &WIDE, [maybe, yes], Some((1, maybe)))?;
    check_conjuncts(&rt, alloc, &HIGH, [yes, no], Some((2, no)))?;
    check_conjuncts(&rt, alloc, &UNBOUNDED, [yes, maybe], Some((2, maybe)))
}

#[test]
fn lists_of_none(rt: HostRuntime) -> Result<(), Fail> {
    let alloc = rt.alloc();
    let all = Norm::And(Box::new(alloc, Norms::End)?);
    let any = Norm::Or(Box::new(alloc, Norms::End)?);
    assert_eq!(rt; truth_of(&all, &[]), Truth::Yes);
    assert_eq!(rt; truth_of(&any, &[]), Truth::No);
    Ok(())
}
