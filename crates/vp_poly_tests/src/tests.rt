//! Worked polynomials and weights.
ghost use Rattle.vp_poly.specs.Places.{IsRenaming};

use std::alloc::Global;
use std::process::Abort;
use std::test::Fail;
use vp_poly::{Mono, Poly, PolyErr, Term, Weight, of_expr, plain, weigh};
use vp_terms::{Expr, Places, Ratio, Var};
use vp_words::Counts;

// Two states, x and y, and a control.
const COUNTS: Counts = Counts {
    params: 0,
    states: 2,
    controls: 1,
};

const VARIABLE: Weight = Weight {
    norm: 1,
    den: 1,
    degree: 1,
    terms: 1,
};

const PLACES: Places = Places {
    params: 0,
    states: 2,
    controls: 1,
};

fn number(text: &str) -> Result<Expr, Fail> {
    Ok(Expr::Num(Ratio::of_text(text.as_bytes()).ok_or("no number")?))
}

fn state(k: u32) -> Expr {
    Expr::Var(Var::State(k))
}

fn sum(alloc: Global, l: Expr, r: Expr) -> Result<Expr, Fail> {
    Ok(Expr::Add(Box::new(alloc, l)?, Box::new(alloc, r)?))
}

fn difference(alloc: Global, l: Expr, r: Expr) -> Result<Expr, Fail> {
    Ok(Expr::Sub(Box::new(alloc, l)?, Box::new(alloc, r)?))
}

fn product(alloc: Global, l: Expr, r: Expr) -> Result<Expr, Fail> {
    Ok(Expr::Mul(Box::new(alloc, l)?, Box::new(alloc, r)?))
}

fn power(alloc: Global, base: Expr, exponent: u32) -> Result<Expr, Fail> {
    Ok(Expr::Pow(Box::new(alloc, base)?, exponent))
}

// x + y
fn x_and_y(alloc: Global) -> Result<Expr, Fail> {
    sum(alloc, state(0), state(1))
}

// The weight as its four numbers.
fn weight_of(rt: &impl Abort, e: &Expr) -> (i128, i128, u32, u32) {
    assert!(rt; e.has_places_below(PLACES, 7));
    let weight = weigh(e, COUNTS, &[VARIABLE; 7]);
    (weight.norm, weight.den, weight.degree, weight.terms)
}

fn canonical(rt: &impl Abort, alloc: Global, e: &Expr) -> Result<Poly, Fail> {
    assert!(rt; e.has_places_below(PLACES, 7));
    let env = plain(alloc, COUNTS)?;
    let scaled = of_expr(alloc, e, COUNTS, &env).ok().ok_or("no polynomial")?;
    Ok(scaled.poly)
}

// The terms by the exponents of x and y, with their coefficients.
fn terms_of(rt: &impl Abort, alloc: Global, e: &Expr) -> Result<Vec<(u8, u8, i128)>, Fail> {
    listed(alloc, &canonical(rt, alloc, e)?)
}

fn listed(alloc: Global, poly: &Poly) -> Result<Vec<(u8, u8, i128)>, Fail> {
    let mut out = Vec::new(alloc);
    for k in 0..poly.len() {
        let term = poly.term(k);
        out.push((term.mono.powers[0], term.mono.powers[1], term.coef))?;
    }
    Ok(out)
}

fn is_wide(rt: &impl Abort, alloc: Global, e: &Expr) -> Result<bool, Fail> {
    assert!(rt; e.has_places_below(PLACES, 7));
    let env = plain(alloc, COUNTS)?;
    Ok(matches!(of_expr(alloc, e, COUNTS, &env), Err(PolyErr::Wide)))
}

#[test]
fn weights(rt: HostRuntime) -> Result<(), Fail> {
    let alloc = rt.alloc();
    let half = product(alloc, number("1/2")?, state(0))?;
    let quarter = product(alloc, number("0.25")?, state(1))?;
    let e = sum(alloc, half, quarter)?;
    assert_eq!(rt; weight_of(&rt, &e), (3, 4, 1, 2));
    assert_eq!(rt;
        terms_of(&rt, alloc, &e)?.as_slice(),
        [(1, 0, 2), (0, 1, 1)].as_slice()
    );
    let e = difference(alloc, state(0), state(0))?;
    assert_eq!(rt; weight_of(&rt, &e), (2, 1, 1, 2));
    assert_eq!(rt; terms_of(&rt, alloc, &e)?.len(), 0);
    let e = power(alloc, state(0), 0)?;
    assert_eq!(rt; weight_of(&rt, &e), (1, 1, 0, 1));
    assert_eq!(rt;
        terms_of(&rt, alloc, &e)?.as_slice(),
        [(0, 0, 1)].as_slice()
    );
    assert_eq!(rt; weight_of(&rt, &number("0")?), (0, 1, 0, 0));
    Ok(())
}

#[test]
fn limits(rt: HostRuntime) -> Result<(), Fail> {
    let alloc = rt.alloc();
    let most = number("4611686018427387903")?;
    assert_eq!(rt; is_wide(&rt, alloc, &most)?, false);
    assert_eq!(rt;
        is_wide(&rt, alloc, &sum(alloc, most, number("1")?)?)?,
        true
    );
    let square = product(alloc, state(0), state(0))?;
    let e = power(alloc, square, 7)?;
    assert_eq!(rt; weight_of(&rt, &e), (1, 1, 14, 1));
    assert_eq!(rt; is_wide(&rt, alloc, &e)?, true);
    let e = power(alloc, state(0), 12)?;
    assert_eq!(rt; is_wide(&rt, alloc, &e)?, false);
    let e = product(alloc, e, state(0))?;
    assert_eq!(rt; is_wide(&rt, alloc, &e)?, true);
    let e = power(alloc, e, 0)?;
    assert_eq!(rt; weight_of(&rt, &e), (i128::MAX, 1, 0, 1));
    let most = power(alloc, number("4611686018427387903")?, 12)?;
    assert_eq!(rt; weight_of(&rt, &most), (i128::MAX, 1, 0, 1));
    let least = power(alloc, number("1/4611686018427387903")?, 3)?;
    assert_eq!(rt; weight_of(&rt, &least), (1, i128::MAX, 0, 1));
    Ok(())
}

#[test]
fn binomials(rt: HostRuntime) -> Result<(), Fail> {
    let alloc = rt.alloc();
    let e = power(alloc, x_and_y(alloc)?, 12)?;
    assert_eq!(rt; weight_of(&rt, &e), (4096, 1, 12, 4096));
    let terms = terms_of(&rt, alloc, &e)?;
    let coefficients = [1, 12, 66, 220, 495, 792, 924, 792, 495, 220, 66, 12, 1];
    assert_eq!(rt; terms.len(), coefficients.len());
    for (k, term) in terms.iter().enumerate() {
        assert!(rt; k < 13);
        assert_eq!(rt; *term, (12 - k as u8, k as u8, coefficients[k]));
    }
    assert_eq!(rt; is_wide(&rt, alloc, &sum(alloc, e, number("1")?)?)?, true);
    Ok(())
}

#[test]
fn order_of_terms(rt: HostRuntime) -> Result<(), Fail> {
    let alloc = rt.alloc();
    let e = sum(alloc, number("5")?, x_and_y(alloc)?)?;
    let e = sum(alloc, e, product(alloc, state(0), state(1))?)?;
    let e = sum(alloc, power(alloc, state(1), 2)?, e)?;
    assert_eq!(rt;
        terms_of(&rt, alloc, &e)?.as_slice(),
        [(1, 1, 1), (0, 2, 1), (1, 0, 1), (0, 1, 1), (0, 0, 5)].as_slice()
    );
    let e = product(
        alloc,
        x_and_y(alloc)?,
        difference(alloc, state(0), state(1))?,
    )?;
    assert_eq!(rt;
        terms_of(&rt, alloc, &e)?.as_slice(),
        [(2, 0, 1), (0, 2, -1)].as_slice()
    );
    Ok(())
}

// The renaming that exchanges x and y.
fn exchanged() -> [u8; 32]
    ensures { IsRenaming result }
{
    let mut to = [
        0, 1, 2, 3, 4, 5, 6, 7, 8, 9, 10, 11, 12, 13, 14, 15, 16, 17, 18, 19, 20, 21, 22, 23, 24,
        25, 26, 27, 28, 29, 30, 31,
    ];
    to.swap(0, 1);
    to
}

#[test]
fn calls_of_polynomials(rt: HostRuntime) -> Result<(), Fail> {
    let alloc = rt.alloc();
    let double = product(alloc, number("2")?, state(0))?;
    let poly = canonical(&rt, alloc, &sum(alloc, double, state(1))?)?;
    assert_eq!(rt; poly.norm(), 3);
    assert_eq!(rt; poly.is_zero(), false);
    assert_eq!(rt;
        listed(alloc, &poly.copy(alloc)?)?.as_slice(),
        [(1, 0, 2), (0, 1, 1)].as_slice()
    );
    let renamed = poly.rename(alloc, &exchanged())?;
    assert_eq!(rt;
        listed(alloc, &renamed)?.as_slice(),
        [(1, 0, 1), (0, 1, 2)].as_slice()
    );
    let none = poly.scale(alloc, 0)?;
    assert_eq!(rt; none.is_zero(), true);
    let nothing = Term {
        mono: Mono { powers: [0; 32] },
        coef: 0,
    };
    assert_eq!(rt; Poly::single(alloc, nothing)?.len(), 0);
    Ok(())
}
